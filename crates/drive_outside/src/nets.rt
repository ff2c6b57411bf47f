//! Nets.
ghost use Rattle.std.specs.Prelude.{◌≡◌, false};

use crate::doors::{calls, dial_of, end_of_dial};
use ldm_drive::{Trial, numbers, push, tell_count, tell_number, tell_word};
use ldm_outside::{Manned, Net};
use ldm_outside_memory::{MemNet, StationScript};
use std::alloc::Global;

fn station(alloc: Global) -> StationScript {
    StationScript {
        peers: Vec::new(alloc),
        door_failing: Vec::new(alloc),
        links: Vec::new(alloc),
        dial_failing: Vec::new(alloc),
        log_failing: Vec::new(alloc),
        instants: Vec::new(alloc),
        stopping: Vec::new(alloc),
    }
}

/// A net with two stations, which connects as a dial of three links does.
pub(crate) fn net_of(trial: &mut Trial, failing: Vec<u64>) -> MemNet
    ensures { result.dial.links.out ≡ false }
{
    let alloc = trial.alloc();
    let mut ready = Vec::new(alloc);
    push(trial, &mut ready, station(alloc));
    push(trial, &mut ready, station(alloc));
    MemNet::new(alloc, dial_of(trial, failing), ready)
}

/// Takes stations and hands them back. How many came, where any did.
pub(crate) fn man<N: Net>(trial: &mut Trial, net: &mut N, count: u32) {
    match net.stations(388, count, Some(3)) {
        Manned::Stations(stations) => {
            tell_number(trial, stations.len() as u64);
            net.keep(stations);
        }
        Manned::Failed => tell_word(trial, "failed"),
        Manned::OutOfMemory => trial.lack_memory(),
    }
}

// One call for so many stations, and what the net was asked for.
fn tell_man(trial: &mut Trial, net: &mut MemNet, count: u32) {
    man(trial, net, count);
    match net.asked() {
        Some(asked) => tell_count(trial, "of", u64::from(asked.count)),
        None => tell_word(trial, "none"),
    }
}

/// `net FAILING COUNT ..`: a call for each number of stations, of which there are two.
pub fn net(trial: &mut Trial) {
    let failing = numbers(trial);
    let mut net = net_of(trial, failing);
    for _ in 0..u64::MAX {
        if trial.is_done() {
            break;
        }
        let count = trial.small();
        tell_man(trial, &mut net, count);
    }
    tell_count(trial, "kept", net.kept().len() as u64);
    tell_count(trial, "faults", net.dial().faults());
}

/// `net_dial FAILING COUNT`: so many calls of a net, for three links.
pub fn net_dial(trial: &mut Trial) {
    let failing = numbers(trial);
    let mut net = net_of(trial, failing);
    let count = trial.number();
    calls(trial, &mut net, count);
    end_of_dial(trial, net.dial());
}
