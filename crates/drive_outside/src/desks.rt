//! Desks.

use crate::disk::next_path;
use crate::doors::calls;
use crate::file::attach;
use crate::nets::{man, net_of};
use ldm_adapters::RealNet;
use ldm_disk::{Desks, Furnished};
use ldm_disk_memory::{DeskScript, MemSite};
use ldm_drive::{Trial, idle, numbers, push, tell_count, tell_go, tell_word};
use std::rt::HostRuntime;

// Takes a desk, attaches a file to its disk, lets its gate idle twice, and hands it back.
fn sit<N: Desks>(trial: &mut Trial, net: &mut N, path: &str) {
    match net.desk(Some(1)) {
        Furnished::Desk(mut desk) => {
            attach(trial, &mut desk.disk, path);
            tell_go(trial, idle(&mut desk.gate));
            tell_go(trial, idle(&mut desk.gate));
            net.keep_desk(desk);
        }
        Furnished::Failed => tell_word(trial, "failed"),
        Furnished::OutOfMemory => trial.lack_memory(),
    }
}

/// `desk NAME`: three desks of a net of the system, and one file. The net keeps a desk until it is handed the next, so
/// the first has the file while the second asks for it, and the third finds it free.
pub fn desk(rt: HostRuntime, trial: &mut Trial) {
    let path = next_path(rt, trial);
    let mut net = RealNet::new(rt);
    sit(trial, &mut net, path.as_str());
    sit(trial, &mut net, path.as_str());
    sit(trial, &mut net, path.as_str());
}

// What a desk is to do whose gate stops at its second call, and of whose disk these calls fail.
fn script(trial: &mut Trial) -> DeskScript {
    let alloc = trial.alloc();
    let disk_failing = numbers(trial);
    let mut stopping = Vec::new(alloc);
    push(trial, &mut stopping, 2);
    DeskScript {
        bytes: Vec::new(alloc),
        disk_failing,
        log_failing: Vec::new(alloc),
        instants: Vec::new(alloc),
        stopping,
    }
}

/// `site FAILING COUNT`: so many calls of a site with two stations and a desk, of whose disk the given calls fail; then
/// two calls for a desk, and two for both stations.
pub fn site(trial: &mut Trial) {
    let script = script(trial);
    let none = Vec::new(trial.alloc());
    let mut site = MemSite::new(net_of(trial, none), Some(script));
    let count = trial.number();
    calls(trial, &mut site, count);
    site.limit_peers(1, 1);
    site.stop_with_input();
    sit(trial, &mut site, "any");
    sit(trial, &mut site, "any");
    man(trial, &mut site, 2);
    man(trial, &mut site, 2);
    tell_count(trial, "kept", site.net().kept().len() as u64);
    tell_count(trial, "faults", site.faults());
    match site.kept_desk() {
        Some(desk) => tell_count(trial, "disk", desk.disk.faults()),
        None => tell_word(trial, "none"),
    }
}
