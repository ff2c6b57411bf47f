//! Nets in memory, which hand out the stations of a list.
ghost use Rattle.std.specs.Prelude.{◌≡◌, false, true, ◌<◌, ◌≤◌, [], ◌∷◌, length};
ghost use Rattle.std.specs.Prelude.{take, drop, map, IfSome, IfNone, vec_len};
ghost use Rattle.std.specs.VecDeque.{deque_len};
ghost use Rattle.ldm_outside_memory.specs.MemNet.{first_station};

use crate::mem_clock::MemClock;
use crate::mem_dial::MemDial;
use crate::mem_door::{MemDoor, MemPeer};
use crate::mem_gate::MemGate;
use crate::mem_link::{LinkScript, MemLink};
use crate::memory::MemSink;
use ldm_outside::{Dial, Dialled, Manned, Net, Reasons, Station};
use ldm_types::Micros;
use std::alloc::Global;
use std::collections::VecDeque;
use std::marker::Model;

/// A station whose parts are in memory.
pub type MemStation = Station<MemDoor, MemDial, MemSink, MemClock, MemGate>;

/// What a station in memory is to do.
#[derive(Drop)]
pub struct StationScript {
    /// The peers that its door lets in.
    pub peers: Vec<MemPeer>,
    /// The numbers of the calls of its door that fail.
    pub door_failing: Vec<u64>,
    /// What the links do that its dial connects.
    pub links: Vec<LinkScript>,
    /// The numbers of the calls of its dial that fail.
    pub dial_failing: Vec<u64>,
    /// The numbers of the calls of its log that fail.
    pub log_failing: Vec<u64>,
    /// What its clock answers.
    pub instants: Vec<Micros>,
    /// The numbers of the calls of its gate that are answered [`Go::Stop`](crate::Go::Stop).
    pub stopping: Vec<u64>,
}

/// What a net was asked for.
#[derive(Clone, Copy, Debug, PartialEq, Eq)]
pub struct StationsCall {
    /// The port of the doors.
    pub port: u16,
    /// How many stations.
    pub count: u32,
    /// After how many idle calls their gates are to stop.
    pub idles: Option<u32>,
}

/// A net that hands out the stations of a list, in order, and connects as a [`MemDial`] does. Its calls of `connect`
/// and `stations` are numbered together, from 1.
///
/// The port and the number of idle calls change nothing of the stations: their scripts say what they do.
#[derive(Drop)]
pub struct MemNet {
    dial: MemDial,
    ready: VecDeque<StationScript>,
    asked: Option<StationsCall>,
    kept: Vec<MemStation>,
}

impl Model for MemNet {
    ghost use Rattle.ldm_outside_memory.specs.MemNet.{NetState};

    ghost Value = { NetState };

    ghost view = { λ s. record { dial = s.dial; ready = s.ready.items; asked = s.asked; kept = s.kept.items } };
}

impl MemNet {
    ghost use Rattle.ldm_outside_memory.specs.MemNet.{first_net};

    /// A net that hands out stations which do as these scripts say, and connects by this dial.
    pub fn new(alloc: Global, dial: MemDial, ready: Vec<StationScript>) -> MemNet
        ensures { result ≡ first_net dial ready.items }
    {
        MemNet {
            dial,
            ready: VecDeque::from(ready),
            asked: None,
            kept: Vec::new(alloc),
        }
    }

    /// What it connects by.
    pub fn dial(&self) -> &MemDial
        ensures { result.now ≡ self.now.dial }
    {
        &self.dial
    }

    /// What it was asked for last.
    pub fn asked(&self) -> Option<StationsCall>
        ensures { result ≡ self.now.asked }
    {
        self.asked
    }

    /// The stations that it keeps, in order.
    pub fn kept(&self) -> &[MemStation]
        ensures { result.now ≡ self.now.kept }
    {
        self.kept.as_slice()
    }
}

impl Dial for MemNet {
    ghost use Rattle.ldm_outside.specs.Dial.{ConnectGives, DialTakesBack};
    ghost use Rattle.ldm_outside_memory.specs.MemLink.{told_by_link};
    ghost use Rattle.ldm_outside_memory.specs.MemDial.{told_by_dial, ConnectsAsPlanned};
    ghost use Rattle.ldm_outside_memory.specs.MemLending.{after_back};

    type Link = MemLink;

    ghost tells = { λ s. told_by_dial s.dial };

    fn connect(&mut self, host: &[u8], port: u16) -> Dialled<MemLink>
        requires { self.old.dial.links.out ≡ false }
        ensures dialled { ConnectGives told_by_link result (record { host = host.now; port = port })
            (told_by_dial self.old.dial) (told_by_dial self.new.dial) }
        ensures planned { ConnectsAsPlanned result
            (record { host = host.now; port = port }) self.old.dial self.new.dial }
        ensures rest { self.new ≡ record self.old { dial = self.new.dial } }
    {
        self.dial.connect(host, port)
    }

    fn give_back(&mut self, link: MemLink)
        requires { self.old.dial.links.out ≡ true }
        ensures given_back { DialTakesBack (told_by_link link) (told_by_dial self.old.dial)
            (told_by_dial self.new.dial) }
        ensures planned { self.new
            ≡ record self.old { dial = record self.old.dial { links = after_back link self.old.dial.links } } }
    {
        self.dial.give_back(link);
    }
}

impl Net for MemNet {
    ghost use Rattle.std.specs.Prelude.{option_map, Some};
    ghost use Rattle.ldm_outside_memory.specs.MemDial.{told_by_dial};
    ghost use Rattle.ldm_outside.specs.Net.{StationsGive};
    ghost use Rattle.ldm_outside_memory.specs.MemNet.{told_by_station, StationsAsPlanned};

    type StationDoor = MemDoor;

    type StationDial = MemDial;

    type StationLog = MemSink;

    type StationClock = MemClock;

    type StationGate = MemGate;

    ghost kept = { λ s. s.kept };

    ghost port_asked = { λ s. option_map (λ call. call.port) s.asked };

    fn stations(&mut self, port: u16, count: u32, idles: Option<u32>) -> Manned<MemStation>
        ensures given { StationsGive told_by_station result count idles (told_by_dial self.old.dial)
            (told_by_dial self.new.dial) }
        ensures kept { self.new.kept ≡ self.old.kept }
        ensures planned { StationsAsPlanned result
            (record { port = port; count = count; idles = idles }) self.old self.new }
    {
        self.asked = Some(StationsCall { port, count, idles });
        if self.dial.count_call() || self.ready.len() < count as usize {
            self.dial.count_fault();
            return Manned::Failed;
        }
        let taken = take_stations(*self.kept.allocator(), &mut self.ready, count as usize);
        let Some(stations) = taken else {
            return Manned::OutOfMemory;
        };
        Manned::Stations(stations)
    }

    fn keep(&mut self, stations: Vec<MemStation>)
        ensures kept { self.new ≡ record self.old { kept = stations.items } }
        ensures same { told_by_dial self.new.dial ≡ told_by_dial self.old.dial }
    {
        self.kept = stations;
    }
}

// Takes the first so many stations. Without memory all of them stay.
fn take_stations(
    alloc: Global,
    ready: &mut VecDeque<StationScript>,
    count: usize,
) -> Option<Vec<MemStation>>
    requires { count ≤ deque_len ready.old }
    ensures taken { IfSome result (λ stations. stations.items ≡ map first_station (take count ready.old.items)) }
    ensures len { IfSome result (λ stations. vec_len stations ≡ count) }
    ensures rest { IfSome result (λ _. ready.new.items ≡ drop count ready.old.items) }
    ensures none { IfNone result (ready.new.items ≡ ready.old.items) }
{
    let mut stations = Vec::with_capacity(alloc, count).ok()?;
    for _ in 0..count {
        stations.push_reserved(next_station(alloc, ready));
    }
    Some(stations)
}

// Takes the first station.
fn next_station(alloc: Global, ready: &mut VecDeque<StationScript>) -> MemStation
    requires { 0 < deque_len ready.old }
    ensures first { map first_station (take 1 ready.old.items) ≡ result ∷ [] }
    ensures rest { ready.new.items ≡ drop 1 ready.old.items }
{
    match ready.pop_front() {
        Some(script) => new_station(alloc, script),
        None => unreachable!(),
    }
}

// A station that does as the script says.
fn new_station(alloc: Global, script: StationScript) -> MemStation
    ensures { result ≡ first_station script }
{
    let StationScript {
        peers,
        door_failing,
        links,
        dial_failing,
        log_failing,
        instants,
        stopping,
    } = script;
    Station {
        door: MemDoor::new(alloc, peers, door_failing),
        dial: MemDial::new(alloc, links, dial_failing),
        log: MemSink::new(alloc, log_failing),
        clock: MemClock::new(instants),
        gate: MemGate::new(alloc, stopping),
    }
}

impl Reasons for MemNet {
    fn reason(&self) -> &[u8] {
        b"".as_slice()
    }
}
