//! A net in memory that hands out a desk too.
ghost use Rattle.std.specs.Prelude.{◌≡◌, ◌≤◌, true, false, Some, None, option_map};
ghost use Rattle.ldm_outside.specs.Count.{Rose};
ghost use Rattle.ldm_outside.specs.Count.{raised};
ghost use Rattle.ldm_disk_memory.specs.MemSite.{first_desk, told_by_site};

use crate::mem_disk::MemDisk;
use ldm_disk::{Desk, Desks, Furnished};
use ldm_outside::{Dial, Dialled, Manned, Net, Reasons};
use ldm_outside_memory::{
    MemClock, MemDial, MemDoor, MemGate, MemLink, MemNet, MemSink, MemStation,
};
use ldm_types::Micros;
use std::alloc::Global;
use std::marker::Model;

/// A desk whose parts are in memory.
pub type MemDesk = Desk<MemDisk, MemSink, MemClock, MemGate>;

/// What a desk in memory is to do.
#[derive(Drop)]
pub struct DeskScript {
    /// The bytes of the file of its disk.
    pub bytes: Vec<u8>,
    /// The numbers of the calls of its disk that fail.
    pub disk_failing: Vec<u64>,
    /// The numbers of the calls of its log that fail.
    pub log_failing: Vec<u64>,
    /// What its clock answers.
    pub instants: Vec<Micros>,
    /// The numbers of the calls of its gate that are answered [`Go::Stop`](ldm_outside::Go::Stop).
    pub stopping: Vec<u64>,
}

/// A net in memory that has a desk, or none. It hands the desk out once, and fails then.
///
/// The number of idle calls changes nothing of the desk, and the input of the program and the numbers of peers nothing
/// of the gates: their scripts say what they do.
#[derive(Drop)]
pub struct MemSite {
    net: MemNet,
    faults: u64,
    ready: Option<DeskScript>,
    kept_desk: Option<MemDesk>,
}

impl Model for MemSite {
    ghost use Rattle.ldm_disk_memory.specs.MemSite.{SiteState};

    ghost Value = { SiteState };

    ghost view = { λ s. record { net = s.net; faults = s.faults; ready = s.ready; kept_desk = s.kept_desk } };
}

impl MemSite {
    ghost use Rattle.ldm_disk_memory.specs.MemSite.{first_site};

    /// A site that hands out the stations of the net, and a desk that does as its script says.
    pub fn new(net: MemNet, desk: Option<DeskScript>) -> MemSite
        ensures { result ≡ first_site net desk }
    {
        MemSite {
            net,
            faults: 0,
            ready: desk,
            kept_desk: None,
        }
    }

    /// Its net.
    pub fn net(&self) -> &MemNet
        ensures { result.now ≡ self.now.net }
    {
        &self.net
    }

    /// How often it failed.
    pub fn faults(&self) -> u64
        ensures { result ≡ self.now.faults }
    {
        self.faults
    }

    /// The desk that it keeps.
    pub fn kept_desk(&self) -> &Option<MemDesk>
        ensures { result.now ≡ self.now.kept_desk }
    {
        &self.kept_desk
    }

    // Counts a fault.
    fn count_fault(&mut self)
        ensures counted { self.new ≡ record self.old { faults = raised self.old.faults } }
        ensures rose { Rose self.old.faults self.new.faults }
    {
        self.faults = self.faults.saturating_add(1);
    }
}

impl Dial for MemSite {
    ghost use Rattle.ldm_outside.specs.Dial.{ConnectGives, DialTakesBack};
    ghost use Rattle.ldm_outside_memory.specs.MemLink.{told_by_link};
    ghost use Rattle.ldm_outside_memory.specs.MemDial.{ConnectsAsPlanned};
    ghost use Rattle.ldm_outside_memory.specs.MemLending.{after_back};

    type Link = MemLink;

    ghost tells = { told_by_site };

    fn connect(&mut self, host: &[u8], port: u16) -> Dialled<MemLink>
        requires { self.old.net.dial.links.out ≡ false }
        ensures dialled { ConnectGives told_by_link result (record { host = host.now; port = port })
            (told_by_site self.old) (told_by_site self.new) }
        ensures planned { ConnectsAsPlanned result
            (record { host = host.now; port = port }) self.old.net.dial self.new.net.dial }
        ensures rest { self.new ≡ record self.old {
          net = record self.old.net { dial = self.new.net.dial };
          faults = self.new.faults;
        } }
    {
        let dialled = self.net.connect(host, port);
        if let Dialled::Failed = &dialled {
            self.count_fault();
        }
        dialled
    }

    fn give_back(&mut self, link: MemLink)
        requires { self.old.net.dial.links.out ≡ true }
        ensures given_back { DialTakesBack (told_by_link link) (told_by_site self.old) (told_by_site self.new) }
        ensures planned { self.new ≡ record self.old {
          net = record self.old.net {
            dial = record self.old.net.dial { links = after_back link self.old.net.dial.links };
          };
        } }
    {
        self.net.give_back(link);
    }
}

impl Net for MemSite {
    ghost use Rattle.ldm_outside.specs.Net.{StationsGive};
    ghost use Rattle.ldm_outside_memory.specs.MemNet.{told_by_station, StationsAsPlanned};

    type StationDoor = MemDoor;

    type StationDial = MemDial;

    type StationLog = MemSink;

    type StationClock = MemClock;

    type StationGate = MemGate;

    ghost kept = { λ s. s.net.kept };

    ghost port_asked = { λ s. option_map (λ call. call.port) s.net.asked };

    fn stations(&mut self, port: u16, count: u32, idles: Option<u32>) -> Manned<MemStation>
        ensures given { StationsGive told_by_station result count idles (told_by_site self.old)
            (told_by_site self.new) }
        ensures kept { self.new.net.kept ≡ self.old.net.kept }
        ensures planned { StationsAsPlanned result
            (record { port = port; count = count; idles = idles }) self.old.net self.new.net }
        ensures desks { self.new ≡ record self.old { net = self.new.net; faults = self.new.faults } }
    {
        let manned = self.net.stations(port, count, idles);
        if let Manned::Failed = &manned {
            self.count_fault();
        }
        manned
    }

    fn keep(&mut self, stations: Vec<MemStation>)
        ensures kept { self.new ≡ record self.old { net = record self.old.net { kept = stations.items } } }
        ensures same { told_by_site self.new ≡ told_by_site self.old }
    {
        self.net.keep(stations);
    }
}

impl Desks for MemSite {
    ghost use Rattle.ldm_disk.specs.Desks.{DeskGives};
    ghost use Rattle.ldm_disk_memory.specs.MemSite.{told_by_desk, DeskAsPlanned};

    type DeskDisk = MemDisk;

    ghost kept_desk = { λ s. s.kept_desk };

    fn desk(&mut self, idles: Option<u32>) -> Furnished<MemDesk>
        ensures given { DeskGives told_by_desk result idles (told_by_site self.old) (told_by_site self.new) }
        ensures planned { DeskAsPlanned result self.old self.new }
    {
        match self.ready.take() {
            Some(script) => Furnished::Desk(new_desk(script)),
            None => {
                self.count_fault();
                Furnished::Failed
            }
        }
    }

    fn keep_desk(&mut self, desk: MemDesk)
        ensures kept_desk { self.new ≡ record self.old { kept_desk = Some desk } }
        ensures same { told_by_site self.new ≡ told_by_site self.old }
    {
        self.kept_desk = Some(desk);
    }

    fn limit_peers(&mut self, _workers: u32, _peers: u32)
        ensures unchanged { self.new ≡ self.old }
    {}

    fn stop_with_input(&mut self)
        ensures unchanged { self.new ≡ self.old }
    {}
}

impl Reasons for MemSite {
    fn reason(&self) -> &[u8] {
        self.net.reason()
    }
}

// A desk that does as the script says.
fn new_desk(script: DeskScript) -> MemDesk
    ensures { result ≡ first_desk script }
{
    let DeskScript {
        bytes,
        disk_failing,
        log_failing,
        instants,
        stopping,
    } = script;
    let alloc: Global = *bytes.allocator();
    Desk {
        disk: MemDisk::new(alloc, bytes, disk_failing),
        log: MemSink::new(alloc, log_failing),
        clock: MemClock::new(instants),
        gate: MemGate::new(alloc, stopping),
    }
}
