//! The net over TCP.
ghost use Rattle.std.specs.Prelude.{◌≡◌, ℕ, [], All, IfOk, Option, None, vec_len};
ghost use Rattle.ldm_outside.specs.Dial.{IsNewDial};
ghost use Rattle.ldm_outside.specs.Station.{IsNew};
ghost use Rattle.ldm_disk.specs.Desks.{IsNewDesk};
ghost use Rattle.ldm_adapters.specs.Told.{told_by_desk, told_by_dial, told_by_station};

use crate::beats::Beats;
use crate::clock::RealClock;
use crate::dials::RealDial;
use crate::disk::RealDisk;
use crate::doors::RealDoor;
use crate::gate::RealGate;
use crate::links::{RealLink, Timeouts};
use crate::lobby::{Lobby, Way};
use crate::resting::Resting;
use crate::station_log::StationLog;
use crate::streams::RealSink;
use ldm_disk::{Desk, Desks, Furnished};
use ldm_outside::{Dial, Dialled, Manned, Net, Reasons, Station};
use std::io::{self, ErrorKind};
use std::net::{IpAddr, Ipv4Addr, Ipv6Addr, SocketAddr, TcpListener};
use std::rt::HostRuntime;
use std::sync::Arc;

/// The outside of one worker, whose log is standard error.
pub type RealStation = Station<RealDoor, RealDial, RealSink<StationLog>, RealClock, RealGate>;

/// What keeps a file, and whose log is standard error.
pub type RealDesk = Desk<RealDisk, RealSink<StationLog>, RealClock, RealGate>;

// What the stations and the desks of a net have in common.
#[derive(Drop)]
struct Common {
    // What one of them was made of, once one was made.
    beats: Option<Beats>,
    // Whether their gates may stop with the input of the program.
    by_input: bool,
    // How many of the stations that are handed out together are for workers that let peers in, and how many each.
    workers: u32,
    peers: u32,
}

impl Common {
    // Of a net that has made none yet, whose workers let in any number of peers.
    fn new() -> Common {
        Common {
            beats: None,
            by_input: false,
            workers: u32::MAX,
            peers: u32::MAX,
        }
    }

    // How many peers the worker at that place lets in. One that lets in nobody is told of no end here.
    fn peers_at(&self, place: usize) -> u32 {
        if place < self.workers as usize {
            self.peers
        } else {
            u32::MAX
        }
    }

    // For one more of them.
    fn beats(&mut self, rt: HostRuntime) -> io::Result<Beats> {
        let beats = match self.beats.take() {
            Some(beats) => beats,
            None => Beats::new(rt, self.by_input)?,
        };
        let beside = beats.beside(rt.alloc());
        self.beats = Some(beats);
        Ok(beside?)
    }
}

// A station whose door lets in so many of the lobby who spoke.
fn station(
    rt: HostRuntime,
    lobby: &Arc<Lobby>,
    timeouts: Timeouts,
    idles: Option<u32>,
    peers: u32,
    beats: Beats,
) -> io::Result<RealStation>
    ensures { IfOk result (λ made. IsNew idles (told_by_station made)) }
{
    Ok(Station {
        door: RealDoor::of_lobby(Way::new(lobby)?, timeouts, beats.share()?, peers),
        dial: RealDial::beating(rt, timeouts, Some(beats.share()?)),
        log: RealSink::new(rt.alloc(), StationLog::new(rt, beats.share()?)),
        clock: RealClock::new(rt),
        gate: RealGate::resting(rt, idles, Resting::new(rt, beats)?),
    })
}

// A desk to whose disk no file is attached. Its gate stops behind all stations, by whatever number these stop.
fn furnish(rt: HostRuntime, common: &mut Common) -> io::Result<RealDesk>
    ensures { IfOk result (λ made. (idles : Option ℕ) → IsNewDesk idles (told_by_desk made)) }
{
    let beats = common.beats(rt)?;
    Ok(Desk {
        disk: RealDisk::new(rt),
        log: RealSink::new(rt.alloc(), StationLog::new(rt, beats.share()?)),
        clock: RealClock::new(rt),
        gate: RealGate::of_desk(rt, Resting::of_desk(rt, beats)?),
    })
}

// A listener on all addresses of this machine: of IPv6 and IPv4, or of IPv4 alone where the system has no IPv6.
fn listen(rt: HostRuntime, port: u16) -> io::Result<TcpListener> {
    let both = SocketAddr::new(IpAddr::V6(Ipv6Addr::UNSPECIFIED), port);
    let old = SocketAddr::new(IpAddr::V4(Ipv4Addr::UNSPECIFIED), port);
    match TcpListener::bind(&rt, both) {
        Ok(listener) => Ok(listener),
        Err(_) => TcpListener::bind(&rt, old),
    }
}

// So many stations, whose doors share one lobby.
fn man(
    rt: HostRuntime,
    port: u16,
    count: u32,
    timeouts: Timeouts,
    idles: Option<u32>,
    common: &mut Common,
) -> io::Result<Vec<RealStation>>
    ensures count { IfOk result (λ made. vec_len made ≡ count) }
    ensures new { IfOk result (λ made. All (λ one. IsNew idles (told_by_station one)) made.items) }
{
    let lobby = Lobby::new(rt, listen(rt, port)?, common.beats(rt)?)?;
    let lobby = Arc::new(rt.alloc(), lobby)?;
    let mut made = Vec::with_capacity(rt.alloc(), count as usize)?;
    for _ in 0..count {
        let beats = common.beats(rt)?;
        let peers = common.peers_at(made.len());
        let one = station(rt, &lobby, timeouts, idles, peers, beats)?;
        made.push_reserved(one);
    }
    begin(made.as_slice());
    Ok(made)
}

// The stations are at work from now on.
fn begin(stations: &[RealStation]) {
    for one in stations {
        one.door.begin();
    }
}

/// The net over TCP of this system.
#[derive(Drop)]
pub struct RealNet {
    dial: RealDial,
    rt: HostRuntime,
    timeouts: Timeouts,
    // The port that it was asked for last.
    port: Option<u16>,
    kept: Vec<RealStation>,
    common: Common,
    kept_desk: Option<RealDesk>,
}

impl RealNet {
    /// The net of this system, which keeps no station and no desk.
    pub fn new(rt: HostRuntime) -> RealNet
        ensures kept { result.kept.items ≡ [] }
        ensures kept_desk { result.kept_desk ≡ None }
        ensures dial { IsNewDial (told_by_dial result.dial) }
    {
        RealNet::with_timeouts(rt, Timeouts::new(rt))
    }

    /// The same, with links that wait no longer than this.
    pub fn with_timeouts(rt: HostRuntime, timeouts: Timeouts) -> RealNet
        ensures kept { result.kept.items ≡ [] }
        ensures kept_desk { result.kept_desk ≡ None }
        ensures dial { IsNewDial (told_by_dial result.dial) }
    {
        RealNet {
            dial: RealDial::new(rt, timeouts),
            rt,
            timeouts,
            port: None,
            kept: Vec::new(rt.alloc()),
            common: Common::new(),
            kept_desk: None,
        }
    }
}

impl Dial for RealNet {
    ghost use Rattle.ldm_adapters.specs.Told.{told_by_dial};

    type Link = RealLink;

    ghost tells = { λ s. told_by_dial s.dial };

    fn connect(&mut self, host: &[u8], port: u16) -> Dialled<RealLink> {
        self.dial.connect(host, port)
    }

    fn give_back(&mut self, link: RealLink) {
        self.dial.give_back(link);
    }
}

impl Net for RealNet {
    ghost use Rattle.std.specs.Prelude.{Some};
    ghost use Rattle.ldm_outside.specs.Net.{StationsGive};
    ghost use Rattle.ldm_adapters.specs.Told.{told_by_dial};

    type StationDoor = RealDoor;

    type StationDial = RealDial;

    type StationLog = RealSink<StationLog>;

    type StationClock = RealClock;

    type StationGate = RealGate;

    ghost kept = { λ s. s.kept.items };

    ghost port_asked = { λ s. s.port };

    fn stations(&mut self, port: u16, count: u32, idles: Option<u32>) -> Manned<RealStation>
        ensures given { StationsGive told_by_station result count idles (told_by_dial self.old.dial)
            (told_by_dial self.new.dial) }
        ensures kept { self.new.kept.items ≡ self.old.kept.items }
        ensures asked { self.new.port ≡ Some port }
        ensures kept_desk { self.new.kept_desk ≡ self.old.kept_desk }
    {
        self.port = Some(port);
        match man(self.rt, port, count, self.timeouts, idles, &mut self.common) {
            Ok(made) => Manned::Stations(made),
            Err(error) if error.kind() == ErrorKind::OutOfMemory => Manned::OutOfMemory,
            Err(error) => {
                self.dial.fail_to_listen(port, &error);
                Manned::Failed
            }
        }
    }

    fn keep(&mut self, stations: Vec<RealStation>)
        ensures kept { self.new.kept.items ≡ stations.items }
        ensures same { told_by_dial self.new.dial ≡ told_by_dial self.old.dial }
        ensures asked { self.new.port ≡ self.old.port }
        ensures kept_desk { self.new.kept_desk ≡ self.old.kept_desk }
    {
        self.kept = stations;
    }
}

impl Desks for RealNet {
    ghost use Rattle.std.specs.Prelude.{Some};
    ghost use Rattle.ldm_disk.specs.Desks.{DeskGives};

    type DeskDisk = RealDisk;

    ghost kept_desk = { λ s. s.kept_desk };

    fn desk(&mut self, idles: Option<u32>) -> Furnished<RealDesk>
        ensures given { DeskGives told_by_desk result idles (told_by_dial self.old.dial) (told_by_dial self.new.dial) }
        ensures kept { self.new.kept.items ≡ self.old.kept.items }
        ensures asked { self.new.port ≡ self.old.port }
        ensures kept_desk { self.new.kept_desk ≡ self.old.kept_desk }
    {
        match furnish(self.rt, &mut self.common) {
            Ok(desk) => Furnished::Desk(desk),
            Err(error) if error.kind() == ErrorKind::OutOfMemory => Furnished::OutOfMemory,
            Err(error) => {
                self.dial.fail_to_furnish(&error);
                Furnished::Failed
            }
        }
    }

    fn keep_desk(&mut self, desk: RealDesk)
        ensures kept_desk { self.new.kept_desk ≡ Some desk }
        ensures same { told_by_dial self.new.dial ≡ told_by_dial self.old.dial }
        ensures kept { self.new.kept.items ≡ self.old.kept.items }
        ensures asked { self.new.port ≡ self.old.port }
    {
        self.kept_desk = Some(desk);
    }

    fn limit_peers(&mut self, workers: u32, peers: u32)
        ensures same { told_by_dial self.new.dial ≡ told_by_dial self.old.dial }
        ensures kept { self.new.kept.items ≡ self.old.kept.items }
        ensures asked { self.new.port ≡ self.old.port }
        ensures kept_desk { self.new.kept_desk ≡ self.old.kept_desk }
    {
        self.common.workers = workers;
        self.common.peers = peers;
    }

    fn stop_with_input(&mut self)
        ensures same { told_by_dial self.new.dial ≡ told_by_dial self.old.dial }
        ensures kept { self.new.kept.items ≡ self.old.kept.items }
        ensures asked { self.new.port ≡ self.old.port }
        ensures kept_desk { self.new.kept_desk ≡ self.old.kept_desk }
    {
        self.common.beats = None;
        self.common.by_input = true;
    }
}

impl Reasons for RealNet {
    fn reason(&self) -> &[u8] {
        self.dial.reason()
    }
}
