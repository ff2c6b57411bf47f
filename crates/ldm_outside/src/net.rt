//! Nets, which hand each worker an outside of its own.
ghost use Rattle.std.specs.Prelude.{◌≡◌, ℕ, List, Option, Some};
ghost use Rattle.ldm_outside.specs.declared.net.Station.{Station};

use crate::clock::Clock;
use crate::dial::Dial;
use crate::door::Door;
use crate::gate::Gate;
use crate::io::Sink;

/// The outside of one worker.
#[derive(Drop)]
pub struct Station<D, I, E, C, G> {
    /// Where its peers come in: a [`Door`].
    pub door: D,
    /// What it connects by: a [`Dial`].
    pub dial: I,
    /// Where its log lines go: a [`Sink`].
    pub log: E,
    /// Its clock: a [`Clock`].
    pub clock: C,
    /// What it asks before it goes on: a [`Gate`].
    pub gate: G,
}

/// What a net handed out.
#[derive(Drop)]
pub enum Manned<S> {
    /// As many stations as were asked for, all of them new.
    Stations(Vec<S>),
    /// Nothing: the net failed, and its count of faults rose.
    Failed,
    /// Nothing: memory is short.
    OutOfMemory,
}

/// What connects to hosts, and hands each worker a station.
pub trait Net: Dial {
    ghost use Rattle.ldm_outside.specs.Station.{station_tells};
    ghost use Rattle.ldm_outside.specs.Net.{StationsGive};

    /// The doors of its stations.
    type StationDoor: Door + Send;
    /// The dials of its stations.
    type StationDial: Dial + Send;
    /// The logs of its stations.
    type StationLog: Sink + Send;
    /// The clocks of its stations.
    type StationClock: Clock + Send;
    /// The gates of its stations.
    type StationGate: Gate + Send;

    /// The stations that it keeps, in order.
    ghost kept: { Self → List
        (Station Self.StationDoor Self.StationDial Self.StationLog Self.StationClock Self.StationGate) };

    /// The port that it was asked to let peers in at last; none before it was asked.
    ghost port_asked: { Self → Option ℕ };

    /// Hands out so many new stations, whose doors let in what comes to that port. The gate of a station stops after so
    /// many idle calls, or never where no number is given, if it tells this.
    fn stations(
        &mut self,
        port: u16,
        count: u32,
        idles: Option<u32>,
    ) -> Manned<
        Station<
            Self::StationDoor,
            Self::StationDial,
            Self::StationLog,
            Self::StationClock,
            Self::StationGate,
        >,
    >
        ensures given { StationsGive
            (station_tells Self.StationDoor.tells Self.StationDial.tells Self.StationLog.tells Self.StationClock.tells
            Self.StationGate.tells)
            result count idles (Self.tells self.old) (Self.tells self.new) }
        ensures kept { kept self.new ≡ kept self.old }
        ensures asked { port_asked self.new ≡ Some port };

    /// Keeps the stations as they are, in place of those that it kept. It needs no memory.
    fn keep(
        &mut self,
        stations: Vec<
            Station<
                Self::StationDoor,
                Self::StationDial,
                Self::StationLog,
                Self::StationClock,
                Self::StationGate,
            >,
        >,
    )
        ensures kept { kept self.new ≡ stations.items }
        ensures same { Self.tells self.new ≡ Self.tells self.old }
        ensures asked { port_asked self.new ≡ port_asked self.old };
}
