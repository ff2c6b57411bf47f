//! Desks: what a worker has that keeps a file, and the nets that hand them out.
ghost use Rattle.std.specs.Prelude.{◌≡◌, Option, Some};
ghost use Rattle.ldm_disk.specs.declared.desk.Desk.{Desk};

use crate::disk::Disk;
use ldm_outside::Net;

/// What a worker has that keeps a file.
#[derive(Drop)]
pub struct Desk<F, E, C, G> {
    /// Where its file is: a [`Disk`].
    pub disk: F,
    /// Where its log lines go: a [`Sink`](ldm_outside::Sink).
    pub log: E,
    /// Its clock: a [`Clock`](ldm_outside::Clock).
    pub clock: C,
    /// What it asks before it goes on: a [`Gate`](ldm_outside::Gate).
    pub gate: G,
}

/// What a net handed out.
#[derive(Drop)]
pub enum Furnished<D> {
    /// A desk, which is new.
    Desk(D),
    /// Nothing: the net failed, and its count of faults rose.
    Failed,
    /// Nothing: memory is short.
    OutOfMemory,
}

/// A net that hands out desks too, and whose gates may stop with the input of the program.
pub trait Desks: Net {
    ghost use Rattle.ldm_disk.specs.Desks.{desk_tells, DeskGives};

    /// The disks of its desks.
    type DeskDisk: Disk + Send;

    /// The desk that it keeps, if there is one.
    ghost kept_desk: { Self → Option
        (Desk Self.DeskDisk Self.StationLog Self.StationClock Self.StationGate) };

    /// Hands out a new desk, to whose disk no file is attached yet. Its gate stops after so many idle calls, or never
    /// where no number is given, if it tells this.
    fn desk(
        &mut self,
        idles: Option<u32>,
    ) -> Furnished<Desk<Self::DeskDisk, Self::StationLog, Self::StationClock, Self::StationGate>>
        ensures given { DeskGives
            (desk_tells Self.DeskDisk.tells Self.StationLog.tells Self.StationClock.tells Self.StationGate.tells)
            result idles (Self.tells self.old) (Self.tells self.new) }
        ensures kept { Self.kept self.new ≡ Self.kept self.old }
        ensures asked { Self.port_asked self.new ≡ Self.port_asked self.old }
        ensures kept_desk { kept_desk self.new ≡ kept_desk self.old };

    /// Keeps the desk as it is, in place of one that it kept. It needs no memory.
    fn keep_desk(
        &mut self,
        desk: Desk<Self::DeskDisk, Self::StationLog, Self::StationClock, Self::StationGate>,
    )
        ensures kept_desk { kept_desk self.new ≡ Some desk }
        ensures same { Self.tells self.new ≡ Self.tells self.old }
        ensures kept { Self.kept self.new ≡ Self.kept self.old }
        ensures asked { Self.port_asked self.new ≡ Self.port_asked self.old };

    /// From now on the first of the stations that it hands out in one call are for so many workers that let in so many
    /// peers each, and stop then; the others let in nobody. A gate of a desk may stop once the workers of all have.
    fn limit_peers(&mut self, workers: u32, peers: u32)
        ensures same { Self.tells self.new ≡ Self.tells self.old }
        ensures kept { Self.kept self.new ≡ Self.kept self.old }
        ensures asked { Self.port_asked self.new ≡ Self.port_asked self.old }
        ensures kept_desk { kept_desk self.new ≡ kept_desk self.old };

    /// From now on a gate of what it hands out may also stop at the end of the program's standard input.
    fn stop_with_input(&mut self)
        ensures same { Self.tells self.new ≡ Self.tells self.old }
        ensures kept { Self.kept self.new ≡ Self.kept self.old }
        ensures asked { Self.port_asked self.new ≡ Self.port_asked self.old }
        ensures kept_desk { kept_desk self.new ≡ kept_desk self.old };
}
