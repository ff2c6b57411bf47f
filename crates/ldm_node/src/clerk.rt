//! The worker behind those of the stations, which records what is inserted.
ghost use Rattle.ldm_disk.specs.Desks.{desk_tells};
ghost use Rattle.ldm_model.specs.State.{State};
ghost use Rattle.ldm_book.specs.Stands.{StandsFor};
ghost use Rattle.ldm_shared.specs.Passes.{IsPassOf, IsSamePass};
ghost use Rattle.ldm_recorder.specs.Course.{IfStopped};
ghost use Rattle.ldm_recorder.specs.Finishing.{StandsAfter};
ghost use Rattle.ldm_recorder.specs.Numbers.{IsBehind, IsReady};
ghost use Rattle.ldm_node.specs.Clerks.{Closes, Records, clerk_tells};

use ldm_book::Book;
use ldm_disk::{Desk, Disk};
use ldm_outside::{Clock, Gate, Sink};
use ldm_recorder::{RecordEnd, Recorder};
use ldm_shared::{Pass, Shared};
use std::sync::Wait;

/// What a worker has that records: a recorder, and the desk whose disk has the journal.
#[derive(Drop)]
pub struct Clerk<F, E, C, G> {
    pub recorder: Recorder,
    pub desk: Desk<F, E, C, G>,
}

/// What recording leaves.
#[derive(Drop)]
pub struct Recorded<F, E, C, G> {
    pub desk: Desk<F, E, C, G>,
    /// How it ended. It is [`RecordEnd::Stopped`] just where all that was queued at the end is committed.
    /// [`RecordEnd::OutOfMemory`] is besides the answer where no worker began.
    pub end: RecordEnd,
}

/// A clerk at its post, and how recording ended there: for want of memory, where nobody worked yet.
#[derive(Drop)]
pub(crate) struct Seat<F, E, C, G> {
    pub(crate) clerk: Clerk<F, E, C, G>,
    pub(crate) end: RecordEnd,
}

impl<F: Disk, E: Sink, C: Clock, G: Gate> Seat<F, E, C, G> {
    /// Records, until the gate says to stop.
    pub(crate) fn work<H: Wait>(&mut self, rt: &H, shared: &Shared, pass: &mut Pass)
        requires of { IsPassOf shared.now pass.old }
        requires ready { IsReady pass.old self.old.clerk.recorder }
        ensures kept { IsSamePass pass.old pass.new }
        ensures records { Records self.new.end
            pass.old (clerk_tells (desk_tells F.tells E.tells C.tells G.tells) self.old.clerk)
            pass.new (clerk_tells (desk_tells F.tells E.tells C.tells G.tells) self.new.clerk) }
        ensures behind { IfStopped self.new.end (IsBehind self.new.clerk.recorder) }
    {
        let Clerk { recorder, desk } = &mut self.clerk;
        let Desk {
            disk,
            log,
            clock,
            gate,
        } = desk;
        self.end = recorder.record(rt, shared, pass, disk, log, gate, clock);
    }

    /// Records what is left in a queue that has ended, where the gate had stopped the worker.
    pub(crate) fn close(self, book: &Book) -> Recorded<F, E, C, G>
        requires after_calls { StandsAfter book.now }
        requires behind { IfStopped self.end (IsBehind self.clerk.recorder) }
        ensures closes { (s : State) → StandsFor book.now s → Closes self.end s result.end
            (clerk_tells (desk_tells F.tells E.tells C.tells G.tells) self.clerk)
            (desk_tells F.tells E.tells C.tells G.tells result.desk) }
    {
        let Seat { clerk, end } = self;
        let Clerk {
            mut recorder,
            mut desk,
        } = clerk;
        match end {
            RecordEnd::Stopped { at } => {
                match recorder.finish(book, at, &mut desk.disk, &mut desk.log) {
                    Ok(()) => Recorded { desk, end },
                    Err(why) => Recorded { desk, end: why },
                }
            }
            _ => Recorded { desk, end },
        }
    }
}
