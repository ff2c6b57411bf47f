//! The worker that records a queue.
ghost use Rattle.std.specs.Prelude.{◌≡◌, OnOk};
ghost use Rattle.ldm_shared.specs.Passes.{IsPassOf, IsSamePass, PassView};
ghost use Rattle.ldm_outside.specs.Io.{SinkRecord};
ghost use Rattle.ldm_recorder.specs.Numbers.{IsBehind, IsReady, KnowsLasts};
ghost use Rattle.ldm_recorder.specs.Course.{IfStopped, RecordsBy, SavesLate, gated_of};
ghost use Rattle.ldm_recorder.specs.Recording.{sight_of, who_of};
ghost use Rattle.ldm_recorder.specs.Taking.{IsSameRecorder};

use crate::end::RecordEnd;
use crate::recorder::Recorder;
use crate::save::save_some;
use crate::tell::tell;
use ldm_disk::Disk;
use ldm_outside::{Clock, Gate, Go, Sink};
use ldm_shared::{Pass, Shared};
use ldm_types::Micros;
use std::sync::Wait;

// After so many microseconds what was given is committed, also where the reader has not caught up.
const LATEST: u64 = 1_000_000;

impl Recorder {
    /// Records what comes, until the gate says to stop.
    ///
    /// What was given is committed where nothing more is left, before the gate is asked; and after a second by the
    /// clock, where more and more comes. The log has the lines of [`Recorder::turn`], and behind them `journal fault`
    /// where the disk failed, or `journal changed` where another wrote into the file.
    pub fn record<H: Wait, D: Disk, E: Sink, G: Gate, C: Clock>(
        &mut self,
        rt: &H,
        shared: &Shared,
        pass: &mut Pass,
        disk: &mut D,
        log: &mut E,
        gate: &mut G,
        clock: &mut C,
    ) -> RecordEnd
        requires of { IsPassOf shared.now pass.old }
        requires ready { IsReady pass.old self.old }
        ensures kept { IsSamePass pass.old pass.new }
        ensures same { IsSameRecorder self.old self.new }
        ensures behind { IfStopped result (IsBehind self.new) }
        ensures knows { IfStopped result (λ at. KnowsLasts pass.new.seen self.new) }
        ensures recorded { RecordsBy result (who_of pass.old self.old)
            (gated_of (sight_of pass.old self.old (D.tells disk.old) (E.tells log.old)) (G.tells gate.old))
            (gated_of (sight_of pass.new self.new (D.tells disk.new) (E.tells log.new)) (G.tells gate.new)) }
    {
        let mut saved = clock.now();
        for _ in rt.forever() {
            match self.turn(rt, shared, pass, disk, log) {
                Ok(Some(at)) => match gate.idle() {
                    Go::On => saved = clock.now(),
                    Go::Stop => return RecordEnd::Stopped { at },
                },
                Ok(None) => match self.save_late(disk, &mut saved, clock) {
                    Ok(()) => {}
                    Err(why) => {
                        tell(log, why);
                        return why;
                    }
                },
                Err(why) => {
                    tell(log, why);
                    return why;
                }
            }
        }
        unreachable!()
    }

    // Commits what was given where the last commit was long ago.
    fn save_late<D: Disk, C: Clock>(
        &mut self,
        disk: &mut D,
        saved: &mut Micros,
        clock: &mut C,
    ) -> Result<(), RecordEnd>
        ensures same { IsSameRecorder self.old self.new }
        ensures ready { (pass : PassView) → IsReady pass self.old → OnOk result (IsReady pass self.new) }
        ensures saved { (pass : PassView) (log : SinkRecord) → SavesLate result (who_of pass self.old)
            (sight_of pass self.old (D.tells disk.old) log)
            (sight_of pass self.new (D.tells disk.new) log) }
    {
        let now = clock.now();
        if now.get() < saved.get().saturating_add(LATEST) {
            return Ok(());
        }
        *saved = now;
        save_some(&mut self.journal, disk)
    }
}
