//! One step of the reader, and what follows it.
ghost use Rattle.std.specs.Prelude.{◌≡◌, OnOk};
ghost use Rattle.ldm_shared.specs.Passes.{IsPassOf, IsSamePass};
ghost use Rattle.ldm_recorder.specs.Numbers.{IsBehind, IsReady};
ghost use Rattle.ldm_recorder.specs.Recording.{IfAtEnd, TurnsBy, sight_of, who_of};
ghost use Rattle.ldm_recorder.specs.Taking.{IsSameRecorder};

use crate::end::RecordEnd;
use crate::recorder::Recorder;
use ldm_disk::Disk;
use ldm_outside::Sink;
use ldm_session::write_gap;
use ldm_shared::{Came, Pass, Shared, Turn, own_readers};
use std::sync::Wait;

impl Recorder {
    /// One step of the cursor: what comes is written into the journal, and where nothing is left, that is committed
    /// with what is known of each line. It answers then how many products the queue had admitted. The disk is called
    /// only where something has to be written.
    ///
    /// What was evicted before it was given is the log line `gap journal COUNT FIRST LAST`, and a product whose record
    /// is larger than the ring the line `gap ring 1 N N`.
    pub fn turn<H: Wait, D: Disk, E: Sink>(
        &mut self,
        rt: &H,
        shared: &Shared,
        pass: &mut Pass,
        disk: &mut D,
        log: &mut E,
    ) -> Result<Option<u64>, RecordEnd>
        requires of { IsPassOf shared.now pass.old }
        requires ready { IsReady pass.old self.old }
        ensures kept { IsSamePass pass.old pass.new }
        ensures same { IsSameRecorder self.old self.new }
        ensures ready { OnOk result (IsReady pass.new self.new) }
        ensures behind { IfAtEnd result (IsBehind self.new) }
        ensures idle { IfAtEnd result (λ _. self.old.journal.marks.appended ≡ 0 → D.tells disk.new ≡ D.tells disk.old) }
        ensures turned { TurnsBy result (who_of pass.old self.old)
            (sight_of pass.old self.old (D.tells disk.old) (E.tells log.old))
            (sight_of pass.new self.new (D.tells disk.new) (E.tells log.new)) }
    {
        own_readers();
        match self.reader.step(shared, rt, pass) {
            Turn::Done(Came::Gap { count, first, last }) => {
                match write_gap(log, b"journal", count, first, last) {
                    Ok(()) => Ok(None),
                    Err(_) => Err(RecordEnd::LogFault),
                }
            }
            Turn::Done(Came::Product(held)) => match self.number_of(held.n) {
                Some(number) => match self.take(rt, shared, pass, number, held, disk, log) {
                    Ok(()) => Ok(None),
                    Err(why) => Err(why),
                },
                None => Err(RecordEnd::NoNumbers),
            },
            Turn::Done(Came::End { at }) => match self.save_caught(shared, pass, at, disk) {
                Ok(()) => Ok(Some(at)),
                Err(why) => Err(why),
            },
            Turn::Worn { .. } => Err(RecordEnd::Worn),
        }
    }
}
