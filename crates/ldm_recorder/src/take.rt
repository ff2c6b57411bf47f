//! A product that is held: it is read, let go, and written into the journal.
ghost use Rattle.std.specs.Prelude.{◌≡◌, ◌+◌, ◌<◌, ◌≤◌, ◌^◌, ◌-◌, ℕ, List, [], ◌∷◌, None, OnOk};
ghost use Rattle.ldm_shared.specs.Passes.{IsPassOf, IsSamePass, PassView};
ghost use Rattle.ldm_shared.specs.Reader.{HasCursor, Holds};
ghost use Rattle.ldm_recorder.specs.Recording.{sight_of, who_of};
ghost use Rattle.ldm_recorder.specs.Taking.{IsSameButBuffer, IsSameRecorder, Numbers, ReadsBody, WorksBy};
ghost use Rattle.ldm_recorder.specs.Taking.{kept_as, taking};
ghost use Rattle.ldm_recorder.specs.Turns.{Given};

use crate::end::RecordEnd;
use crate::recorder::Recorder;
use crate::write::write;
use ldm_disk::Disk;
use ldm_outside::Sink;
use ldm_shared::{Held, Pass, Shared, Turn};
use std::sync::Wait;

impl Recorder {
    // The number that a product of the queue has in the journal, if the journal has it.
    pub(crate) fn number_of(&self, n: u64) -> Option<u64>
        ensures { Numbers result self.now.base n }
    {
        match self.base.checked_add(n) {
            Some(number) if number < u64::MAX => Some(number),
            _ => None,
        }
    }

    // Reads the body of the product that is held.
    fn read_body<H: Wait>(
        &mut self,
        rt: &H,
        shared: &Shared,
        pass: &mut Pass,
        held: &Held,
    ) -> Result<(), RecordEnd>
        requires of { IsPassOf shared.now pass.old }
        requires holds { (body : List ℕ) × Holds pass.old self.old.reader.k held.now body }
        ensures kept { IsSamePass pass.old pass.new }
        ensures same { IsSameButBuffer self.old self.new }
        ensures read { (body : List ℕ) → Holds pass.old self.old.reader.k held.now body
            → ReadsBody result held.now body
            (record { k = self.old.reader.k; buffer = self.new.buffer.items; old = pass.old; new = pass.new }) }
    {
        let size = held.info.size();
        self.buffer.clear();
        if self.buffer.reserve(size as usize).is_err() {
            return Err(RecordEnd::OutOfMemory);
        }
        match self
            .reader
            .read_onto(shared, rt, pass, held, 0, size, &mut self.buffer)
        {
            Turn::Done(()) => Ok(()),
            Turn::Worn { .. } => Err(RecordEnd::Worn),
        }
    }

    // Reads a product, lets it go, and writes it under that number: no product is held while the disk is called.
    pub(crate) fn take<H: Wait, D: Disk, E: Sink>(
        &mut self,
        rt: &H,
        shared: &Shared,
        pass: &mut Pass,
        number: u64,
        held: Held,
        disk: &mut D,
        log: &mut E,
    ) -> Result<(), RecordEnd>
        requires of { IsPassOf shared.now pass.old }
        requires holds { (body : List ℕ) × Holds pass.old self.old.reader.k held body }
        requires rises { self.old.journal.marks.next ≤ number }
        requires numbered { number < 2 ^ 64 - 1 }
        ensures kept { IsSamePass pass.old pass.new }
        ensures same { IsSameRecorder self.old self.new }
        ensures lasts { self.new.lasts ≡ self.old.lasts }
        ensures cursor { OnOk result (HasCursor pass.new self.old.reader.k None) }
        ensures next { OnOk result (self.new.journal.marks.next ≤ number + 1) }
        ensures taken { (body : List ℕ) → Holds pass.old self.old.reader.k held body → WorksBy result
            (taking (who_of pass.old self.old) held.n (kept_as number held body))
            (Given held.n (kept_as number held body) ∷ [])
            (sight_of pass.old self.old (D.tells disk.old) (E.tells log.old))
            (sight_of pass.new self.new (D.tells disk.new) (E.tells log.new)) }
    {
        match self.read_body(rt, shared, pass, &held) {
            Ok(()) => {}
            Err(why) => return Err(why),
        }
        let n = held.n;
        let time = held.time;
        let info = held.info.copy();
        match self.reader.release(shared, rt, pass, held) {
            Turn::Done(()) => {}
            Turn::Worn { .. } => return Err(RecordEnd::Worn),
        }
        match write(
            &mut self.journal,
            disk,
            log,
            number,
            n,
            time,
            &info,
            &self.buffer,
        ) {
            Ok(()) => Ok(()),
            Err(why) => Err(why),
        }
    }
}
