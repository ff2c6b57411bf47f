//! What is known of each REQUEST line while the queue is recorded, and what is committed of it.
ghost use Rattle.std.specs.Prelude.{◌≡◌, ◌⊎◌, ◌≤◌, [], ℕ, List, IfSome, OnOk, slice_get};
ghost use Rattle.ldm_disk.specs.Calls.{KeepsDisk};
ghost use Rattle.ldm_model.specs.declared.event.Entry.{Entry};
ghost use Rattle.ldm_outside.specs.Io.{SinkRecord};
ghost use Rattle.ldm_shared.specs.Passes.{Calls, IsPassOf, IsSamePass, PassView};
ghost use Rattle.ldm_recorder.specs.Catching.{CommitsAt, IsSameButLasts};
ghost use Rattle.ldm_recorder.specs.Lines.{AreLasts, IsPut};
ghost use Rattle.ldm_recorder.specs.Numbers.{KnowsLasts};
ghost use Rattle.ldm_recorder.specs.Recording.{sight_of, who_of};
ghost use Rattle.ldm_recorder.specs.Taking.{IsSameRecorder};

use crate::end::RecordEnd;
use crate::line::{Line, MOST_LINES};
use crate::note::note_of;
use crate::recorder::Recorder;
use crate::save::save;
use ldm_disk::Disk;
use ldm_shared::{Pass, Shared};
use ldm_types::Actor;

// What each line began with.
pub(crate) fn lasts_of(lines: &[Line]) -> [u64; MOST_LINES]
    ensures { (base : ℕ) (seen : List Entry) → AreLasts base 0 seen lines.now result }
{
    let mut lasts = [0; MOST_LINES];
    for i in 0..MOST_LINES {
        let Some(line) = lines.get(i) else {
            return lasts;
        };
        lasts[i] = line.last;
    }
    lasts
}

// A number that is known of a line, where it is not above another, and else what the line began with.
fn last_within(last: u64, end: u64, began: u64) -> u64
    ensures { ((result ≡ last) × (last ≤ end)) ⊎ (result ≡ began) }
{
    if last <= end { last } else { began }
}

impl Recorder {
    // Commits what was given, where the queue had no more and had admitted so many. Where something was, each line is
    // asked for the product that it put in last.
    pub(crate) fn save_caught<D: Disk>(
        &mut self,
        shared: &Shared,
        pass: &mut Pass,
        at: u64,
        disk: &mut D,
    ) -> Result<(), RecordEnd>
        requires { IsPassOf shared.now pass.old }
        ensures kept { IsSamePass pass.old pass.new }
        ensures calls { Calls pass.old pass.new [] }
        ensures same { IsSameRecorder self.old self.new }
        ensures knows { KnowsLasts pass.old.seen self.old → KnowsLasts pass.new.seen self.new }
        ensures idle { self.old.journal.marks.appended ≡ 0 → D.tells disk.new ≡ D.tells disk.old }
        ensures next { OnOk result (self.new.journal.marks.next ≡ self.old.journal.marks.next) }
        ensures saved { (log : SinkRecord) → KnowsLasts pass.old.seen self.old
            → CommitsAt result (who_of pass.old self.old) at
            (sight_of pass.old self.old (D.tells disk.old) log) (sight_of pass.new self.new (D.tells disk.new) log) }
        ensures disk { KeepsDisk (D.tells disk.old) (D.tells disk.new) }
    {
        if self.journal.appended() == 0 {
            return Ok(());
        }
        self.learn(shared, pass, at);
        self.save_known(at, disk)
    }

    // Learns which products the lines put in last, of the first so many of the queue.
    fn learn(&mut self, shared: &Shared, pass: &mut Pass, at: u64)
        requires { IsPassOf shared.now pass.old }
        ensures kept { IsSamePass pass.old pass.new }
        ensures calls { Calls pass.old pass.new [] }
        ensures same { IsSameButLasts self.old self.new }
        ensures knows { KnowsLasts pass.old.seen self.old → KnowsLasts pass.new.seen self.new }
    {
        for i in 0..MOST_LINES {
            let Some(line) = self.line_at(i) else {
                return;
            };
            if let Some(last) = self.last_of(shared, pass, line.actor, at) {
                self.lasts[i] = last;
            }
        }
    }

    // The line at a place, if there is one.
    fn line_at(&self, i: usize) -> Option<Line>
        ensures { result ≡ slice_get self.now.lines.items i }
    {
        match self.lines.get(i) {
            Some(line) => Some(*line),
            None => None,
        }
    }

    // One more than the number in the journal of the product that an actor put in last, or found queued, where it is
    // one of the queue's first so many, and was not put back.
    fn last_of(&self, shared: &Shared, pass: &mut Pass, actor: Actor, at: u64) -> Option<u64>
        requires { IsPassOf shared.now pass.old }
        ensures kept { IsSamePass pass.old pass.new }
        ensures calls { Calls pass.old pass.new [] }
        ensures put { IfSome result (IsPut self.now.base at pass.new.seen actor) }
    {
        let Some(n) = shared.last_put(pass, actor) else {
            return None;
        };
        if n < self.from || n >= at {
            return None;
        }
        match self.number_of(n) {
            Some(number) => Some(number + 1),
            None => None,
        }
    }

    // Commits what was given, where something was, with what is known of each line, of the queue's first so many
    // products.
    pub(crate) fn save_known<D: Disk>(&mut self, at: u64, disk: &mut D) -> Result<(), RecordEnd>
        ensures same { IsSameRecorder self.old self.new }
        ensures knows { (seen : List Entry) → KnowsLasts seen self.old → KnowsLasts seen self.new }
        ensures next { OnOk result (self.new.journal.marks.next ≡ self.old.journal.marks.next) }
        ensures saved { (pass : PassView) (log : SinkRecord) → KnowsLasts pass.seen self.old
            → CommitsAt result (who_of pass self.old) at
            (sight_of pass self.old (D.tells disk.old) log) (sight_of pass self.new (D.tells disk.new) log) }
        ensures disk { KeepsDisk (D.tells disk.old) (D.tells disk.new) }
    {
        if self.journal.appended() == 0 {
            return Ok(());
        }
        let lasts = self.lasts_below(at);
        let note = note_of(&self.lines, &lasts);
        save(&mut self.journal, disk, 0, &note)
    }

    // What is known of each line, where that is one of the queue's first so many products, and else what it began with.
    fn lasts_below(&self, at: u64) -> [u64; MOST_LINES]
        ensures { (seen : List Entry) → KnowsLasts seen self.now
            → AreLasts self.now.base at seen self.now.lines.items result }
    {
        let end = self.base.saturating_add(at);
        let mut lasts = [0; MOST_LINES];
        for i in 0..MOST_LINES {
            let Some(line) = self.line_at(i) else {
                return lasts;
            };
            lasts[i] = last_within(self.lasts[i], end, line.last);
        }
        lasts
    }
}
