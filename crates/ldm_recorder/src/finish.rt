//! What is recorded of a queue that has ended.
ghost use Rattle.std.specs.Prelude.{◌≡◌, ◌+◌, ◌≤◌, ◌++◌, [], ◌∷◌, ℕ, List, Option, length, IfOk};
ghost use Rattle.ldm_model.specs.State.{State, end_of, queued};
ghost use Rattle.ldm_book.specs.Stands.{StandsFor};
ghost use Rattle.ldm_book.specs.Listing.{queued_of};
ghost use Rattle.ldm_shared.specs.Passes.{PassView};
ghost use Rattle.ldm_recorder.specs.Finishing.{FinishesBy, MakesUpTo, StandsAfter, TellsLost};
ghost use Rattle.ldm_recorder.specs.Finishing.{behind_all, behind_one, turn_left, turns_left, turns_queued};
ghost use Rattle.ldm_recorder.specs.Finishing.{without_number};
ghost use Rattle.ldm_recorder.specs.Numbers.{IsBehind, KnowsLasts};
ghost use Rattle.ldm_recorder.specs.Recording.{sight_of, who_of};
ghost use Rattle.ldm_recorder.specs.Taking.{IsSameRecorder};
ghost use Rattle.ldm_recorder.specs.Turns.{CaughtUp};

use crate::end::RecordEnd;
use crate::recorder::Recorder;
use crate::tell::tell;
use crate::write::write;
use ldm_book::{Book, Stored};
use ldm_disk::Disk;
use ldm_outside::Sink;
use ldm_session::write_gap;
use ldm_shared::products_stay;

impl Recorder {
    /// Records what is still queued when a queue has ended: each product of the number `from` or later, and then
    /// commits it with what is known of each line.
    ///
    /// `from` is what [`RecordEnd::Stopped`] tells, so nothing is written twice. No memory is taken. The log has the
    /// lines that [`Recorder::record`] writes: of products that were evicted meanwhile, of those that the ring has no
    /// room for, and of the journal where it failed.
    pub fn finish<D: Disk, E: Sink>(
        &mut self,
        book: &Book,
        from: u64,
        disk: &mut D,
        log: &mut E,
    ) -> Result<(), RecordEnd>
        requires after_calls { StandsAfter book.now }
        requires behind { IsBehind self.old from }
        ensures same { IsSameRecorder self.old self.new }
        ensures finished { (s : State) → StandsFor book.now s → (pass : PassView) → KnowsLasts pass.seen self.old
            → (lasts : Option (List ℕ)) × FinishesBy result (who_of pass self.old)
            (turns_left self.old.base (end_of s) from (queued s) ++ CaughtUp (end_of s) lasts ∷ [])
            (sight_of pass self.old (D.tells disk.old) (E.tells log.old))
            (sight_of pass self.new (D.tells disk.new) (E.tells log.new)) }
    {
        match self.catch_up(book, from, disk, log) {
            Ok(()) => Ok(()),
            Err(why) => {
                tell(log, why);
                Err(why)
            }
        }
    }

    // The same, but for the line where the journal failed.
    fn catch_up<D: Disk, E: Sink>(
        &mut self,
        book: &Book,
        from: u64,
        disk: &mut D,
        log: &mut E,
    ) -> Result<(), RecordEnd>
        requires after_calls { StandsAfter book.now }
        requires behind { IsBehind self.old from }
        ensures same { IsSameRecorder self.old self.new }
        ensures caught { (s : State) → StandsFor book.now s → (pass : PassView) → KnowsLasts pass.seen self.old
            → (lasts : Option (List ℕ)) × MakesUpTo result (who_of pass self.old)
            (turns_left self.old.base (end_of s) from (queued s) ++ CaughtUp (end_of s) lasts ∷ [])
            (sight_of pass self.old (D.tells disk.old) (E.tells log.old))
            (sight_of pass self.new (D.tells disk.new) (E.tells log.new)) }
    {
        let next = match self.write_left(book, from, disk, log) {
            Ok(next) => next,
            Err(why) => return Err(why),
        };
        let end = book.admitted();
        match tell_lost(log, next, end) {
            Ok(()) => {}
            Err(why) => return Err(why),
        }
        match self.save_known(end, disk) {
            Ok(()) => Ok(()),
            Err(why) => Err(why),
        }
    }

    // Writes what is queued of a number or later. It answers the number behind the last of them.
    fn write_left<D: Disk, E: Sink>(
        &mut self,
        book: &Book,
        from: u64,
        disk: &mut D,
        log: &mut E,
    ) -> Result<u64, RecordEnd>
        requires after_calls { StandsAfter book.now }
        requires behind { IsBehind self.old from }
        ensures same { IsSameRecorder self.old self.new }
        ensures lasts { self.new.lasts ≡ self.old.lasts }
        ensures next { (s : State) → StandsFor book.now s
            → IfOk result (λ next. next ≡ behind_all from (queued s)) }
        ensures wrote { (s : State) → StandsFor book.now s → (pass : PassView) → MakesUpTo (without_number result)
            (who_of pass self.old) (turns_queued self.old.base from (queued s))
            (sight_of pass self.old (D.tells disk.old) (E.tells log.old))
            (sight_of pass self.new (D.tells disk.new) (E.tells log.new)) }
    {
        products_stay();
        let mut next = from;
        for i in 0..book.slots() {
            let Some(product) = book.product_at(i) else {
                return Ok(next);
            };
            match self.write_queued(&product, next, disk, log) {
                Ok(behind) => next = behind,
                Err(why) => return Err(why),
            }
        }
        Ok(next)
    }

    // Writes a queued product, where its number is not below another, and tells of those between that were evicted. It
    // answers the number behind it.
    fn write_queued<D: Disk, E: Sink>(
        &mut self,
        product: &Stored<'_>,
        next: u64,
        disk: &mut D,
        log: &mut E,
    ) -> Result<u64, RecordEnd>
        requires whole { length product.now.body.now ≡ product.now.info.size }
        requires behind { IsBehind self.old next }
        ensures same { IsSameRecorder self.old self.new }
        ensures lasts { self.new.lasts ≡ self.old.lasts }
        ensures behind { IfOk result (IsBehind self.new) }
        ensures next { IfOk result (λ behind. behind ≡ behind_one next (queued_of product.now)) }
        ensures wrote { (pass : PassView) → MakesUpTo (without_number result)
            (who_of pass self.old) (turn_left self.old.base next (queued_of product.now))
            (sight_of pass self.old (D.tells disk.old) (E.tells log.old))
            (sight_of pass self.new (D.tells disk.new) (E.tells log.new)) }
    {
        let n = product.note.n;
        if n < next {
            return Ok(next);
        }
        match tell_lost(log, next, n) {
            Ok(()) => {}
            Err(why) => return Err(why),
        }
        let Some(number) = self.number_of(n) else {
            return Err(RecordEnd::NoNumbers);
        };
        let time = product.note.time;
        match write(
            &mut self.journal,
            disk,
            log,
            number,
            n,
            time,
            &product.info,
            product.body,
        ) {
            Ok(()) => Ok(n + 1),
            Err(why) => Err(why),
        }
    }
}

// Tells of the products from one number up to another, all of which were evicted.
fn tell_lost<E: Sink>(log: &mut E, from: u64, to: u64) -> Result<(), RecordEnd>
    ensures told { TellsLost result from to (E.tells log.old) (E.tells log.new) }
{
    if to <= from {
        return Ok(());
    }
    match write_gap(log, b"journal", to - from, from, to - 1) {
        Ok(()) => Ok(()),
        Err(_) => Err(RecordEnd::LogFault),
    }
}
