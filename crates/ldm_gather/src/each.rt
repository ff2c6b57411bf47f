//! Each product that a cursor gives, handed to a taker.
ghost use Rattle.std.specs.Prelude.{◌<◌, ◌≤◌, None};
ghost use Rattle.std.specs.Option.{ForSome};
ghost use Rattle.ldm_shared.specs.Passes.{IsPassOf, IsSamePass};
ghost use Rattle.ldm_shared.specs.Reader.{HasCursor};
ghost use Rattle.ldm_gather.specs.EachHandling.{IsGoing, IsSameEach, tap_in};
ghost use Rattle.ldm_gather.specs.Stepping.{CountsOne, IfStepsOn, IsEnd, Steps, sight_of};
ghost use Rattle.ldm_gather.specs.Taking.{hands_of};

use crate::end::Handled;
use crate::handler::Handler;
use crate::order::Asking;
use crate::taker::{EachStop, Taken, Taker};
use ldm_outside::Sink;
use ldm_session::write_gap;
use ldm_shared::{Came, Pass, Reader, Shared, Turn, count_off, products_stay};
use std::sync::Wait;

// What a step of the cursor came to, and what followed it.
#[derive(Clone, Copy, Debug, PartialEq, Eq)]
pub(crate) enum Stepped {
    // It goes on.
    On,
    // The cursor is at the end of the queue.
    AtEnd,
    // The last product of the count was taken.
    Enough,
    // It stopped.
    Stopped(EachStop),
}

// Hands each product of a cursor to a taker, and writes a line to the log for each loss.
#[derive(Drop)]
pub(crate) struct Each<'a, T> {
    pub(crate) reader: Reader,
    // How many products are left to be given, where there is a count.
    pub(crate) left: Option<u64>,
    pub(crate) taker: T,
    pub(crate) why: Option<EachStop>,
    pub(crate) asking: Asking<'a>,
}

// Counts a product off that was taken.
fn count_one(left: &mut Option<u64>) -> Stepped
    requires { ForSome left.old (λ n. 0 < n) }
    ensures { CountsOne result left.old left.new }
{
    count_off(left);
    match left {
        Some(0) => Stepped::Enough,
        Some(_) | None => Stepped::On,
    }
}

// One step of the cursor, and what follows it.
fn step<H: Wait, E: Sink, A, T: Taker<A>>(
    rt: &H,
    shared: &Shared,
    pass: &mut Pass,
    log: &mut E,
    each: &mut Each<'_, T>,
    lent: &mut A,
) -> Stepped
    requires of { IsPassOf shared.now pass.old }
    requires cursor { HasCursor pass.old each.old.reader.k None }
    requires going { IsGoing each.old }
    requires may { T.begins each.old.taker lent.old }
    ensures kept { IsSamePass pass.old pass.new }
    ensures log_kept { (E.tells log.old).faults ≤ (E.tells log.new).faults }
    ensures others { IsSameEach each.old each.new }
    ensures may_again { IfStepsOn result (T.begins each.new.taker lent.new) }
    ensures steps { Steps T.takes (tap_in each.old) result
        (sight_of each.old.left (hands_of each.old.taker lent.old) pass.old (E.tells log.old))
        (sight_of each.new.left (hands_of each.new.taker lent.new) pass.new (E.tells log.new)) }
{
    products_stay();
    let reader = each.reader;
    match reader.step(shared, rt, pass) {
        Turn::Done(Came::Gap { count, first, last }) => {
            match write_gap(log, each.asking.name, count, first, last) {
                Ok(()) => Stepped::On,
                Err(_) => Stepped::Stopped(EachStop::LogFault),
            }
        }
        Turn::Done(Came::Product(held)) => {
            match each.taker.take(rt, shared, pass, &reader, &held, lent) {
                Taken::On => match reader.release(shared, rt, pass, held) {
                    Turn::Done(()) => count_one(&mut each.left),
                    Turn::Worn { .. } => Stepped::Stopped(EachStop::Worn),
                },
                Taken::Stopped => Stepped::Stopped(EachStop::ByTaker),
                Taken::Worn => Stepped::Stopped(EachStop::Worn),
            }
        }
        Turn::Done(Came::End { .. }) => Stepped::AtEnd,
        Turn::Worn { .. } => Stepped::Stopped(EachStop::Worn),
    }
}

// Steps the cursor up to the end of the queue, or until it has enough or is stopped.
fn step_all<H: Wait, E: Sink, A, T: Taker<A>>(
    rt: &H,
    shared: &Shared,
    pass: &mut Pass,
    log: &mut E,
    each: &mut Each<'_, T>,
    lent: &mut A,
) -> Stepped
    requires of { IsPassOf shared.now pass.old }
    requires cursor { HasCursor pass.old each.old.reader.k None }
    requires going { IsGoing each.old }
    requires may { T.begins each.old.taker lent.old }
    ensures kept { IsSamePass pass.old pass.new }
    ensures log_kept { (E.tells log.old).faults ≤ (E.tells log.new).faults }
    ensures others { IsSameEach each.old each.new }
    ensures may_again { IfStepsOn result (T.begins each.new.taker lent.new) }
    ensures ends { IsEnd result }
    ensures steps { Steps T.takes (tap_in each.old) result
        (sight_of each.old.left (hands_of each.old.taker lent.old) pass.old (E.tells log.old))
        (sight_of each.new.left (hands_of each.new.taker lent.new) pass.new (E.tells log.new)) }
{
    products_stay();
    for _ in rt.forever() {
        match step(rt, shared, pass, log, each, lent) {
            Stepped::On => {}
            end => return end,
        }
    }
    unreachable!()
}

impl<'a, A, T: Taker<A>> Handler<A, ()> for Each<'a, T> {
    ghost use Rattle.ldm_gather.specs.EachHandling.{EachHandles, IsGoing};

    ghost cursor = { λ each. each.reader.k };

    ghost begins = { λ each lent _. IsGoing each × T.begins each.taker lent };

    ghost handles = { EachHandles T.takes };

    fn handle<H: Wait, E: Sink>(
        &mut self,
        rt: &H,
        shared: &Shared,
        pass: &mut Pass,
        first: &mut A,
        _second: &mut (),
        log: &mut E,
    ) -> Handled {
        match step_all(rt, shared, pass, log, self, first) {
            Stepped::On => unreachable!(),
            Stepped::AtEnd => Handled::On,
            Stepped::Enough => Handled::Enough,
            Stepped::Stopped(why) => {
                self.why = Some(why);
                Handled::Stopped
            }
        }
    }
}
