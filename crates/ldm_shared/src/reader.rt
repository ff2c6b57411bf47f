//! A cursor of a pass, whose calls are answered as the law of readers says.
ghost use Rattle.std.specs.Prelude.{◌≡◌, ◌≤◌, ◌+◌, ◌++◌, ℕ, List, length, take, drop, Option, Some, None};
ghost use Rattle.std.specs.Vec.{vec_len, vec_capacity};
ghost use Rattle.ldm_model.specs.Answers.{open_answer, step_answer};
ghost use Rattle.ldm_model.specs.declared.event.Event.TheVariants as event;
ghost use Rattle.ldm_model.specs.declared.event.Reply.TheVariants as reply;
ghost use Rattle.ldm_shared.specs.Passes.{IsPassOf, IsSamePass, Grows, FindsWorn};
ghost use Rattle.ldm_shared.specs.Turns.{IfDone, IfWorn};
ghost use Rattle.ldm_shared.specs.Reader.{HasCursor, Holds, HasOpened, HasStepped, GivesSome};
ghost use Rattle.ldm_shared.specs.Reader.{IfNotQueued, NamesProduct, opening_reply, came_reply};

use crate::{Pass, Shared, Turn};
use ldm_model::{CloseReply, OpenReply, ReadReply, ReleaseReply, Start, StepReply};
use ldm_types::{CursorNo, Feed, Info, Micros};
use std::sync::Wait;

/// A cursor of a pass. Each of its calls is made with that pass.
#[derive(Clone, Copy, Debug, PartialEq, Eq)]
pub struct Reader {
    /// The place of the cursor.
    pub k: CursorNo,
}

/// A product that a reader was given and holds.
#[derive(Debug, Drop)]
pub struct Held {
    /// Its number.
    pub n: u64,
    /// When it was inserted.
    pub time: Micros,
    pub info: Info,
}

/// What opening a cursor led to.
#[derive(Clone, Copy, Debug, PartialEq, Eq)]
pub enum Opening {
    Opened(Reader),
    /// All 64 cursor places are taken.
    AllBusy,
    /// No queued product has the signature that the cursor was to begin behind.
    NotQueued,
}

/// What a step of a reader that holds nothing led to.
#[derive(Debug, Drop)]
pub enum Came {
    /// `count` products were evicted before it was given them, and it was not told until now: the least of their
    /// numbers and the greatest.
    Gap { count: u64, first: u64, last: u64 },
    /// It was given this product, and holds it.
    Product(Held),
    /// There is none. `at` products were admitted.
    End { at: u64 },
}

impl Reader {
    /// Opens a cursor of the pass for these feedtypes.
    pub fn open<H: Wait>(
        shared: &Shared,
        rt: &H,
        pass: &mut Pass,
        feed: Feed,
        start: Start,
    ) -> Turn<Opening>
        requires { IsPassOf shared.now pass.old }
        ensures kept { IsSamePass pass.old pass.new }
        ensures done { IfDone result
            (λ opening. Grows pass.old pass.new (event.OpenCursor feed start) (opening_reply opening)) }
        ensures cursor { IfDone result (HasOpened pass.new) }
        ensures named { IfDone result (λ opening. IfNotQueued opening (NamesProduct start)) }
        ensures worn { IfWorn result (FindsWorn pass.old pass.new) }
    {
        match shared.open_cursor(rt, pass, feed, start) {
            Turn::Done(reply) => Turn::Done(opening_of(reply)),
            Turn::Worn { turns } => Turn::Worn { turns },
        }
    }

    /// Goes on to what comes next.
    pub fn step<H: Wait>(&self, shared: &Shared, rt: &H, pass: &mut Pass) -> Turn<Came>
        requires of { IsPassOf shared.now pass.old }
        requires cursor { HasCursor pass.old self.now.k None }
        ensures kept { IsSamePass pass.old pass.new }
        ensures done { IfDone result (λ came. Grows pass.old pass.new (event.Step self.now.k) (came_reply came)) }
        ensures cursor { IfDone result (HasStepped pass.new self.now.k) }
        ensures worn { IfWorn result (FindsWorn pass.old pass.new) }
    {
        match shared.step(rt, pass, self.k) {
            Turn::Done(reply) => Turn::Done(came_of(reply)),
            Turn::Worn { turns } => Turn::Worn { turns },
        }
    }

    /// Fills the buffer with bytes of the body of the product that it holds, from that offset on. The body has so many.
    pub fn read<H: Wait>(
        &self,
        shared: &Shared,
        rt: &H,
        pass: &mut Pass,
        held: &Held,
        offset: u32,
        into: &mut [u8],
    ) -> Turn<()>
        requires of { IsPassOf shared.now pass.old }
        requires holds { (body : List ℕ) × Holds pass.old self.now.k held.now body }
        requires within { offset + length into.old ≤ held.now.info.size }
        ensures kept { IsSamePass pass.old pass.new }
        ensures done { IfDone result
            (λ _. Grows pass.old pass.new (event.Read self.now.k offset (length into.new)) (reply.Bytes into.new)) }
        ensures bytes { (body : List ℕ) → Holds pass.old self.now.k held.now body
            → IfDone result (λ _. into.new ≡ take (length into.old) (drop offset body)) }
        ensures holds { (body : List ℕ) → Holds pass.old self.now.k held.now body
            → IfDone result (λ _. Holds pass.new self.now.k held.now body) }
        ensures worn { IfWorn result (FindsWorn pass.old pass.new) }
    {
        // The size is read since its bound is known then.
        let _size = held.info.size();
        match shared.read(rt, pass, self.k, offset, into) {
            Turn::Done(ReadReply::Bytes { .. }) => Turn::Done(()),
            Turn::Done(ReadReply::NoCursor) => unreachable!(),
            Turn::Done(ReadReply::NotHeld) => unreachable!(),
            Turn::Done(ReadReply::BadOffset { .. }) => unreachable!(),
            Turn::Worn { turns } => Turn::Worn { turns },
        }
    }

    /// Appends bytes of the body of the product that it holds, from that offset on, to a buffer that has room for so
    /// many. The body has so many.
    pub fn read_onto<H: Wait>(
        &self,
        shared: &Shared,
        rt: &H,
        pass: &mut Pass,
        held: &Held,
        offset: u32,
        len: u32,
        out: &mut Vec<u8>,
    ) -> Turn<()>
        requires of { IsPassOf shared.now pass.old }
        requires holds { (body : List ℕ) × Holds pass.old self.now.k held.now body }
        requires within { offset + len ≤ held.now.info.size }
        requires room { vec_len out.old + len ≤ vec_capacity out.old }
        ensures kept { IsSamePass pass.old pass.new }
        ensures done { (body : List ℕ) → Holds pass.old self.now.k held.now body
            → IfDone result (λ _. Grows pass.old pass.new (event.Read self.now.k offset len)
            (reply.Bytes (take len (drop offset body)))) }
        ensures bytes { (body : List ℕ) → Holds pass.old self.now.k held.now body
            → IfDone result (λ _. out.new.items ≡ out.old.items ++ take len (drop offset body)) }
        ensures holds { (body : List ℕ) → Holds pass.old self.now.k held.now body
            → IfDone result (λ _. Holds pass.new self.now.k held.now body) }
        ensures capacity { vec_capacity out.old ≤ vec_capacity out.new }
        ensures worn { IfWorn result (FindsWorn pass.old pass.new) }
        ensures unread { IfWorn result (λ _. out.new ≡ out.old) }
    {
        // The size is read since its bound is known then.
        let _size = held.info.size();
        match shared.read_onto(rt, pass, self.k, offset, len, out) {
            Turn::Done(ReadReply::Bytes { .. }) => Turn::Done(()),
            Turn::Done(ReadReply::NoCursor) => unreachable!(),
            Turn::Done(ReadReply::NotHeld) => unreachable!(),
            Turn::Done(ReadReply::BadOffset { .. }) => unreachable!(),
            Turn::Worn { turns } => Turn::Worn { turns },
        }
    }

    /// Lets the product go that it holds.
    pub fn release<H: Wait>(&self, shared: &Shared, rt: &H, pass: &mut Pass, held: Held) -> Turn<()>
        requires of { IsPassOf shared.now pass.old }
        requires holds { HasCursor pass.old self.now.k (Some held.n) }
        ensures kept { IsSamePass pass.old pass.new }
        ensures done { IfDone result (λ _. Grows pass.old pass.new (event.Release self.now.k) (reply.Released held.n)) }
        ensures cursor { IfDone result (λ _. HasCursor pass.new self.now.k None) }
        ensures worn { IfWorn result (FindsWorn pass.old pass.new) }
    {
        match shared.release(rt, pass, self.k) {
            Turn::Done(ReleaseReply::Released { .. }) => Turn::Done(()),
            Turn::Done(ReleaseReply::NoCursor) => unreachable!(),
            Turn::Done(ReleaseReply::NotHeld) => unreachable!(),
            Turn::Worn { turns } => Turn::Worn { turns },
        }
    }

    /// Closes the cursor. If it holds a product, that hold ends.
    pub fn close<H: Wait>(self, shared: &Shared, rt: &H, pass: &mut Pass) -> Turn<()>
        requires of { IsPassOf shared.now pass.old }
        requires cursor { (held : Option ℕ) × HasCursor pass.old self.k held }
        ensures kept { IsSamePass pass.old pass.new }
        ensures done { IfDone result (λ _. Grows pass.old pass.new (event.Close self.k) reply.Closed) }
        ensures worn { IfWorn result (FindsWorn pass.old pass.new) }
    {
        match shared.close(rt, pass, self.k) {
            Turn::Done(CloseReply::Closed) => Turn::Done(()),
            Turn::Done(CloseReply::NoCursor) => unreachable!(),
            Turn::Worn { turns } => Turn::Worn { turns },
        }
    }
}

fn opening_of(reply: OpenReply) -> Opening
    ensures { opening_reply result ≡ open_answer reply }
{
    match reply {
        OpenReply::Opened { k } => Opening::Opened(Reader { k }),
        OpenReply::AllBusy => Opening::AllBusy,
        OpenReply::NotQueued => Opening::NotQueued,
    }
}

// What a step came to, of a cursor that is there and holds nothing.
fn came_of(reply: StepReply) -> Came
    requires { GivesSome reply }
    ensures { came_reply result ≡ step_answer reply }
{
    match reply {
        StepReply::Gap { count, first, last } => Came::Gap { count, first, last },
        StepReply::Product { n, time, info } => Came::Product(Held { n, time, info }),
        StepReply::End { at } => Came::End { at },
        StepReply::NoCursor | StepReply::Holding { .. } => unreachable!(),
    }
}
