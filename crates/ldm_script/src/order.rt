//! What script lines ask for, and the calls of a queue that they become.
ghost use Rattle.std.specs.Prelude.{◌≡◌, ℕ, IfSome, Option};
ghost use Rattle.std.specs.Option.{option_map};
ghost use Rattle.ldm_types.specs.Info.{Metadata};
ghost use Rattle.ldm_model.specs.declared.event.Event.{Event};
ghost use Rattle.ldm_script.specs.Order.{OnCursor, OnReservation};
ghost use Rattle.ldm_script.specs.OrderView.{asked_of, event_of, act_with, IsWhole, IsWholeCall};
ghost use Rattle.ldm_answers.specs.Answer.{reply_of, FitsAnswer};
ghost use Rattle.ldm_script.specs.Resolve.{resolved, unresolved};
ghost use Rattle.ldm_script.specs.declared.order.LastPlaces.{LastPlaces};

use crate::body::Body;
use ldm_answers::Answer;
use ldm_model::{ReserveNo, Start};
use ldm_types::{Actor, CursorNo, Feed, Info, Micros, Signature};

/// A cursor, as a line names it.
#[derive(Clone, Copy, Debug, PartialEq, Eq)]
pub enum Place {
    /// The cursor of that place.
    At(CursorNo),
    /// The place that the actor was last answered `opened`.
    Last,
}

impl Place {
    /// The cursor that is named, where `last` is the place that the actor opened last. `None` exactly where that is
    /// named, and there is none yet.
    pub fn cursor(self, last: Option<CursorNo>) -> Option<CursorNo>
        ensures { (places : LastPlaces) (on_cursor : ℕ → Event) → places.opened ≡ last
            → resolved places (OnCursor self on_cursor) ≡ option_map on_cursor result }
    {
        match self {
            Place::At(k) => Some(k),
            Place::Last => last,
        }
    }
}

/// A reservation, as a line names it.
#[derive(Clone, Copy, Debug, PartialEq, Eq)]
pub enum ReservePlace {
    /// The reservation of that place.
    At(ReserveNo),
    /// The place that the actor was last answered `reserved`.
    Last,
}

impl ReservePlace {
    /// The reservation that is named, where `last` is the place that the actor reserved last. `None` exactly where that
    /// is named, and there is none yet.
    pub fn reservation(self, last: Option<ReserveNo>) -> Option<ReserveNo>
        ensures { (places : LastPlaces) (on_reservation : ℕ → Event) → places.reserved ≡ last
            → resolved places (OnReservation self on_reservation) ≡ option_map on_reservation result }
    {
        match self {
            ReservePlace::At(r) => Some(r),
            ReservePlace::Last => last,
        }
    }
}

/// What `.` stands for, for one actor: the place that it was last answered `opened`, and the one that it was last
/// answered `reserved`. `None` before that.
#[derive(Clone, Copy, Debug, PartialEq, Eq)]
pub struct LastPlaces {
    pub opened: Option<CursorNo>,
    pub reserved: Option<ReserveNo>,
}

impl LastPlaces {
    /// No place yet.
    pub const NONE: LastPlaces = LastPlaces {
        opened: None,
        reserved: None,
    };
}

/// What a line asks the queue for, and who asks. It borrows the line.
#[derive(Drop)]
pub struct Order<'a> {
    pub actor: Actor,
    pub act: Act<'a>,
}

/// What a line asks for: the events of the queue.
#[derive(Drop)]
pub enum Act<'a> {
    /// `insert NOW SIG FEED SEQNO ORIGIN IDENT BODY`: the arrival is NOW, and the size is the body's.
    Insert {
        now: Micros,
        info: Info,
        body: Body<'a>,
    },
    /// `open FEED oldest`, `open FEED next`, `open FEED after MICROS`, `open FEED sig SIG`
    OpenCursor {
        feed: Feed,
        start: Start,
    },
    /// `step K`
    Step {
        k: Place,
    },
    /// `read K OFFSET LEN`
    Read {
        k: Place,
        offset: u32,
        len: u32,
    },
    /// `release K`
    Release {
        k: Place,
    },
    /// `close K`
    Close {
        k: Place,
    },
    /// `look SIG`
    Look {
        signature: Signature,
    },
    /// `expire`
    Expire,
    /// `tally K`
    Tally {
        k: Place,
    },
    /// `stat`
    Stat,
    /// `reserve ARRIVAL SIG FEED SEQNO ORIGIN IDENT SIZE`
    Reserve {
        info: Info,
    },
    /// `fill R BODY`
    Fill {
        r: ReservePlace,
        body: Body<'a>,
    },
    /// `commit R NOW`
    Commit {
        r: ReservePlace,
        now: Micros,
    },
    /// `discard R`
    Discard {
        r: ReservePlace,
    },
}

/// What a line asks the queue for, and who asks, with the metadata of a product in a place that the caller lent. It
/// borrows the line.
#[derive(Clone, Copy)]
pub struct LentOrder<'a> {
    pub actor: Actor,
    pub act: LentAct<'a>,
}

/// What a line asks for, as [`Act`] has it, but for the metadata of a product: these stand in a place that the caller
/// lent.
#[derive(Clone, Copy)]
pub enum LentAct<'a> {
    Insert { now: Micros, body: Body<'a> },
    OpenCursor { feed: Feed, start: Start },
    Step { k: Place },
    Read { k: Place, offset: u32, len: u32 },
    Release { k: Place },
    Close { k: Place },
    Look { signature: Signature },
    Expire,
    Tally { k: Place },
    Stat,
    Reserve,
    Fill { r: ReservePlace, body: Body<'a> },
    Commit { r: ReservePlace, now: Micros },
    Discard { r: ReservePlace },
}

/// What a line asks for, where the place that it names is known. It borrows the act.
#[derive(Drop)]
pub enum Call<'a> {
    Insert {
        now: Micros,
        info: &'a Info,
        body: &'a Body<'a>,
    },
    OpenCursor {
        feed: Feed,
        start: Start,
    },
    Step {
        k: CursorNo,
    },
    Read {
        k: CursorNo,
        offset: u32,
        len: u32,
    },
    Release {
        k: CursorNo,
    },
    Close {
        k: CursorNo,
    },
    Look {
        signature: &'a Signature,
    },
    Expire,
    Tally {
        k: CursorNo,
    },
    Stat,
    Reserve {
        info: &'a Info,
    },
    Fill {
        r: ReserveNo,
        body: &'a Body<'a>,
    },
    Commit {
        r: ReserveNo,
        now: Micros,
    },
    Discard {
        r: ReserveNo,
    },
}

impl Act<'_> {
    /// The call that is asked for, where `last` has what `.` stands for. `None` exactly where that is named, and there
    /// is none yet: the answer is [`Act::unresolved`] then, without a call.
    pub fn call(&self, last: LastPlaces) -> Option<Call<'_>>
        requires { IsWhole self.now }
        ensures event { option_map event_of result ≡ resolved last (asked_of self.now) }
        ensures whole { IfSome result IsWholeCall }
    {
        Some(match self {
            Act::Insert { now, info, body } => Call::Insert {
                now: *now,
                info,
                body,
            },
            Act::OpenCursor { feed, start } => Call::OpenCursor {
                feed: *feed,
                start: *start,
            },
            Act::Step { k } => Call::Step {
                k: k.cursor(last.opened)?,
            },
            Act::Read { k, offset, len } => Call::Read {
                k: k.cursor(last.opened)?,
                offset: *offset,
                len: *len,
            },
            Act::Release { k } => Call::Release {
                k: k.cursor(last.opened)?,
            },
            Act::Close { k } => Call::Close {
                k: k.cursor(last.opened)?,
            },
            Act::Look { signature } => Call::Look { signature },
            Act::Expire => Call::Expire,
            Act::Tally { k } => Call::Tally {
                k: k.cursor(last.opened)?,
            },
            Act::Stat => Call::Stat,
            Act::Reserve { info } => Call::Reserve { info },
            Act::Fill { r, body } => Call::Fill {
                r: r.reservation(last.reserved)?,
                body,
            },
            Act::Commit { r, now } => Call::Commit {
                r: r.reservation(last.reserved)?,
                now: *now,
            },
            Act::Discard { r } => Call::Discard {
                r: r.reservation(last.reserved)?,
            },
        })
    }

    /// What is answered without a call, where `.` stands for no place yet.
    pub fn unresolved(&self) -> Answer<'static>
        ensures answer { reply_of result ≡ unresolved (asked_of self.now) }
        ensures fits { FitsAnswer result }
    {
        match self {
            Act::Fill { .. } | Act::Commit { .. } | Act::Discard { .. } => Answer::NoReservation,
            _ => Answer::NoCursor,
        }
    }
}

impl<'a> LentAct<'a> {
    /// The act, with these metadata if it has any.
    pub fn with(&self, info: Info) -> Act<'a>
        ensures { result ≡ act_with info self.now }
    {
        match *self {
            LentAct::Insert { now, body } => Act::Insert { now, info, body },
            LentAct::OpenCursor { feed, start } => Act::OpenCursor { feed, start },
            LentAct::Step { k } => Act::Step { k },
            LentAct::Read { k, offset, len } => Act::Read { k, offset, len },
            LentAct::Release { k } => Act::Release { k },
            LentAct::Close { k } => Act::Close { k },
            LentAct::Look { signature } => Act::Look { signature },
            LentAct::Expire => Act::Expire,
            LentAct::Tally { k } => Act::Tally { k },
            LentAct::Stat => Act::Stat,
            LentAct::Reserve => Act::Reserve { info },
            LentAct::Fill { r, body } => Act::Fill { r, body },
            LentAct::Commit { r, now } => Act::Commit { r, now },
            LentAct::Discard { r } => Act::Discard { r },
        }
    }

    /// The call that is asked for, with these metadata if it has any, as [`Act::call`] makes it.
    pub fn call<'b>(&'b self, last: LastPlaces, info: &'b Info) -> Option<Call<'b>>
        requires { IsWhole (act_with info.now self.now) }
        ensures event { option_map event_of result ≡ resolved last (asked_of (act_with info.now self.now)) }
        ensures whole { IfSome result IsWholeCall }
    {
        Some(match self {
            LentAct::Insert { now, body } => Call::Insert {
                now: *now,
                info,
                body,
            },
            LentAct::OpenCursor { feed, start } => Call::OpenCursor {
                feed: *feed,
                start: *start,
            },
            LentAct::Step { k } => Call::Step {
                k: k.cursor(last.opened)?,
            },
            LentAct::Read { k, offset, len } => Call::Read {
                k: k.cursor(last.opened)?,
                offset: *offset,
                len: *len,
            },
            LentAct::Release { k } => Call::Release {
                k: k.cursor(last.opened)?,
            },
            LentAct::Close { k } => Call::Close {
                k: k.cursor(last.opened)?,
            },
            LentAct::Look { signature } => Call::Look { signature },
            LentAct::Expire => Call::Expire,
            LentAct::Tally { k } => Call::Tally {
                k: k.cursor(last.opened)?,
            },
            LentAct::Stat => Call::Stat,
            LentAct::Reserve => Call::Reserve { info },
            LentAct::Fill { r, body } => Call::Fill {
                r: r.reservation(last.reserved)?,
                body,
            },
            LentAct::Commit { r, now } => Call::Commit {
                r: r.reservation(last.reserved)?,
                now: *now,
            },
            LentAct::Discard { r } => Call::Discard {
                r: r.reservation(last.reserved)?,
            },
        })
    }

    /// What is answered without a call, as [`Act::unresolved`] tells it, whatever the metadata are.
    pub fn unresolved(&self) -> Answer<'static>
        ensures answer { (info : Metadata) → reply_of result ≡ unresolved (asked_of (act_with info self.now)) }
        ensures fits { FitsAnswer result }
    {
        match self {
            LentAct::Fill { .. } | LentAct::Commit { .. } | LentAct::Discard { .. } => {
                Answer::NoReservation
            }
            _ => Answer::NoCursor,
        }
    }
}
