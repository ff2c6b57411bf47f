//! The rule of the shared words and slot, and what each step on them tells.
ghost use Rattle.ldm_shared.specs.Steps.{looks, looks_at_put, says, takes};

use crate::sizes::Sizes;
use crate::view::View;
use atomic_table::{Join, Play, Split, TableRule};
use ldm_book::Book;
use std::marker::{Brand, PhantomData};

/// What holds between any two steps.
pub(crate) struct Law;

impl TableRule<Option<Book>, View, Sizes> for Law {
    ghost use Rattle.ldm_shared.specs.Rule.{IsKept, opening};

    ghost holds = { IsKept };

    ghost first = { opening };
}

/// A look at the history.
pub(crate) struct Look;

impl Play<Option<Book>, View> for Look {
    ghost then = { looks };
}

/// A try to take the turn, and the book with it.
pub(crate) struct Take;

impl Play<Option<Book>, View> for Take {
    ghost then = { takes };
}

/// A look at the history, and at what an actor put in last.
pub(crate) struct LookAtPut;

impl Play<Option<Book>, View> for LookAtPut {
    ghost then = { looks_at_put };
}

/// A caller says whether one may sleep, or what it put in last.
pub(crate) struct Say;

impl Play<Option<Book>, View> for Say {
    ghost then = { says };
}

/// An entry of the history: who called what, and what was answered.
pub(crate) trait Called {
    ghost use Rattle.ldm_model.specs.declared.event.Entry.{Entry};

    ghost entry: { Entry };
}

impl Called for Brand {
    ghost use Rattle.ldm_model.specs.declared.event.Event.TheVariants as event;
    ghost use Rattle.ldm_model.specs.declared.event.Reply.TheVariants as reply;

    ghost entry = { record { actor = 0; event = event.Expire; reply = reply.Nothing } };
}

/// The end of a call: its entry is added, and the turn and the book are given back.
pub(crate) struct Add<C> {
    of: PhantomData<C>,
}

impl<C: Called> Play<Option<Book>, View> for Add<C> {
    ghost use Rattle.ldm_shared.specs.Steps.{adds};

    ghost then = { adds C.entry };
}

/// A pass is made: its seat answers for the first actor, and the seat that it is cut from for the others.
pub(crate) struct Deal;

impl Split<View> for Deal {
    ghost use Rattle.ldm_shared.specs.Joining.{of_pass, without_pass};

    ghost left = { without_pass };

    ghost right = { of_pass };
}

/// A note is made, which has seen as much and answers for nobody.
pub(crate) struct Note;

impl Split<View> for Note {
    ghost use Rattle.ldm_shared.specs.Joining.{note};

    ghost left = { λ v. v };

    ghost right = { note };
}

/// A seat takes in another one.
pub(crate) struct Gather;

impl Join<View> for Gather {
    ghost use Rattle.ldm_shared.specs.Joining.{both};
    ghost use Rattle.ldm_shared.specs.Rule.{spent};

    ghost both = { both };

    ghost spent = { spent };
}
