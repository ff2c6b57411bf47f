//! The passes of a shared queue.
ghost use Rattle.std.specs.Prelude.{◌≡◌, ◌<◌};

use crate::view::View;
use atomic_table::Seat;
use ldm_book::Book;
use ldm_types::Actor;
use std::marker::Model;

/// The right to call a shared queue as one actor. It keeps the history that it has seen, in the contracts alone.
#[derive(Drop)]
pub struct Pass {
    pub(crate) actor: Actor,
    pub(crate) seat: Seat<Option<Book>, View>,
}

impl Model for Pass {
    ghost use Rattle.ldm_shared.specs.Passes.{PassView};

    ghost Value = { PassView };

    ghost use Rattle.ldm_shared.specs.Inside.{view_of_pass, IsPass};

    ghost view = { view_of_pass };

    ghost invariant = { IsPass };
}

impl Pass {
    /// The actor that the calls of this pass are of.
    pub fn actor(&self) -> Actor
        ensures { result ≡ self.now.actor }
    {
        self.actor
    }
}
