//! The queue of many threads.
ghost use Rattle.std.specs.Prelude.{◌≡◌, ◌<◌};
ghost use Rattle.ldm_book.specs.Limits.{IsGoodArena};

use crate::rule::Law;
use crate::sizes::Sizes;
use crate::view::View;
use atomic_table::Table;
use ldm_book::Book;
use std::alloc::Global;
use std::marker::Model;

/// The queue of many threads, which is lent to all of them.
#[derive(Drop)]
pub struct Shared {
    pub(crate) table: Table<Option<Book>, View, Sizes, Law, Global>,
    pub(crate) arena: u64,
}

impl Model for Shared {
    ghost use Rattle.ldm_shared.specs.Passes.{SharedView};

    ghost Value = { SharedView };

    ghost use Rattle.ldm_shared.specs.InsideShared.{view_of_shared, IsShared};

    ghost view = { view_of_shared };

    ghost invariant = { IsShared };
}

impl Shared {
    /// How many bytes the arena has. It waits for nobody.
    pub fn arena(&self) -> u64
        ensures is { result ≡ self.now.arena }
        ensures good { IsGoodArena self.now.arena }
    {
        self.arena
    }
}
