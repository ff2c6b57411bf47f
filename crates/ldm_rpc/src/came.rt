//! The bytes that came of a content, which contracts alone know.
ghost use Rattle.std.specs.Prelude.{◌≡◌, ℕ, [], List};
ghost use Rattle.std.specs.Borrow.{ftrue};

use std::marker::Model;

/// Bytes that come.
#[derive(Clone, Copy)]
pub(crate) struct Coming<'a> {
    pub(crate) bytes: &'a [u8],
}

/// The bytes that came of a content. It takes no memory, and its calls do nothing.
#[derive(Drop)]
pub(crate) struct Came {
    ghost bytes: { List ℕ },
}

impl Model for Came {
    ghost also_owns = { λ _. ftrue };
}

impl Came {
    ghost use Rattle.ldm_rpc.specs.Coming.{with_coming};

    /// Nothing came yet.
    pub(crate) fn new() -> Came
        ensures { result.bytes ≡ [] }
    {
        Came {}
    }

    /// These bytes come then.
    pub(crate) fn then(&self, _coming: &Coming<'_>) -> Came
        ensures { result.bytes ≡ with_coming self.now.bytes _coming.now }
    {
        Came {}
    }
}
