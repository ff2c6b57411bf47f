//! What passed on a mirror, which contracts alone know.
ghost use Rattle.std.specs.Prelude.{◌≡◌, [], List};
ghost use Rattle.std.specs.Borrow.{ftrue};
ghost use Rattle.ldm_outside.specs.declared.link.Passed.{Passed};

use std::marker::Model;

/// Bytes that pass on a link, one way: those that it gives come with one call.
#[derive(Clone, Copy)]
pub(crate) enum Passing<'a> {
    /// The link is sent them.
    Sent(&'a [u8]),
    /// It gives them.
    Given(&'a [u8]),
}

/// What passed on a mirror. It takes no memory, and its calls do nothing.
#[derive(Drop)]
pub(crate) struct Told {
    ghost passed: { List Passed },
}

impl Model for Told {
    ghost also_owns = { λ _. ftrue };
}

impl Told {
    ghost use Rattle.ldm_chain.specs.Telling.{with_passing};

    /// Nothing passed yet.
    pub(crate) fn new() -> Told
        ensures { result.passed ≡ [] }
    {
        Told {}
    }

    /// These bytes pass then.
    pub(crate) fn then(&self, _passing: &Passing<'_>) -> Told
        ensures { result.passed ≡ with_passing self.now.passed _passing.now }
    {
        Told {}
    }
}
