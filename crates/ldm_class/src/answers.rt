//! What a policy answers.
ghost use Rattle.std.specs.Prelude.{◌≡◌};
ghost use Rattle.ldm_class.specs.Access.{is_yes};

use ldm_types::ClassSpec;

/// Whether a host may be fed a product, or push it.
#[derive(Clone, Copy, Debug, PartialEq, Eq)]
pub enum Verdict {
    /// It may.
    Yes {
        /// The number, from 1, of the first rule that passes.
        rule: u64,
    },
    /// It may not.
    No {
        /// The number, from 1, of the first rule that meets the host and the product, or 0 where none meets.
        rule: u64,
    },
}

impl Verdict {
    /// Whether it may.
    pub fn is_yes(self) -> bool
        ensures { result ≡ is_yes self }
    {
        matches!(self, Verdict::Yes { .. })
    }
}

/// What is left of a class that a host asks for.
#[derive(Debug, PartialEq, Eq, Drop)]
pub enum Reduced {
    /// All of it, unchanged.
    Same,
    /// A part of it.
    Fewer(ClassSpec),
    /// Nothing.
    Nothing {
        /// The number, from 1, of the first rule whose host pattern is found in the host, or 0 where there is none.
        rule: u64,
    },
}
