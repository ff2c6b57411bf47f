//! What was met of a stream that was taken whole.
ghost use Rattle.std.specs.Prelude.{◌≡◌};
ghost use Rattle.ldm_wmo.specs.Outcomes.{then_of};

/// What was met first, of what tells in the status, where a source was read to its end.
#[derive(Clone, Copy, Debug, PartialEq, Eq)]
pub enum Outcome {
    /// Nothing: all candidates were bulletins, and the queue admitted each.
    Clean,
    /// A candidate that is no bulletin, or one that the end cuts off.
    Bad,
    /// A bulletin that the queue did not admit.
    Refused,
}

impl Outcome {
    /// What was met first, where that was met behind this.
    pub(crate) fn then(self, behind: Outcome) -> Outcome
        ensures { result ≡ then_of self behind }
    {
        match self {
            Outcome::Clean => behind,
            Outcome::Bad => Outcome::Bad,
            Outcome::Refused => Outcome::Refused,
        }
    }
}
