//! What a call that takes a turn comes to.
ghost use Rattle.std.specs.Prelude.{◌≡◌};
ghost use Rattle.ldm_shared.specs.declared.turn.Turn.TheVariants as turn;
ghost use Rattle.ldm_shared.specs.Turns.{IfDone, IfWorn};

/// What a call of a shared queue comes to.
#[derive(Debug, PartialEq, Eq, Drop)]
pub enum Turn<R> {
    /// The call was made, and answered this.
    Done(R),
    /// The queue has had `turns` calls, which is as many as it can have. Nothing is changed.
    Worn { turns: u64 },
}

impl<R> Turn<R> {
    /// What `f` makes of the answer, where the call was made.
    pub fn map<T, F: FnOnce(R) -> T>(self, f: F) -> Turn<T>
        requires { IfDone self (F.pre f) }
        ensures done { IfDone result (λ answer. (reply : R) × (self ≡ turn.Done reply) × F.post f reply answer) }
        ensures worn { IfWorn result (λ turns. self ≡ turn.Worn turns) }
    {
        match self {
            Turn::Done(reply) => Turn::Done(f(reply)),
            Turn::Worn { turns } => Turn::Worn { turns },
        }
    }
}
