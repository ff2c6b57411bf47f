//! What calls on outputs answer.

/// What beginning an action came to.
#[derive(Clone, Copy, Debug, PartialEq, Eq)]
pub enum Begun {
    /// The action is in hand.
    Ready,
    /// The store failed, and its count of faults rose.
    StoreFault,
    /// The launcher failed, and its count of faults rose.
    LaunchFault,
    /// No memory: nothing was done.
    OutOfMemory,
}

/// What a further call came to.
#[derive(Clone, Copy, Debug, PartialEq, Eq)]
pub enum Done {
    /// All was done.
    Ok,
    /// The store failed, and its count of faults rose.
    StoreFault,
    /// The launcher failed, and its count of faults rose.
    LaunchFault,
}

/// Which of the two failed.
#[derive(Clone, Copy, Debug, PartialEq, Eq)]
pub enum Fault {
    /// The store.
    Store,
    /// The launcher.
    Launch,
}

impl Fault {
    ghost use Rattle.std.specs.Prelude.{◌≡◌};
    ghost use Rattle.ldm_actions.specs.Outputs.{begun_again, done_again};

    /// What beginning an action answers again.
    pub(crate) fn begun(self) -> Begun
        ensures { result ≡ begun_again self }
    {
        match self {
            Fault::Store => Begun::StoreFault,
            Fault::Launch => Begun::LaunchFault,
        }
    }

    /// What a further call answers again.
    pub(crate) fn done(self) -> Done
        ensures { result ≡ done_again self }
    {
        match self {
            Fault::Store => Done::StoreFault,
            Fault::Launch => Done::LaunchFault,
        }
    }
}
