//! The action in hand: what is remembered of it until it is finished.
ghost use Rattle.std.specs.Prelude.{◌≡◌};
ghost use Rattle.ldm_actions.specs.Hands.{hand_of};

use crate::action::Action;

/// Where the bytes of the action in hand go.
#[derive(Clone, Copy, PartialEq, Eq)]
pub(crate) enum Place {
    Nowhere,
    /// To the file that was used last.
    File,
    /// To the program that was written last.
    Child,
}

/// The action in hand.
#[derive(Clone, Copy, PartialEq, Eq)]
pub(crate) struct Hand {
    pub(crate) place: Place,
    pub(crate) strip: bool,
    /// What it writes to is shut after the body.
    pub(crate) close: bool,
    /// A file is flushed after the body.
    pub(crate) flush: bool,
}

// An action that writes nothing.
const WRITES_NOTHING: Hand = Hand {
    place: Place::Nowhere,
    strip: false,
    close: false,
    flush: false,
};

impl Hand {
    /// What is remembered of an action.
    pub(crate) fn of(action: &Action) -> Hand
        ensures { result ≡ hand_of action.now }
    {
        match action {
            Action::ToFile { options, .. } => Hand {
                place: Place::File,
                strip: options.strip,
                close: options.close,
                flush: options.flush,
            },
            Action::ToProgram { options, .. } => Hand {
                place: Place::Child,
                strip: options.strip,
                close: options.close,
                flush: false,
            },
            Action::Start { .. } | Action::Nothing => WRITES_NOTHING,
        }
    }
}
