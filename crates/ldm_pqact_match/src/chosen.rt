//! What the choice answers.
ghost use Rattle.std.specs.Prelude.{◌≡◌};
ghost use Rattle.ldm_pqact_match.specs.Choice.{place_number};

use crate::action::Action;

/// The greatest number of a place. A pqact.conf has fewer entries and words.
pub const LAST_PLACE: u32 = u32::MAX;

/// What an entry that acts does.
#[derive(Drop)]
pub enum Decision {
    /// The action is done.
    Act(Action),
    /// A form asks for the date of a group whose part of the ident is no day: it is not one or two digits of a value
    /// from 1 to 31. Nothing is done.
    NoDate {
        /// The number of the first such group, from 1, in the order of the words.
        group: u32,
    },
    /// A word is no UTF-8. Nothing is done.
    NotText {
        /// The place of the first such word among those behind the options, from 0.
        word: u32,
    },
}

/// An entry that acts on a product.
#[derive(Drop)]
pub struct Chosen {
    /// The place of the entry in the file, from 0.
    pub entry: u32,
    /// What it does.
    pub decision: Decision,
}

// The number of a place.
pub(crate) fn place_number(place: usize) -> u32
    ensures { result ≡ place_number place }
{
    match u32::try_from(place) {
        Ok(number) => number,
        Err(_) => LAST_PLACE,
    }
}
