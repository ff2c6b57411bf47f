//! What a record says.

use ldm_relay::ClassAnswer;
use ldm_types::{ClassSpec, Info};

/// What a record says to one who watches.
#[derive(Drop)]
pub enum Step {
    /// The peer is there, and no more.
    Alive,
    /// The peer tells of the products of the class from here on.
    Begins,
    /// It tells of no more than this class, which is to be asked for.
    AsksAgain(ClassSpec),
    /// A product was inserted.
    Notice(Info),
    /// Nothing that is lawful there.
    Bad,
    /// The peer declined the request by this answer.
    Declined(ClassAnswer),
}
