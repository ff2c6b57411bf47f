//! Definitions of access, classes, actions and dates, seen a second time. This function does nothing: its contract is
//! what they come to for a few lines.
ghost use Rattle.ldm_witnesses.specs.Choices.{TwoLinesDecide, LinesSay, ClassesWant, EntriesAct, DatesAreNear};

/// What two rules say of a host and a product, two specifications of a product, two entries of a `pqact.conf`, and a
/// day of the month of a date.
pub fn choices_are_made()
    ensures rules { TwoLinesDecide }
    ensures lines { LinesSay }
    ensures classes { ClassesWant }
    ensures entries { EntriesAct }
    ensures dates { DatesAreNear }
{}
