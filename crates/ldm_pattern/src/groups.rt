//! The groups of a match.
ghost use Rattle.std.specs.Prelude.{◌≡◌, ◌<◌, ◌≤◌, ◌-◌, slice_index_or, replicate, None, SomeIff};
ghost use Rattle.std.specs.Option.{option_copied};
ghost use Rattle.regex.specs.Bytes.{captures_haystack, captures_span};
ghost use Rattle.ldm_pattern.specs.Parts.{part_of, parts_of, captured_parts};
ghost use Rattle.ldm_pattern.specs.GroupNumbers.{IsTold};

use regex::bytes::Captures;
use std::marker::Model;

/// The number of a group of a pattern whose part is told: 1 to [`GroupNo::LAST`].
#[derive(Clone, Copy, Debug, PartialEq, Eq)]
pub struct GroupNo {
    number: u8,
}

impl Model for GroupNo {
    ghost use Rattle.std.specs.Prelude.{ℕ};
    ghost use Rattle.ldm_pattern.specs.GroupNumbers.{IsTold};

    ghost Value = { ℕ };

    ghost view = { λ group. group.number };

    ghost invariant = { λ group. IsTold group.number };

    ghost inverse = { λ n. record { number = n } };
}

impl GroupNo {
    /// The greatest number of a group whose part is told.
    pub const LAST: u8 = 9;

    /// The group of that number. `None` exactly where the number is 0 or above [`GroupNo::LAST`].
    pub fn new(number: u8) -> Option<GroupNo>
        ensures { SomeIff result (IsTold number) number }
    {
        if 1 <= number && number <= GroupNo::LAST {
            Some(GroupNo { number })
        } else {
            None
        }
    }

    /// The number.
    pub fn get(self) -> u8
        ensures value { result ≡ self }
        ensures bounds { IsTold self }
    {
        self.number
    }
}

/// The parts of a text that groups 1 to 9 of a pattern have in its first match. Contracts see the list of the nine by
/// `parts_of`, with None for a group that took no part.
#[derive(Clone, Copy)]
pub struct Groups<'t> {
    parts: [Option<&'t [u8]>; 9],
}

impl<'t> Groups<'t> {
    /// Groups of which none took part.
    pub fn none() -> Groups<'t>
        ensures { parts_of result ≡ replicate 9 None }
    {
        Groups { parts: [None; 9] }
    }

    /// The part of a group, or `None` where it took no part in the match.
    pub fn part(&self, group: GroupNo) -> Option<&'t [u8]>
        ensures { option_copied result ≡ slice_index_or (parts_of self.now) (group - 1) None }
    {
        self.parts[group.get() as usize - 1]
    }

    // Those of a match.
    pub(crate) fn of(captures: &Captures<'_, 't>) -> Groups<'t>
        ensures { parts_of result ≡ captured_parts captures.now }
    {
        Groups {
            parts: [
                part(captures, 1),
                part(captures, 2),
                part(captures, 3),
                part(captures, 4),
                part(captures, 5),
                part(captures, 6),
                part(captures, 7),
                part(captures, 8),
                part(captures, 9),
            ],
        }
    }
}

// What a group matched last, if it took part.
fn part<'t>(captures: &Captures<'_, 't>, group: usize) -> Option<&'t [u8]>
    ensures { option_copied result ≡ part_of (captures_haystack captures.now) (captures_span captures.now group) }
{
    match captures.get(group) {
        Some(found) => Some(found.as_bytes()),
        None => None,
    }
}
