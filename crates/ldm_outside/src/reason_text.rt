//! A reason that is put together piece by piece.
ghost use Rattle.std.specs.Prelude.{◌≡◌, ◌++◌, ◌-◌, [], decimal, length, map, take};
ghost use Rattle.ldm_outside.specs.Reason.{IsReason};
ghost use Rattle.ldm_outside.specs.Putting.{shown, with_text};

use crate::LONGEST_REASON;
use arrayvec::ArrayVec;
use itoa::Buffer;
use std::marker::Model;

/// A reason that is put together piece by piece. It never outgrows what a log line can have: what there is no room for
/// is left out.
#[derive(Debug, Drop)]
pub struct Reason {
    text: ArrayVec<u8, LONGEST_REASON>,
}

impl Model for Reason {
    ghost use Rattle.std.specs.Prelude.{◌≡◌, ℕ, List, false};
    ghost use Rattle.std.specs.List.{list_any};
    ghost use Rattle.ldm_outside.specs.Reason.{is_control};

    ghost Value = { List ℕ };

    ghost view = { λ s. s.text.items };

    ghost invariant = { λ s. list_any is_control s.text.items ≡ false };
}

impl Reason {
    /// No reason.
    pub fn new() -> Reason
        ensures { result ≡ [] }
    {
        Reason {
            text: ArrayVec::new(),
        }
    }

    /// Its text.
    pub fn as_slice(&self) -> &[u8]
        ensures text { result.now ≡ self.now }
        ensures is_reason { IsReason result.now }
    {
        self.text.as_slice()
    }

    /// Forgets what was put.
    pub fn clear(&mut self)
        ensures { self.new ≡ [] }
    {
        self.text.clear();
    }

    /// Appends as much of a text as there is room for. A control byte becomes a `?`.
    pub fn put(&mut self, text: &[u8])
        ensures { self.new ≡ with_text self.old text.now }
    {
        put_shown(&mut self.text, text);
    }

    /// Appends as many of the decimal digits of a number as there is room for.
    pub fn put_number(&mut self, n: u64)
        ensures { self.new ≡ with_text self.old (decimal n) }
    {
        let mut digits = Buffer::new();
        self.put(digits.format(n).as_bytes());
    }
}

// Appends as much of a text as there is room for.
fn put_shown(out: &mut ArrayVec<u8, LONGEST_REASON>, text: &[u8])
    ensures { out.new.items ≡ with_text out.old.items text.now }
{
    let room = LONGEST_REASON - out.len();
    let front = &text[..room.min(text.len())];
    for byte in front {
        out.push(shown(*byte));
    }
}

// A byte as a log line has it.
fn shown(byte: u8) -> u8
    ensures { result ≡ shown byte }
{
    if byte < 32 || byte == 127 { b'?' } else { byte }
}
