//! The line that is being read.
ghost use Rattle.std.specs.Prelude.{◌≡◌, ◌+◌, ◌^◌, ◌<◌, ◌≤◌, ◌==◌, ◌↔◌, ◌++◌, length, take, IsTrue, IfOk};
ghost use Rattle.std.specs.Vec.{vec_len, vec_capacity};
ghost use Rattle.ldm_play.specs.PendingView.{fresh_line};
ghost use Rattle.ldm_script.specs.declared.line.TheConstants.{LONGEST_LINE};

use ldm_script::LONGEST_LINE;
use ldm_types::OutOfMemory;
use std::alloc::Global;
use std::marker::Model;

/// The line that is being read: its number in the script, from 1, and its bytes so far, which are never more than a
/// line may have.
#[derive(Drop)]
pub struct Pending {
    number: u64,
    bytes: Vec<u8>,
}

impl Model for Pending {
    ghost use Rattle.std.specs.Prelude.{◌≤◌, length};
    ghost use Rattle.std.specs.Vec.{vec_capacity};
    ghost use Rattle.ldm_script.specs.declared.line.TheConstants.{LONGEST_LINE};
    ghost use Rattle.ldm_play.specs.PendingView.{PendingView};

    ghost Value = { PendingView };

    ghost view = { λ p. record { number = p.number; bytes = p.bytes.items } };

    ghost invariant = { λ p. (length p.bytes.items ≤ LONGEST_LINE) × (LONGEST_LINE ≤ vec_capacity p.bytes) };
}

impl Pending {
    /// The first line, of which nothing was read yet, with room for all bytes that a line may have.
    pub fn new(alloc: Global) -> Result<Pending, OutOfMemory>
        ensures { IfOk result (λ pending. pending ≡ fresh_line 1) }
    {
        Ok(Pending {
            number: 1,
            bytes: Vec::with_capacity(alloc, LONGEST_LINE)?,
        })
    }

    /// The number of the line.
    pub fn number(&self) -> u64
        ensures { result ≡ self.now.number }
    {
        self.number
    }

    /// Whether it has no bytes so far.
    pub fn is_empty(&self) -> bool
        ensures { result ≡ (length self.now.bytes == 0) }
    {
        self.bytes.is_empty()
    }

    /// The bytes so far.
    pub fn as_slice(&self) -> &[u8]
        ensures value { result.now ≡ self.now.bytes }
        ensures bound { length result.now ≤ LONGEST_LINE }
    {
        self.bytes.as_slice()
    }

    /// Goes on to the next line.
    pub fn next_line(&mut self)
        requires { self.old.number + 1 < 2 ^ 64 }
        ensures { self.new ≡ fresh_line (self.old.number + 1) }
    {
        self.number += 1;
        self.bytes.clear();
    }

    /// Adds bytes, as many as a line may have. Whether all fitted.
    pub fn add(&mut self, more: &[u8]) -> bool
        ensures fits { IsTrue result ↔ (length self.old.bytes + length more.now ≤ LONGEST_LINE) }
        ensures bytes { self.new ≡ record self.old { bytes = take LONGEST_LINE (self.old.bytes ++ more.now) } }
    {
        let room = LONGEST_LINE - self.bytes.len();
        if more.len() <= room {
            extend(&mut self.bytes, more);
            true
        } else {
            extend(&mut self.bytes, &more[..room]);
            false
        }
    }
}

// Appends bytes for which there is room already.
fn extend(bytes: &mut Vec<u8>, more: &[u8])
    requires { vec_len bytes.old + length more.now ≤ vec_capacity bytes.old }
    ensures items { bytes.new.items ≡ bytes.old.items ++ more.now }
    ensures capacity { vec_capacity bytes.old ≤ vec_capacity bytes.new }
{
    if bytes.extend_from_slice(more).is_err() {
        unreachable!();
    }
}
