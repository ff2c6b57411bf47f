//! A source in memory that never fails: its count of faults is the constant 0.
ghost use Rattle.std.specs.Prelude.{◌≡◌, ◌<◌, ◌≤◌, length, drop};

use crate::memory::copy_front;
use ldm_outside::{Got, Source};
use std::marker::Model;

/// A source over bytes in memory that never fails.
///
/// A call gives as many bytes as are left and as fit the buffer, and leaves the rest of the buffer as it was.
#[derive(Drop)]
pub struct SureSource {
    bytes: Vec<u8>,
    at: usize,
    ends: u64,
}

impl Model for SureSource {
    ghost use Rattle.std.specs.Prelude.{◌≤◌, drop, length};
    ghost use Rattle.ldm_outside_memory.specs.Memory.{SureState};

    ghost Value = { SureState };

    ghost view = { λ s. record { left = drop s.at s.bytes.items; faults = 0; ends = s.ends } };

    ghost invariant = { λ s. s.at ≤ length s.bytes.items };
}

impl SureSource {
    /// A source that gives these bytes.
    pub fn new(bytes: Vec<u8>) -> SureSource
        ensures { result ≡ record { left = bytes.items; faults = 0; ends = 0 } }
    {
        SureSource {
            bytes,
            at: 0,
            ends: 0,
        }
    }
}

impl Source for SureSource {
    ghost use Rattle.ldm_outside.specs.Io.{ReadGives};
    ghost use Rattle.ldm_outside_memory.specs.Memory.{told_by_sure_source, ReadsSurely, moved};

    ghost tells = { told_by_sure_source };

    fn read(&mut self, into: &mut [u8]) -> Got
        requires { 0 < length into.old }
        ensures given { ReadGives result into.new (told_by_sure_source self.old) (told_by_sure_source self.new) }
        ensures sure { ReadsSurely result (length into.old) self.old self.new }
        ensures rest { drop (moved result) into.new ≡ drop (moved result) into.old }
    {
        let n = copy_front(&self.bytes[self.at..], usize::MAX, into);
        if n == 0 {
            self.ends = self.ends.saturating_add(1);
            return Got::End;
        }
        self.at += n;
        Got::Bytes(n)
    }
}
