//! Sources and sinks in memory, which fail at chosen calls.
ghost use Rattle.std.specs.Prelude.{◌≡◌, ◌<◌, ◌≤◌, [], length, take, drop, min};
ghost use Rattle.ldm_outside_memory.specs.Memory.{first_plan, with_most};

use crate::calls::Calls;
use ldm_outside::{Got, Put, Sink, SinkFailed, Source};
use std::alloc::Global;
use std::marker::Model;

/// A source over bytes in memory. Its calls are numbered from 1, and exactly those of the numbers in a list fail.
///
/// A call that does not fail gives as many bytes as are left, as fit the buffer and as the limit allows, and
/// leaves the rest of the buffer as it was.
#[derive(Drop)]
pub struct MemSource {
    bytes: Vec<u8>,
    at: usize,
    calls: Calls,
    ends: u64,
}

impl Model for MemSource {
    ghost use Rattle.std.specs.Prelude.{◌≤◌, ◌<◌, drop, length};
    ghost use Rattle.ldm_outside_memory.specs.Memory.{SourceState};

    ghost Value = { SourceState };

    ghost view = { λ s. record {
      left = drop s.at s.bytes.items;
      faults = s.calls.faults;
      ends = s.ends;
      plan = s.calls.plan;
    } };

    ghost invariant = { λ s. s.at ≤ length s.bytes.items };
}

impl MemSource {
    /// A source that gives these bytes, and whose calls of the given numbers fail. The numbers are in any order.
    pub fn new(bytes: Vec<u8>, failing: Vec<u64>) -> MemSource
        ensures { result ≡ record { left = bytes.items; faults = 0; ends = 0; plan = first_plan failing.items } }
    {
        MemSource {
            bytes,
            at: 0,
            calls: Calls::new(failing),
            ends: 0,
        }
    }

    /// From now on a call gives at most so many bytes, and at least one.
    pub fn limit_pieces(&mut self, most: usize)
        ensures { self.new ≡ record self.old { plan = with_most most self.old.plan } }
    {
        self.calls.limit_pieces(most);
    }

    /// How often it failed.
    pub fn faults(&self) -> u64
        ensures { result ≡ self.now.faults }
    {
        self.calls.faults()
    }

    /// How often it answered that it is at its end.
    pub fn ends(&self) -> u64
        ensures { result ≡ self.now.ends }
    {
        self.ends
    }
}

impl Source for MemSource {
    ghost use Rattle.ldm_outside.specs.Io.{ReadGives};
    ghost use Rattle.ldm_outside_memory.specs.Memory.{told_by_source, ReadsAsPlanned, moved};

    ghost tells = { told_by_source };

    fn read(&mut self, into: &mut [u8]) -> Got
        requires { 0 < length into.old }
        ensures given { ReadGives result into.new (told_by_source self.old) (told_by_source self.new) }
        ensures faults_kept { self.old.faults ≤ self.new.faults }
        ensures planned { ReadsAsPlanned result (length into.old) self.old self.new }
        ensures rest { drop (moved result) into.new ≡ drop (moved result) into.old }
    {
        if self.calls.begin().is_err() {
            return Got::Failed;
        }
        let n = copy_front(&self.bytes[self.at..], self.calls.most(), into);
        if n == 0 {
            self.ends = self.ends.saturating_add(1);
            return Got::End;
        }
        self.at += n;
        Got::Bytes(n)
    }
}

/// Copies as many bytes as fit, and at most so many, to the front of the buffer, and answers how many.
pub(crate) fn copy_front(bytes: &[u8], most: usize, into: &mut [u8]) -> usize
    ensures count { result ≡ min (min (length bytes.now) most) (length into.old) }
    ensures front { take result into.new ≡ take result bytes.now }
    ensures rest { drop result into.new ≡ drop result into.old }
    ensures len { length into.new ≡ length into.old }
{
    let n = bytes.len().min(most).min(into.len());
    into[..n].copy_from_slice(&bytes[..n]);
    n
}

/// A sink that keeps what it takes. Its calls are numbered from 1, and those of the numbers in a list fail.
///
/// Without memory for what it is to keep, a call fails too. A call that does not fail takes as much of the piece as
/// the limit allows. It keeps nothing back, and to flush it is no call.
#[derive(Drop)]
pub struct MemSink {
    written: Vec<u8>,
    calls: Calls,
}

impl Model for MemSink {
    ghost use Rattle.std.specs.Prelude.{◌<◌};
    ghost use Rattle.ldm_outside_memory.specs.Memory.{SinkState};

    ghost Value = { SinkState };

    ghost view = { λ s. record {
      written = s.written.items;
      faults = s.calls.faults;
      plan = s.calls.plan;
    } };
}

impl MemSink {
    /// A sink that has nothing, and whose calls of the given numbers fail. The numbers are in any order.
    pub fn new(alloc: Global, failing: Vec<u64>) -> MemSink
        ensures { result ≡ record { written = []; faults = 0; plan = first_plan failing.items } }
    {
        MemSink {
            written: Vec::new(alloc),
            calls: Calls::new(failing),
        }
    }

    /// From now on a call takes at most so many bytes, and at least one where there is one.
    pub fn limit_pieces(&mut self, most: usize)
        ensures { self.new ≡ record self.old { plan = with_most most self.old.plan } }
    {
        self.calls.limit_pieces(most);
    }

    /// All bytes that it took.
    pub fn written(&self) -> &[u8]
        ensures { result.now ≡ self.now.written }
    {
        self.written.as_slice()
    }

    /// How often it failed.
    pub fn faults(&self) -> u64
        ensures { result ≡ self.now.faults }
    {
        self.calls.faults()
    }
}

impl Sink for MemSink {
    ghost use Rattle.ldm_outside.specs.Io.{WriteGives};
    ghost use Rattle.std.specs.Prelude.{Ok};
    ghost use Rattle.ldm_outside_memory.specs.Memory.{told_by_sink, WritesAsPlanned};

    ghost tells = { told_by_sink };

    ghost is_handed_on = { λ _. Unit {0} };

    fn write(&mut self, piece: &[u8]) -> Put
        ensures taken { WriteGives result piece.now (told_by_sink self.old) (told_by_sink self.new) }
        ensures faults_kept { self.old.faults ≤ self.new.faults }
        ensures planned { WritesAsPlanned result piece.now self.old self.new }
    {
        if self.calls.begin().is_err() {
            return Put::Failed;
        }
        let n = piece.len().min(self.calls.most());
        if self.written.extend_from_slice(&piece[..n]).is_err() {
            self.calls.fail();
            return Put::Failed;
        }
        Put::Took(n)
    }

    fn gather(&mut self)
        ensures { self.new ≡ self.old }
    {}

    fn flush(&mut self) -> Result<(), SinkFailed>
        ensures done { result ≡ Ok tt }
        ensures same { self.new ≡ self.old }
    {
        Ok(())
    }
}
