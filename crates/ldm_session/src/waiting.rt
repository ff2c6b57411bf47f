//! Bytes that a link gave and that nobody looked at yet.
ghost use Rattle.std.specs.Prelude.{◌≡◌, ◌<◌, ◌≤◌, IfOk, length, drop};
ghost use Rattle.ldm_outside.specs.Link.{IsNotClosed, RecvGives};
ghost use Rattle.ldm_session.specs.Filling.{Fills, GotMost};

use ldm_outside::{Awaited, Got, Link};
use ldm_types::OutOfMemory;
use std::alloc::Global;
use std::marker::Model;

// The most bytes that are received at once, where no more came ahead.
const LARGEST_PIECE: usize = 4_096;

/// A fixed buffer with bytes that nobody looked at yet: those of one piece, or those that came ahead. Contracts see
/// these.
#[derive(Drop)]
pub struct Waiting {
    buffer: Vec<u8>,
    from: usize,
    to: usize,
}

impl Model for Waiting {
    ghost use Rattle.std.specs.Prelude.{ℕ, ◌-◌, ◌<◌, ◌≤◌, List, length, take, drop};

    ghost Value = { List ℕ };

    ghost view = { λ w. take (w.to - w.from) (drop w.from w.buffer.items) };

    ghost invariant = { λ w. (w.from ≤ w.to) × (w.to ≤ length w.buffer.items) × (0 < length w.buffer.items) };
}

impl Waiting {
    /// Takes the memory of the buffer, in which these bytes wait: 4,096 bytes, or as many as these.
    pub fn create(alloc: Global, ahead: &[u8]) -> Result<Waiting, OutOfMemory>
        ensures { IfOk result (λ waiting. waiting ≡ ahead.now) }
    {
        let room = ahead.len().max(LARGEST_PIECE);
        let mut buffer = Vec::with_capacity(alloc, room)?;
        buffer.extend_from_slice(ahead)?;
        buffer.resize(room, 0)?;
        Ok(Waiting {
            buffer,
            from: 0,
            to: ahead.len(),
        })
    }

    /// The bytes that wait.
    pub fn as_slice(&self) -> &[u8]
        ensures { result.now ≡ self.now }
    {
        &self.buffer[self.from..self.to]
    }

    /// Lets go of so many bytes at the front.
    pub fn skip(&mut self, count: usize)
        requires { count ≤ length self.old }
        ensures { self.new ≡ drop count self.old }
    {
        self.from += count;
    }

    /// Receives a piece of at most so many bytes in place of all that waits.
    pub fn fill<K: Link>(&mut self, link: &mut K, most: u64, awaited: Awaited) -> Got
        requires not_closed { IsNotClosed (K.tells link.old) }
        requires some { 0 < most }
        ensures given { Fills result most self.new (K.tells link.old) (K.tells link.new) }
        ensures faults_kept { (K.tells link.old).faults ≤ (K.tells link.new).faults }
        ensures ends_kept { (K.tells link.old).ends ≤ (K.tells link.new).ends }
        ensures still_open { IsNotClosed (K.tells link.new) }
    {
        self.from = 0;
        self.to = 0;
        let room = most.min(self.buffer.len() as u64) as usize;
        let got = receive(link, self.buffer.as_mut_slice(), room, awaited);
        if let Got::Bytes(count) = got {
            self.to = count;
        }
        got
    }
}

// Receives at most so many bytes into the front of the buffer.
fn receive<K: Link>(link: &mut K, into: &mut [u8], most: usize, awaited: Awaited) -> Got
    requires not_closed { IsNotClosed (K.tells link.old) }
    requires some { 0 < most }
    requires room { most ≤ length into.old }
    ensures given { RecvGives result into.new (K.tells link.old) (K.tells link.new) }
    ensures most { GotMost result most }
    ensures faults_kept { (K.tells link.old).faults ≤ (K.tells link.new).faults }
    ensures ends_kept { (K.tells link.old).ends ≤ (K.tells link.new).ends }
    ensures still_open { IsNotClosed (K.tells link.new) }
{
    link.recv(&mut into[..most], awaited)
}
