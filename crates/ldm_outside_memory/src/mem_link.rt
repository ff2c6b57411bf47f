//! Links in memory, which do as a script says.
ghost use Rattle.std.specs.Prelude.{◌≡◌, true, ◌+◌, ◌<◌, ◌≤◌, length, take, drop, OnOk, OnErr, IsOk, vec_len, vec_capacity};
ghost use Rattle.ldm_outside.specs.Link.{then_all, then_piece};
ghost use Rattle.ldm_outside.specs.declared.link.Way.TheVariants as way;
ghost use Rattle.ldm_outside_memory.specs.MemLink.{next_piece};

use crate::calls::Calls;
use ldm_outside::{Awaited, Got, Link, LinkFailed, Passed, Put, Way};
use std::alloc::{AllocError, Global};
use std::collections::VecDeque;
use std::marker::Model;

/// What a link in memory is to do. Its calls of `recv` and `send` are numbered together, from 1. Its peer is always
/// there.
#[derive(Drop)]
pub struct LinkScript {
    /// All bytes that it gives.
    pub bytes: Vec<u8>,
    /// The most bytes that each call of `recv` gives, in turn; behind the last, as many as the buffer holds. A call
    /// gives at least one byte, and one that fails or is at the end takes no turn.
    pub pieces: Vec<usize>,
    /// Whether the other side sends no more behind these bytes. Else each call there fails.
    pub has_end: bool,
    /// The most bytes that a call of `send` takes, which takes at least one where there is one.
    pub most_sent: usize,
    /// The numbers of the calls that fail, in any order.
    pub failing: Vec<u64>,
}

/// A link that does as its script says, and keeps what passed.
///
/// Without memory for what it is to keep, a call fails too.
#[derive(Drop)]
pub struct MemLink {
    bytes: Vec<u8>,
    at: usize,
    pieces: VecDeque<usize>,
    has_end: bool,
    passed: Vec<Passed>,
    calls: Calls,
    ends: u64,
    closed: bool,
}

impl Model for MemLink {
    ghost use Rattle.std.specs.Prelude.{◌≤◌, drop, length};
    ghost use Rattle.ldm_outside_memory.specs.MemLink.{LinkState};

    ghost Value = { LinkState };

    ghost view = { λ s. record {
      passed = s.passed.items;
      left = drop s.at s.bytes.items;
      pieces = s.pieces.items;
      has_end = s.has_end;
      ends = s.ends;
      faults = s.calls.faults;
      closed = s.closed;
      plan = s.calls.plan;
    } };

    ghost invariant = { λ s. s.at ≤ length s.bytes.items };
}

impl MemLink {
    ghost use Rattle.ldm_outside_memory.specs.MemLink.{first_link};

    /// A link that does as the script says.
    pub fn new(alloc: Global, script: LinkScript) -> MemLink
        ensures { result ≡ first_link script }
    {
        let LinkScript {
            bytes,
            pieces,
            has_end,
            most_sent,
            failing,
        } = script;
        let mut calls = Calls::new(failing);
        calls.limit_pieces(most_sent);
        MemLink {
            bytes,
            at: 0,
            pieces: VecDeque::from(pieces),
            has_end,
            passed: Vec::new(alloc),
            calls,
            ends: 0,
            closed: false,
        }
    }

    /// What passed, in order.
    pub fn passed(&self) -> &[Passed]
        ensures { result.now ≡ self.now.passed }
    {
        self.passed.as_slice()
    }

    /// How often it failed.
    pub fn faults(&self) -> u64
        ensures { result ≡ self.now.faults }
    {
        self.calls.faults()
    }

    /// How often it answered that it is at its end.
    pub fn ends(&self) -> u64
        ensures { result ≡ self.now.ends }
    {
        self.ends
    }

    /// Whether it was closed.
    pub fn is_closed(&self) -> bool
        ensures { result ≡ self.now.closed }
    {
        self.closed
    }
}

impl Link for MemLink {
    ghost use Rattle.ldm_outside.specs.Link.{IsNotClosed, RecvGives, SendGives};
    ghost use Rattle.ldm_outside_memory.specs.Memory.{moved};
    ghost use Rattle.ldm_outside_memory.specs.MemLink.{told_by_link, RecvsAsPlanned, SendsAsPlanned};

    ghost tells = { told_by_link };

    fn recv(&mut self, into: &mut [u8], _awaited: Awaited) -> Got
        requires room { 0 < length into.old }
        requires not_closed { IsNotClosed (told_by_link self.old) }
        ensures given { RecvGives result into.new (told_by_link self.old) (told_by_link self.new) }
        ensures faults_kept { self.old.faults ≤ self.new.faults }
        ensures ends_kept { self.old.ends ≤ self.new.ends }
        ensures still_open { IsNotClosed (told_by_link self.new) }
        ensures planned { RecvsAsPlanned result (length into.old) self.old self.new }
        ensures rest { drop (moved result) into.new ≡ drop (moved result) into.old }
    {
        if self.calls.begin().is_err() {
            return Got::Failed;
        }
        if self.at == self.bytes.len() {
            if self.has_end {
                self.ends = self.ends.saturating_add(1);
                return Got::End;
            }
            self.calls.fail();
            return Got::Failed;
        }
        let left = &self.bytes[self.at..];
        let n = left.len().min(next_most(&self.pieces)).min(into.len());
        if keep_piece(&mut self.passed, &left[..n]).is_err() {
            self.calls.fail();
            return Got::Failed;
        }
        copy_next(left, n, into);
        self.pieces.pop_front();
        self.at += n;
        Got::Bytes(n)
    }

    fn send(&mut self, piece: &[u8]) -> Put
        requires not_closed { IsNotClosed (told_by_link self.old) }
        ensures sent { SendGives result piece.now (told_by_link self.old) (told_by_link self.new) }
        ensures faults_kept { self.old.faults ≤ self.new.faults }
        ensures still_open { IsNotClosed (told_by_link self.new) }
        ensures planned { SendsAsPlanned result piece.now self.old self.new }
    {
        if self.calls.begin().is_err() {
            return Put::Failed;
        }
        let n = piece.len().min(self.calls.most());
        if keep_sent(&mut self.passed, &piece[..n]).is_err() {
            self.calls.fail();
            return Put::Failed;
        }
        Put::Took(n)
    }

    fn check_peer(&mut self) -> Result<(), LinkFailed>
        requires not_closed { IsNotClosed (told_by_link self.old) }
        ensures there { IsOk result }
        ensures same { self.new ≡ self.old }
    {
        Ok(())
    }

    fn close(&mut self)
        ensures closed { self.new ≡ record self.old { closed = true } }
    {
        self.closed = true;
    }
}

// The most bytes that the next call of `recv` gives.
fn next_most(pieces: &VecDeque<usize>) -> usize
    ensures most { result ≡ next_piece pieces.now.items }
    ensures some { 0 < result }
{
    match pieces.front() {
        Some(most) => (*most).max(1),
        None => usize::MAX,
    }
}

// Copies the first so many bytes to the front of the buffer.
fn copy_next(bytes: &[u8], n: usize, into: &mut [u8])
    requires bytes { n ≤ length bytes.now }
    requires room { n ≤ length into.old }
    ensures front { take n into.new ≡ take n bytes.now }
    ensures rest { drop n into.new ≡ drop n into.old }
{
    into[..n].copy_from_slice(&bytes[..n]);
}

// Keeps bytes that were sent, behind what passed before. Without memory this stays as it was.
fn keep_sent(passed: &mut Vec<Passed>, bytes: &[u8]) -> Result<(), AllocError>
    ensures kept { OnOk result (passed.new.items ≡ then_all way.Sent bytes.now passed.old.items) }
    ensures same { OnErr result (passed.new.items ≡ passed.old.items) }
{
    passed.reserve(bytes.len())?;
    push_all(passed, Way::Sent, bytes);
    Ok(())
}

// Keeps a piece that came with one call, behind what passed before. Without memory this stays as it was.
fn keep_piece(passed: &mut Vec<Passed>, bytes: &[u8]) -> Result<(), AllocError>
    ensures kept { OnOk result (passed.new.items ≡ then_piece bytes.now passed.old.items) }
    ensures same { OnErr result (passed.new.items ≡ passed.old.items) }
{
    passed.reserve(bytes.len())?;
    if let Some((first, rest)) = bytes.split_first() {
        passed.push_reserved(Passed {
            way: Way::First,
            byte: *first,
        });
        push_all(passed, Way::Given, rest);
    }
    Ok(())
}

// Pushes bytes that went one way.
fn push_all(passed: &mut Vec<Passed>, way: Way, bytes: &[u8])
    requires room { length bytes.now + vec_len passed.old ≤ vec_capacity passed.old }
    ensures pushed { passed.new.items ≡ then_all way bytes.now passed.old.items }
{
    for byte in bytes {
        passed.push_reserved(Passed { way, byte: *byte });
    }
}
