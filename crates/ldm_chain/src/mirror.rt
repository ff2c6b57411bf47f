//! A link that owns the receiver of the next queue.
ghost use Rattle.std.specs.Prelude.{◌≡◌, ◌≤◌, ◌<◌, ◌+◌, length, take, drop, min, nat_le, is_some, true, vec_len};
ghost use Rattle.ldm_shared.specs.Passes.{IsPassOf, IsSamePass};
ghost use Rattle.ldm_session.specs.declared.limits.TheConstants.{LONGEST_STREAM};
ghost use Rattle.ldm_intake.specs.Opening.{request_of};
ghost use Rattle.ldm_relay.specs.Spelling.{records_of};
ghost use Rattle.ldm_downstream.specs.ReceiverView.{before_stream};
ghost use Rattle.ldm_downstream.specs.Receives.{at_first};
ghost use Rattle.ldm_chain.specs.Ending.{end_pushed};

use crate::told::{Passing, Told};
use ldm_downstream::{Pushed, Receiver};
use ldm_intake::RecvEnd;
use ldm_outside::{Awaited, Got, Link, LinkFailed, Put};
use ldm_session::LONGEST_STREAM;
use ldm_shared::{Pass, Shared};
use ldm_types::Micros;
use std::alloc::Global;
use std::marker::{Brand, Model, PhantomData};
use std::sync::Wait;

/// How a mirror began, which contracts alone know: it stands for the type of each mirror, so that it is known whatever
/// a mirror was lent to.
pub trait Begun {
    ghost use Rattle.ldm_chain.specs.Beginning.{Beginning};

    ghost begun: { Beginning };
}

impl Begun for Brand {
    ghost use Rattle.ldm_chain.specs.Beginning.{no_beginning};

    ghost begun = { no_beginning };
}

/// The pass that a mirror is lent.
#[derive(Drop)]
pub struct Lent<'a> {
    pub pass: &'a mut Pass,
}

/// What a mirror hands back.
#[derive(Drop)]
pub struct Returned<'a> {
    pub lent: Lent<'a>,
    /// How the receiver ended, where it is over.
    pub end: Option<RecvEnd>,
}

/// A link that owns the receiver of a queue: what it is sent is pushed into the receiver, all at one moment, and what
/// the receiver replies is what it gives.
///
/// A send in whose push the receiver ends takes its piece; each later one fails. So does a send of more than there is
/// room for: a mirror takes fewer bytes than a stream may have, in all. What is logged is forgotten.
///
/// Where no reply waits, receiving fails if the receiver is over. Else it waits for ever, as on a link whose peer has
/// no more to say: a feeder asks only where a reply is owed, and a receiver that goes on replied when it took the
/// announcement. That a feeder therefore never waits is not proved.
#[derive(Drop)]
pub struct Mirror<'a, 'p, H, B: Begun> {
    rt: &'a H,
    shared: &'a Shared,
    pass: &'p mut Pass,
    receiver: Receiver<'a>,
    now: Micros,
    // How many bytes it was sent.
    sent: u64,
    // What the receiver replied, and how many bytes of it were received.
    replies: Vec<u8>,
    read: usize,
    notes: Vec<u8>,
    over: Option<RecvEnd>,
    faults: u64,
    closed: bool,
    told: Told,
    of: PhantomData<B>,
}

impl<'a, 'p, H, B: Begun> Model for Mirror<'a, 'p, H, B> {
    ghost use Rattle.ldm_chain.specs.MirrorView.{MirrorView};

    ghost Value = { MirrorView };

    ghost use Rattle.ldm_chain.specs.Reflecting.{IsKept, mirror_of};

    ghost view = { λ m. mirror_of m.told.passed m.faults m.closed m.read m.replies.items m.receiver m.pass.now };

    ghost invariant = { λ m. IsKept B.begun m.shared.now m.pass.ghost_name m.now m.sent m.read m.replies.items m.over
        (mirror_of m.told.passed m.faults m.closed m.read m.replies.items m.receiver m.pass.now) };
}

impl<'a, 'p, H, B: Begun> Mirror<'a, 'p, H, B> {
    ghost use Rattle.std.specs.Prelude.{[], false};
    ghost use Rattle.ldm_outside.specs.Link.{bytes_sent};
    ghost use Rattle.ldm_chain.specs.MirrorView.{all_read};
    ghost use Rattle.ldm_chain.specs.Reflecting.{Reflects};

    /// A mirror before the first byte of a stream. `request` is the record of the request that the receiver begins
    /// with, as [`Receiver::begin`] wrote it.
    pub fn over(
        rt: &'a H,
        alloc: Global,
        shared: &'a Shared,
        lent: Lent<'p>,
        receiver: Receiver<'a>,
        request: Vec<u8>,
        now: Micros,
    ) -> Mirror<'a, 'p, H, B>
        requires of { IsPassOf shared.now lent.pass.now }
        requires before { receiver ≡ before_stream receiver.receiving false }
        requires asks { request.items ≡ records_of (request_of receiver.receiving) }
        requires first { B.begun.first ≡ at_first receiver.receiving lent.pass.now }
        requires moment { B.begun.now ≡ now }
        requires name { B.begun.name ≡ lent.pass.ghost_name }
        ensures { result ≡ record {
          passed = [];
          faults = 0;
          closed = false;
          waiting = request.items;
          receiver
              = receiver.entry;
          pass = lent.entry.pass.now;
        } }
    {
        let Lent { pass } = lent;
        Mirror {
            rt,
            shared,
            pass,
            receiver,
            now,
            sent: 0,
            replies: request,
            read: 0,
            notes: Vec::new(alloc),
            over: None,
            faults: 0,
            closed: false,
            told: Told::new(),
            of: PhantomData,
        }
    }

    /// Takes the request that waits as read: all that waits.
    pub fn take_request(&mut self)
        ensures { self.new ≡ all_read self.old }
    {
        let waiting = &self.replies[self.read..];
        self.told = self.told.then(&Passing::Given(waiting));
        self.replies.clear();
        self.read = 0;
    }

    /// Whether the receiver is over. What it took and replied so far is what passed.
    pub fn is_over(&self) -> bool
        ensures over { result ≡ is_some self.entry.now.receiver.end }
        ensures reflects { Reflects B.begun self.entry.now }
    {
        self.over.is_some()
    }

    /// Takes it apart. What its receiver took and replied is what passed.
    pub fn into_parts(self) -> Returned<'p>
        ensures name { result.lent.pass.ghost_name ≡ B.begun.name }
        ensures pass { result.lent.pass.now ≡ self.entry.pass }
        ensures same { IsSamePass B.begun.first.pass self.entry.pass }
        ensures end { result.end ≡ self.entry.receiver.end }
        ensures few { length (bytes_sent self.entry.passed) < LONGEST_STREAM }
        ensures reflects { Reflects B.begun self.entry }
    {
        let Mirror { pass, over, .. } = self;
        Returned {
            lent: Lent { pass },
            end: over,
        }
    }
}

impl<'a, 'p, H: Wait, B: Begun> Link for Mirror<'a, 'p, H, B> {
    ghost use Rattle.std.specs.Prelude.{drop, true};
    ghost use Rattle.ldm_outside.specs.Link.{ChecksPeer, IsNotClosed, RecvGives, SendGives};
    ghost use Rattle.ldm_chain.specs.MirrorView.{RecvsFrom, SendsTo, told_by_mirror};

    ghost tells = { told_by_mirror };

    fn recv(&mut self, into: &mut [u8], _awaited: Awaited) -> Got
        requires room { 0 < length into.old }
        requires not_closed { IsNotClosed (told_by_mirror self.old) }
        ensures given { RecvGives result into.new (told_by_mirror self.old) (told_by_mirror self.new) }
        ensures faults_kept { self.old.faults ≤ self.new.faults }
        ensures ends_kept { (told_by_mirror self.old).ends ≤ (told_by_mirror self.new).ends }
        ensures still_open { IsNotClosed (told_by_mirror self.new) }
        ensures waited { RecvsFrom result (length into.old) self.old self.new }
    {
        let waiting = &self.replies[self.read..];
        if waiting.is_empty() {
            if self.over.is_none() {
                wait_for_ever(self.rt)
            }
            self.faults = self.faults.saturating_add(1);
            return Got::Failed;
        }
        let n = copy_front(waiting, into);
        self.told = self.told.then(&Passing::Given(&waiting[..n]));
        self.read += n;
        Got::Bytes(n)
    }

    fn send(&mut self, piece: &[u8]) -> Put
        requires not_closed { IsNotClosed (told_by_mirror self.old) }
        ensures sent { SendGives result piece.now (told_by_mirror self.old) (told_by_mirror self.new) }
        ensures faults_kept { self.old.faults ≤ self.new.faults }
        ensures still_open { IsNotClosed (told_by_mirror self.new) }
        ensures whole { SendsTo result piece.now self.old self.new }
    {
        if self.over.is_some() {
            self.faults = self.faults.saturating_add(1);
            return Put::Failed;
        }
        if is_too_much(self.sent, piece) {
            self.faults = self.faults.saturating_add(1);
            return Put::Failed;
        }
        self.read = forget_read(&mut self.replies, self.read);
        self.notes.clear();
        let pushed = self.receiver.push(
            self.shared,
            self.rt,
            self.pass,
            piece,
            self.now,
            &mut self.replies,
            &mut self.notes,
        );
        self.over = end_pushed(pushed);
        self.told = self.told.then(&Passing::Sent(piece));
        self.sent += piece.len() as u64;
        Put::Took(piece.len())
    }

    fn check_peer(&mut self) -> Result<(), LinkFailed>
        requires not_closed { IsNotClosed (told_by_mirror self.old) }
        ensures checked { ChecksPeer result (told_by_mirror self.old) (told_by_mirror self.new) }
        ensures faults_kept { self.old.faults ≤ self.new.faults }
        ensures still_open { IsNotClosed (told_by_mirror self.new) }
        ensures same { self.new ≡ self.old }
    {
        Ok(())
    }

    fn close(&mut self)
        ensures { self.new ≡ record self.old { closed = true } }
    {
        self.closed = true;
    }
}

// Waits, and does not return.
fn wait_for_ever<H: Wait>(rt: &H) -> ! {
    for _ in rt.forever() {}
    unreachable!()
}

// Whether there is no room for a piece behind so many bytes.
fn is_too_much(sent: u64, piece: &[u8]) -> bool
    requires { sent < LONGEST_STREAM }
    ensures { result ≡ nat_le LONGEST_STREAM (sent + length piece.now) }
{
    (piece.len() as u64) >= LONGEST_STREAM - sent
}

// How the receiver ended, by what a push answered.
fn end_pushed(pushed: Pushed) -> Option<RecvEnd>
    ensures { result ≡ end_pushed pushed }
{
    match pushed {
        Pushed::On => None,
        Pushed::Over(end) => Some(end),
        Pushed::OutOfMemory => Some(RecvEnd::OutOfMemory),
    }
}

// Forgets the replies where so many bytes, all of them, were received. Answers how many of those that are left were.
fn forget_read(replies: &mut Vec<u8>, read: usize) -> usize
    requires { read ≤ vec_len replies.old }
    ensures within { result ≤ vec_len replies.new }
    ensures rest { drop result replies.new.items ≡ drop read replies.old.items }
{
    if read < replies.len() {
        return read;
    }
    replies.clear();
    0
}

// Copies as many bytes as there are and as fit, to the front of the buffer, and answers how many.
fn copy_front(bytes: &[u8], into: &mut [u8]) -> usize
    ensures count { result ≡ min (length bytes.now) (length into.old) }
    ensures front { take result into.new ≡ take result bytes.now }
{
    let n = bytes.len().min(into.len());
    into[..n].copy_from_slice(&bytes[..n]);
    n
}
