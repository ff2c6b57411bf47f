//! The records that a link gives, one at a time.
ghost use Rattle.std.specs.Prelude.{◌≡◌, ◌≤◌, ℕ, [], List, true, false, IfErr, IfOk, OnOk};
ghost use Rattle.ldm_outside.specs.Link.{IsNotClosed};
ghost use Rattle.ldm_rpc.specs.Reading.{is_whole};
ghost use Rattle.ldm_rpc.specs.Streams.{Placed};

use ldm_outside::{Awaited, Got, Link};
use ldm_relay::LARGEST_REPLY;
use ldm_rpc::{Records, RpcFault};
use ldm_session::{LONGEST_STREAM, Waiting};
use ldm_types::OutOfMemory;
use std::alloc::Global;

/// Why no record was heard.
#[derive(Clone, Copy, Debug, PartialEq, Eq)]
pub(crate) enum NoRecord {
    /// The peer ended the stream after so many bytes.
    Ended { at: u64 },
    /// The record that begins there is longer than a reply may be.
    TooLong { at: u64 },
    /// As many bytes came as are taken of a stream.
    StreamLimit,
    /// The link failed.
    LinkFault,
    /// There is no memory.
    OutOfMemory,
}

/// A reader of the records that a link gives, which are heard one at a time. None is longer than a reply may be.
///
/// It takes all its memory at once, but for the content of the record in hand, which has at most [`LARGEST_REPLY`]
/// bytes. After a [`NoRecord`] it is of no more use.
#[derive(Drop)]
pub(crate) struct LinkReader {
    records: Records,
    // How many bytes came before the record in hand, and how many were looked at.
    begins: u64,
    came: u64,
    waiting: Waiting,
}

impl LinkReader {
    ghost use Rattle.ldm_tools.specs.Hearing.{Heard, Hears};
    ghost use Rattle.ldm_tools.specs.Looking.{Forgets, IsOwn, Pushes, Receives, Shows, WaitsOn};

    /// A reader of a link that gave nothing yet.
    pub(crate) fn create(alloc: Global) -> Result<LinkReader, OutOfMemory>
        ensures { IfOk result (λ reader. Heard [] [] reader) }
    {
        Ok(LinkReader {
            records: Records::create(alloc, LARGEST_REPLY),
            begins: 0,
            came: 0,
            waiting: Waiting::create(alloc, &[])?,
        })
    }

    /// Hears the next record that the link gives. It receives no more than that takes, but what comes with the record
    /// waits for the next call.
    pub(crate) fn hear<K: Link>(&mut self, link: &mut K) -> Result<(), NoRecord>
        requires { IsNotClosed (K.tells link.old) }
        ensures heard { Hears result self.old self.new (K.tells link.old) (K.tells link.new) }
        ensures whole { OnOk result (is_whole self.new.records ≡ true) }
        ensures faults_kept { (K.tells link.old).faults ≤ (K.tells link.new).faults }
        ensures ends_kept { (K.tells link.old).ends ≤ (K.tells link.new).ends }
        ensures still_open { IsNotClosed (K.tells link.new) }
    {
        self.forget();
        while !self.look()? {
            self.receive(link)?;
        }
        Ok(())
    }

    /// The content of the record that was heard last.
    pub(crate) fn content(&self) -> &[u8]
        requires { is_whole self.now.records ≡ true }
        ensures { result.now ≡ self.now.records.content }
    {
        match self.records.whole() {
            Some(content) => content,
            None => unreachable!(),
        }
    }

    /// The place of its first byte in the stream.
    pub(crate) fn place(&self) -> u64
        ensures { result ≡ self.now.begins }
    {
        self.begins
    }

    // Whether the record in hand is complete.
    fn is_whole(&self) -> bool
        ensures { result ≡ is_whole self.now.records }
    {
        self.records.whole().is_some()
    }

    // Forgets the record that was heard last.
    fn forget(&mut self)
        ensures { Forgets self.old self.new }
    {
        if self.is_whole() {
            self.begins = self.came;
        }
        self.records.next();
    }

    // Looks at what waits, and answers whether the record in hand is complete. Else more has to come for it.
    fn look(&mut self) -> Result<bool, NoRecord>
        requires { is_whole self.old.records ≡ false }
        ensures shows { (given : List ℕ) (heard : List Placed) → Heard given heard self.old
            → Shows result given heard self.new }
        ensures own { IfErr result IsOwn }
        ensures waits { WaitsOn result self.old self.new }
    {
        match self.push() {
            Ok(()) => Ok(self.is_whole()),
            Err(RpcFault::TooLong { .. }) => Err(NoRecord::TooLong { at: self.begins }),
            Err(RpcFault::OutOfMemory) => Err(NoRecord::OutOfMemory),
        }
    }

    // Looks at what waits, up to the end of the record in hand.
    fn push(&mut self) -> Result<(), RpcFault>
        requires { is_whole self.old.records ≡ false }
        ensures { Pushes result self.old self.new }
    {
        let taken = self.records.push(self.waiting.as_slice())?;
        self.came = self.came.saturating_add(taken as u64);
        self.waiting.skip(taken);
        Ok(())
    }

    // Receives a piece in place of what waits.
    fn receive<K: Link>(&mut self, link: &mut K) -> Result<(), NoRecord>
        requires { IsNotClosed (K.tells link.old) }
        ensures received { Receives result self.old self.new (K.tells link.old) (K.tells link.new) }
        ensures faults_kept { (K.tells link.old).faults ≤ (K.tells link.new).faults }
        ensures ends_kept { (K.tells link.old).ends ≤ (K.tells link.new).ends }
        ensures still_open { IsNotClosed (K.tells link.new) }
    {
        let room = LONGEST_STREAM.saturating_sub(self.came);
        if room == 0 {
            return Err(NoRecord::StreamLimit);
        }
        let awaited = Awaited::Reply.or_rest(self.records.pending());
        match self.waiting.fill(link, room, awaited) {
            Got::Bytes(_) => Ok(()),
            Got::End => Err(NoRecord::Ended { at: self.came }),
            Got::Failed => Err(NoRecord::LinkFault),
        }
    }
}
