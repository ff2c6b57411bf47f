//! What takes the bytes of a stream: its records, one after another.
ghost use Rattle.std.specs.Prelude.{◌≡◌, ◌≤◌, ◌<◌, ◌+◌, ◌∷◌, [], ℕ, true, false, IfOk, IfNone};
ghost use Rattle.std.specs.Prelude.{IfSome, MatchOption, OnOk, OnErr, None, Some, length};
ghost use Rattle.std.specs.Option.{option_copied};
ghost use Rattle.ldm_rpc.specs.Reading.{is_faulty, is_pending};
ghost use Rattle.ldm_rpc.specs.Streams.{Position};
ghost use Rattle.ldm_session.specs.declared.limits.TheConstants.{LONGEST_STREAM};
ghost use Rattle.ldm_watch.specs.Taking.{Finds, standing};
ghost use Rattle.ldm_watch.specs.Told.{at_stream_end, beginning};
ghost use Rattle.ldm_watch.specs.Turns.{Turns, Runs, Passes};

use crate::end::WatchEnd;
use crate::stop::Stop;
use crate::watching::{Phase, Watching};
use ldm_relay::LONGEST_CALL;
use ldm_rpc::{Records, RpcFault};
use ldm_session::LONGEST_STREAM;
use std::alloc::Global;
use std::marker::Model;

/// What takes the bytes of a stream, from its first one on.
#[derive(Drop)]
pub(crate) struct Stream {
    alloc: Global,
    watching: Watching,
    records: Records,
    begins: u64,
    came: u64,
}

impl Model for Stream {
    ghost use Rattle.ldm_watch.specs.StreamView.{StreamView};

    ghost Value = { StreamView };

    ghost use Rattle.ldm_watch.specs.InsideStream.{stream_of, IsKept};

    ghost view = { stream_of };

    ghost invariant = { IsKept };
}

impl Stream {
    /// Before the first byte of the stream.
    pub(crate) fn begin(alloc: Global, watching: Watching) -> Stream
        ensures { result ≡ record { watching = watching; hand = beginning } }
    {
        Stream {
            alloc,
            watching,
            records: Records::create(alloc, LONGEST_CALL),
            begins: 0,
            came: 0,
        }
    }

    /// Whether a record was begun and is not complete.
    pub(crate) fn is_pending(&self) -> bool
        ensures { result ≡ is_pending self.now.hand.reading }
    {
        self.records.pending()
    }

    /// How it ends where the stream ends there.
    pub(crate) fn at_end(&self) -> WatchEnd
        ensures { result ≡ at_stream_end self.now.hand self.now.watching.phase }
    {
        if !self.records.pending() && matches!(self.watching.phase, Phase::Told) {
            WatchEnd::Ended
        } else {
            WatchEnd::Truncated { at: self.came }
        }
    }

    /// Takes of a piece what the limit leaves. Appends what the peer is owed to `out`, and the lines of notices to
    /// `lines`. Answers why no more is taken, where that is so.
    pub(crate) fn take_piece(
        &mut self,
        piece: &[u8],
        out: &mut Vec<u8>,
        lines: &mut Vec<u8>,
    ) -> Option<Stop>
        requires { is_faulty self.old.hand.reading ≡ false }
        ensures { Passes result piece.now self.old.hand self.new.hand
            (standing self.old.watching out.old lines.old) (standing self.new.watching out.new lines.new) }
    {
        let room = LONGEST_STREAM - self.came;
        let taken = room.min(piece.len() as u64) as usize;
        let stop = self.take_bytes(&piece[..taken], out, lines);
        if stop.is_none() && self.came == LONGEST_STREAM {
            return Some(Stop::Over(WatchEnd::StreamLimit));
        }
        stop
    }

    // Takes the records that these bytes complete.
    fn take_bytes(&mut self, bytes: &[u8], out: &mut Vec<u8>, lines: &mut Vec<u8>) -> Option<Stop>
        requires sound { is_faulty self.old.hand.reading ≡ false }
        requires room { self.old.hand.came + length bytes.now ≤ LONGEST_STREAM }
        ensures { Runs result bytes.now self.old.hand self.new.hand
            (standing self.old.watching out.old lines.old) (standing self.new.watching out.new lines.new) }
    {
        // What is kept is known here.
        let _ = &self.watching;
        let mut rest = bytes;
        while !rest.is_empty() {
            match self.take_first(rest, out, lines) {
                Ok(count) => rest = &rest[count..],
                Err(stop) => return Some(stop),
            }
        }
        None
    }

    // Takes the record that these bytes complete first, or all of them where they complete none, and answers how many
    // bytes that are.
    fn take_first(
        &mut self,
        bytes: &[u8],
        out: &mut Vec<u8>,
        lines: &mut Vec<u8>,
    ) -> Result<usize, Stop>
        requires some { 0 < length bytes.now }
        requires room { self.old.hand.came + length bytes.now ≤ LONGEST_STREAM }
        ensures { Turns result bytes.now self.old.hand self.new.hand
            (standing self.old.watching out.old lines.old) (standing self.new.watching out.new lines.new) }
    {
        let count = match self.records.push(bytes) {
            Ok(count) => count,
            Err(RpcFault::TooLong { .. }) => {
                return Err(Stop::Over(WatchEnd::BadFrame { at: self.begins }));
            }
            Err(RpcFault::OutOfMemory) => return Err(Stop::OutOfMemory),
        };
        self.came += count as u64;
        let content = self.records.whole();
        let is_whole = content.is_some();
        let stop = take_content(
            &mut self.watching,
            self.alloc,
            content,
            self.begins,
            out,
            lines,
        );
        self.records.next();
        if let Some(stop) = stop {
            return Err(stop);
        }
        if is_whole {
            self.begins = self.came;
        }
        Ok(count)
    }
}

// Takes the content of a record that begins there, if there is one. Answers why no more is taken, where that is so.
fn take_content(
    watching: &mut Watching,
    alloc: Global,
    content: Option<&[u8]>,
    at: u64,
    out: &mut Vec<u8>,
    lines: &mut Vec<u8>,
) -> Option<Stop>
    ensures { Finds result at (option_copied content.entry) (standing watching.old out.old lines.old)
        (standing watching.new out.new lines.new) }
{
    watching.take_record(alloc, content?, at, out, lines)
}
