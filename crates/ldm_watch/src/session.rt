//! Watching over a link.
ghost use Rattle.std.specs.Prelude.{◌≡◌, ◌<◌, ◌≤◌, ◌∷◌, [], true, false, IfOk, IfNone, None, Some, length, take};
ghost use Rattle.std.specs.Option.{ForSome};
ghost use Rattle.std.specs.Vec.{vec_len};
ghost use Rattle.ldm_outside.specs.Link.{IsNotClosed};
ghost use Rattle.ldm_relay.specs.Sent as sent;
ghost use Rattle.ldm_rpc.specs.Reading.{is_faulty};
ghost use Rattle.ldm_relay.specs.Spelling.{records_of};
ghost use Rattle.ldm_watch.specs.Complete.{Completes};
ghost use Rattle.ldm_watch.specs.declared.watching.Phase.TheVariants as phase;
ghost use Rattle.ldm_watch.specs.Outside.{KeepsWatchCounts, WatchRecord, watch_tells};
ghost use Rattle.ldm_watch.specs.Sessions.{HasGiven, IsReady, Rounds, RunsOn, WritesAt, WritesLast};
ghost use Rattle.ldm_watch.specs.Sought.{Sought, sought_by};
ghost use Rattle.ldm_watch.specs.Told.{beginning};
ghost use Rattle.ldm_watch.specs.Watches.{Watches};

use crate::end::WatchEnd;
use crate::form::NoticeForm;
use crate::limits::LONGEST_PIECE;
use crate::notices::put_notifyme;
use crate::stop::Stop;
use crate::stream::Stream;
use crate::watching::{Phase, Watching, number_of_request};
use ldm_class::Class;
use ldm_outside::{Awaited, Got, Link, Sink, send_all, write_all};
use ldm_session::LONGEST_STREAM;
use ldm_types::OutOfMemory;
use std::alloc::Global;

/// Asks a peer to be told of the products of a class, and writes a line for each that it tells of, in that form:
/// `notice ARRIVAL SIG FEED SEQNO ORIGIN IDENT SIZE`. It goes on until the end of the stream, or until something ends
/// it, or to the end of so many notices where a count is given.
pub fn watch<K: Link, S: Sink>(
    alloc: Global,
    link: &mut K,
    sink: &mut S,
    class: &Class,
    count: Option<u64>,
    form: NoticeForm,
) -> WatchEnd
    requires not_closed { IsNotClosed (K.tells link.old) }
    requires counted { ForSome count (λ n. 0 < n) }
    ensures still_open { IsNotClosed (K.tells link.new) }
    ensures counts { KeepsWatchCounts (watch_tells K.tells S.tells link.old sink.old)
        (watch_tells K.tells S.tells link.new sink.new) }
    ensures watches { Watches result (record { class = class.now; count = count; form = form })
        (watch_tells K.tells S.tells link.old sink.old) (watch_tells K.tells S.tells link.new sink.new) }
    ensures completes { Completes result (record { class = class.now; count = count; form = form })
        (watch_tells K.tells S.tells link.old sink.old) (watch_tells K.tells S.tells link.new sink.new) }
{
    match Session::open(alloc, class, count, form) {
        Ok(session) => {
            let mut session = session;
            session.run(link, sink)
        }
        Err(_) => WatchEnd::OutOfMemory,
    }
}

// A stream that is watched, and the memory for a piece, for what the peer is owed and for lines.
#[derive(Drop)]
struct Session {
    stream: Stream,
    piece: Vec<u8>,
    out: Vec<u8>,
    lines: Vec<u8>,
}

impl Session {
    // Before the request is sent.
    fn open(
        alloc: Global,
        class: &Class,
        count: Option<u64>,
        form: NoticeForm,
    ) -> Result<Session, OutOfMemory>
        ensures stream { IfOk result
            (λ session. session.stream
            ≡ record {
              watching = record { class = class.now; phase = phase.Asked false; left = count; form = form };
              hand
                  = beginning;
            }) }
        ensures owed { IfOk result (λ session. session.out.items ≡ records_of (sent.Notifyme 1 class.now ∷ [])) }
        ensures no_lines { IfOk result (λ session. session.lines.items ≡ []) }
        ensures room { IfOk result (λ session. 0 < vec_len session.piece) }
    {
        let mut out = Vec::new(alloc);
        put_notifyme(&mut out, number_of_request(false), class.spec())?;
        let watching = Watching {
            class: class.spec().copy(),
            phase: Phase::Asked { again: false },
            left: count,
            form,
        };
        Ok(Session {
            stream: Stream::begin(alloc, watching),
            piece: vec![in alloc; 0u8; LONGEST_PIECE]?,
            out,
            lines: Vec::new(alloc),
        })
    }

    fn run<K: Link, S: Sink>(&mut self, link: &mut K, sink: &mut S) -> WatchEnd
        requires not_closed { IsNotClosed (K.tells link.old) }
        requires begins { (self.old.stream.hand ≡ beginning) × (self.old.stream.watching.phase ≡ phase.Asked false) }
        requires counted { ForSome self.old.stream.watching.left (λ n. 0 < n) }
        requires owed { self.old.out.items ≡ records_of (sent.Notifyme 1 self.old.stream.watching.class ∷ []) }
        requires no_lines { self.old.lines.items ≡ [] }
        requires room { 0 < vec_len self.old.piece }
        ensures still_open { IsNotClosed (K.tells link.new) }
        ensures counts { KeepsWatchCounts (watch_tells K.tells S.tells link.old sink.old)
            (watch_tells K.tells S.tells link.new sink.new) }
        ensures watches { Watches result (sought_by self.old.stream.watching)
            (watch_tells K.tells S.tells link.old sink.old) (watch_tells K.tells S.tells link.new sink.new) }
    {
        match self.write(link, sink) {
            Some(fault) => return fault,
            None => {}
        }
        for turns in 0..LONGEST_STREAM {
            match self.turn(link, sink) {
                Some(end) => return end,
                None => {}
            }
        }
        unreachable!()
    }

    // Receives a piece and takes it. Answers the end, where it came to one.
    fn turn<K: Link, S: Sink>(&mut self, link: &mut K, sink: &mut S) -> Option<WatchEnd>
        requires not_closed { IsNotClosed (K.tells link.old) }
        requires sound { is_faulty self.old.stream.hand.reading ≡ false }
        requires ready { IsReady self.old.out.items self.old.lines.items (vec_len self.old.piece) }
        ensures still_open { IsNotClosed (K.tells link.new) }
        ensures counts { KeepsWatchCounts (watch_tells K.tells S.tells link.old sink.old)
            (watch_tells K.tells S.tells link.new sink.new) }
        ensures ready { IfNone result (IsReady self.new.out.items self.new.lines.items (vec_len self.new.piece)) }
        ensures moves { IfNone result (self.old.stream.hand.came < self.new.stream.hand.came) }
        ensures rounds { (sought : Sought) (old : WatchRecord) → ForSome sought.count (λ n. 0 < n)
            → RunsOn sought old self.old.stream (watch_tells K.tells S.tells link.old sink.old)
            → Rounds result sought old self.new.stream (watch_tells K.tells S.tells link.new sink.new) }
    {
        let awaited = Awaited::Feed.or_rest(self.stream.is_pending());
        match link.recv(self.piece.as_mut_slice(), awaited) {
            Got::Bytes(count) => self.take(link, sink, count),
            Got::End => Some(self.stream.at_end()),
            Got::Failed => Some(WatchEnd::LinkFault),
        }
    }

    // Takes a piece of so many bytes.
    fn take<K: Link, S: Sink>(
        &mut self,
        link: &mut K,
        sink: &mut S,
        count: usize,
    ) -> Option<WatchEnd>
        requires not_closed { IsNotClosed (K.tells link.old) }
        requires sound { is_faulty self.old.stream.hand.reading ≡ false }
        requires ready { IsReady self.old.out.items self.old.lines.items (vec_len self.old.piece) }
        requires count { (0 < count) × (count ≤ vec_len self.old.piece) }
        ensures still_open { IsNotClosed (K.tells link.new) }
        ensures counts { KeepsWatchCounts (watch_tells K.tells S.tells link.old sink.old)
            (watch_tells K.tells S.tells link.new sink.new) }
        ensures ready { IfNone result (IsReady self.new.out.items self.new.lines.items (vec_len self.new.piece)) }
        ensures moves { IfNone result (self.old.stream.hand.came < self.new.stream.hand.came) }
        ensures takes { (sought : Sought) (old begins : WatchRecord) → ForSome sought.count (λ n. 0 < n)
            → RunsOn sought old self.old.stream begins
            → HasGiven (take count self.old.piece.items) begins (watch_tells K.tells S.tells link.old sink.old)
            → Rounds result sought old self.new.stream (watch_tells K.tells S.tells link.new sink.new) }
    {
        let piece = &self.piece[..count];
        match self
            .stream
            .take_piece(piece, &mut self.out, &mut self.lines)
        {
            None => self.write(link, sink),
            Some(Stop::Over(end)) => Some(self.write_last(link, sink, end)),
            Some(Stop::OutOfMemory) => Some(WatchEnd::OutOfMemory),
        }
    }

    // Sends and writes what a piece made that ended it so. Answers the end.
    fn write_last<K: Link, S: Sink>(
        &mut self,
        link: &mut K,
        sink: &mut S,
        end: WatchEnd,
    ) -> WatchEnd
        requires { IsNotClosed (K.tells link.old) }
        ensures writes { WritesLast result end self.old.out.items self.old.lines.items
            (watch_tells K.tells S.tells link.old sink.old) (watch_tells K.tells S.tells link.new sink.new) }
        ensures counts { KeepsWatchCounts (watch_tells K.tells S.tells link.old sink.old)
            (watch_tells K.tells S.tells link.new sink.new) }
        ensures still_open { IsNotClosed (K.tells link.new) }
    {
        match self.write(link, sink) {
            Some(fault) => fault,
            None => end,
        }
    }

    // Sends what the peer is owed, and writes the lines. Answers what failed.
    fn write<K: Link, S: Sink>(&mut self, link: &mut K, sink: &mut S) -> Option<WatchEnd>
        requires { IsNotClosed (K.tells link.old) }
        ensures writes { WritesAt result self.old.out.items self.old.lines.items
            (watch_tells K.tells S.tells link.old sink.old) (watch_tells K.tells S.tells link.new sink.new) }
        ensures empty { IfNone result ((self.new.out.items ≡ []) × (self.new.lines.items ≡ [])) }
        ensures same { (self.new.stream ≡ self.old.stream) × (vec_len self.new.piece ≡ vec_len self.old.piece) }
        ensures counts { KeepsWatchCounts (watch_tells K.tells S.tells link.old sink.old)
            (watch_tells K.tells S.tells link.new sink.new) }
        ensures still_open { IsNotClosed (K.tells link.new) }
    {
        if send_all(link, self.out.as_slice()).is_err() {
            return Some(WatchEnd::LinkFault);
        }
        self.out.clear();
        if write_all(sink, self.lines.as_slice()).is_err() {
            return Some(WatchEnd::SinkFault);
        }
        self.lines.clear();
        None
    }
}
