//! Streams of the system, as sources and sinks. A call of theirs is a call of the reader or the writer, which is made again
//! where a signal interrupted it; but a sink that gathers holds back what it took until there is much of it, or until it is
//! flushed.
ghost use Rattle.std.specs.Prelude.{◌≡◌, ◌≢◌, ◌≤◌, ◌<◌, ◌==◌, ◌||◌, ◌++◌, [], true, false, not, length, take, OnOk};
ghost use Rattle.std.specs.Prelude.{MatchResult, IfOk, IfErr, OnErr, if◌then◌else◌};
ghost use Rattle.std.specs.IoError.{error_kind};
ghost use Rattle.std.specs.Io.{ReadsAtMost, WritesAtMost};
ghost use Rattle.std.specs.Io.KnownBytes.{append_known, Appends, Consumes, IsAtEnd, Keeps};
ghost use Rattle.ldm_adapters.specs.Front.{GivesFront, TakesFront, TakesSome};

use ldm_outside::{Got, Put, Sink, SinkFailed, Source};
use std::alloc::Global;
use std::io::{self, ErrorKind, Read, Write};

/// How many bytes a sink that gathers holds back at most.
pub const MOST_GATHERED: usize = 65_536;

/// A source over a reader. As a source it does not tell what it has left.
///
/// Where the reader tells, a call takes from what it has left as the contract of [`Source`] says.
#[derive(Debug, Drop)]
pub struct RealSource<R> {
    reader: R,
    faults: u64,
    ends: u64,
}

/// A sink over a writer. As a sink it does not tell what it took.
///
/// Where the writer tells, a call adds to what it has and to what is held back as the contract of [`Sink`] says. A writer
/// that takes nothing of a piece that is not empty has failed.
#[derive(Debug, Drop)]
pub struct RealSink<W> {
    writer: W,
    faults: u64,
    // What was taken and not handed to the writer yet.
    held: Vec<u8>,
    // How many bytes may be held back.
    most: usize,
}

impl<R: Read> RealSource<R> {
    /// A source of what the reader gives.
    pub fn new(reader: R) -> RealSource<R>
        ensures { result ≡ record { reader = reader; faults = 0; ends = 0 } }
    {
        RealSource {
            reader,
            faults: 0,
            ends: 0,
        }
    }

    /// How often it failed.
    pub fn faults(&self) -> u64
        ensures { result ≡ self.now.faults }
    {
        self.faults
    }

    /// How often it was at its end.
    pub fn ends(&self) -> u64
        ensures { result ≡ self.now.ends }
    {
        self.ends
    }
}

impl<R: Read> Source for RealSource<R> {
    ghost use Rattle.std.specs.Prelude.{◌<◌, Some, None, IfSome, length};
    ghost use Rattle.ldm_outside.specs.Io.{ReadGives};

    ghost tells = { λ s. record { left = None; faults = s.faults; ends = s.ends } };

    fn read(&mut self, into: &mut [u8]) -> Got
        requires { 0 < length into.old }
        ensures given { ReadGives result into.new
            (record { left = None; faults = self.old.faults; ends = self.old.ends })
            (record { left = None; faults = self.new.faults; ends = self.new.ends }) }
        ensures faults_kept { self.old.faults ≤ self.new.faults }
        ensures known { IfSome (R.remaining self.old.reader) (λ left. ReadGives result into.new
            (record { left = Some left; faults = self.old.faults; ends = self.old.ends })
            (record { left = R.remaining self.new.reader; faults = self.new.faults; ends = self.new.ends })) }
    {
        let got = told_of_read(read_uninterrupted(&mut self.reader, into));
        match got {
            Got::Bytes(_) => {}
            Got::End => self.ends = self.ends.saturating_add(1),
            Got::Failed => self.faults = self.faults.saturating_add(1),
        }
        got
    }
}

impl<W: Write> RealSink<W> {
    /// A sink that hands all to the writer, at once until it gathers.
    pub fn new(alloc: Global, writer: W) -> RealSink<W>
        ensures writer { result.writer ≡ writer }
        ensures faults { result.faults ≡ 0 }
        ensures nothing_held { result.held.items ≡ [] }
    {
        RealSink {
            writer,
            faults: 0,
            held: Vec::new(alloc),
            most: 0,
        }
    }

    /// How often it failed.
    pub fn faults(&self) -> u64
        ensures { result ≡ self.now.faults }
    {
        self.faults
    }

    /// The writer. What was held back is lost.
    pub fn into_writer(self) -> W
        ensures { result ≡ self.writer }
    {
        self.writer
    }

    // Holds a piece back, where it gathers and there is room and memory. Whether it does.
    fn hold(&mut self, piece: &[u8]) -> bool
        ensures held { result ≡ true → self.new.held.items ≡ self.old.held.items ++ piece.now }
        ensures not { result ≡ false → self.new.held.items ≡ self.old.held.items }
        ensures rest { (self.new.writer ≡ self.old.writer) × (self.new.faults ≡ self.old.faults) }
    {
        if self.held.len() >= self.most || piece.len() > self.most - self.held.len() {
            return false;
        }
        self.held.extend_from_slice(piece).is_ok()
    }

    // Hands what is held back to the writer. Where that fails, what the writer did not take stays.
    fn hand_on(&mut self) -> Result<(), SinkFailed>
        ensures done { OnOk result (self.new.held.items ≡ []) }
        ensures all { Keeps (append_known (W.contents self.old.writer) self.old.held.items)
            (append_known (W.contents self.new.writer) self.new.held.items) }
        ensures faults { self.new.faults ≡ self.old.faults }
    {
        let mut at = 0;
        while at < self.held.len() {
            match told_of_write(
                write_uninterrupted(&mut self.writer, &self.held[at..]),
                self.held.len() - at,
            ) {
                Put::Took(n) => at += n,
                Put::Failed => {
                    self.held.drain(..at);
                    return Err(SinkFailed);
                }
            }
        }
        self.held.clear();
        Ok(())
    }
}

impl<W: Write> Sink for RealSink<W> {
    ghost use Rattle.std.specs.Prelude.{Some, None, IfSome};
    ghost use Rattle.ldm_outside.specs.Io.{WriteGives, FlushGives};

    ghost tells = { λ s. record { written = None; faults = s.faults } };

    ghost is_handed_on = { λ s. s.held.items ≡ [] };

    fn write(&mut self, piece: &[u8]) -> Put
        ensures taken { WriteGives result piece.now (record { written = None; faults = self.old.faults })
            (record { written = None; faults = self.new.faults }) }
        ensures faults_kept { self.old.faults ≤ self.new.faults }
        ensures known { IfSome (W.contents self.old.writer) (λ before. WriteGives result piece.now
            (record { written = Some (before ++ self.old.held.items); faults = self.old.faults })
            (record { written = append_known (W.contents self.new.writer) self.new.held.items; faults = self.new.faults })) }
    {
        if self.hold(piece) {
            return Put::Took(piece.len());
        }
        if self.flush().is_err() {
            return Put::Failed;
        }
        let put = told_of_write(write_uninterrupted(&mut self.writer, piece), piece.len());
        match put {
            Put::Took(_) => {}
            Put::Failed => self.faults = self.faults.saturating_add(1),
        }
        put
    }

    fn gather(&mut self)
        ensures { self.new ≡ record self.old { most = MOST_GATHERED } }
    {
        self.most = MOST_GATHERED;
    }

    fn flush(&mut self) -> Result<(), SinkFailed>
        ensures flushed { FlushGives result (record { written = None; faults = self.old.faults })
            (record { written = None; faults = self.new.faults }) }
        ensures handed_on { OnOk result (self.new.held.items ≡ []) }
        ensures faults_kept { self.old.faults ≤ self.new.faults }
        ensures all { Keeps (append_known (W.contents self.old.writer) self.old.held.items)
            (append_known (W.contents self.new.writer) self.new.held.items) }
    {
        let handed = self.hand_on();
        if handed.is_err() {
            self.faults = self.faults.saturating_add(1);
        }
        handed
    }
}

// What a reader's answer, at a buffer that has room, means of a source.
pub(crate) fn told_of_read(answer: io::Result<usize>) -> Got
    ensures { MatchResult answer (λ n. result ≡ (if n == 0 then Got.End else Got.Bytes n)) (λ _. result ≡ Got.Failed) }
{
    match answer {
        Ok(0) => Got::End,
        Ok(n) => Got::Bytes(n),
        Err(_) => Got::Failed,
    }
}

// What a writer's answer, at a piece of so many bytes, means of a sink: to take nothing of a piece that is not empty
// is to fail.
pub(crate) fn told_of_write(answer: io::Result<usize>, len: usize) -> Put
    ensures { MatchResult answer (λ n. result ≡ (if not (n == 0) || len == 0 then Put.Took n else Put.Failed))
        (λ _. result ≡ Put.Failed) }
{
    match answer {
        Ok(0) if len > 0 => Put::Failed,
        Ok(n) => Put::Took(n),
        Err(_) => Put::Failed,
    }
}

// One read of a reader that tells nothing, as a source answers it.
pub(crate) fn read_once<R: Read>(reader: &mut R, into: &mut [u8]) -> Got
    requires { 0 < length into.old }
    ensures { GivesFront result into.new }
{
    told_of_read(read_uninterrupted(reader, into))
}

// One write to a writer that tells nothing, as a sink answers it.
pub(crate) fn write_once<W: Write>(writer: &mut W, piece: &[u8]) -> Put
    ensures { TakesFront result piece.now }
{
    told_of_write(write_uninterrupted(writer, piece), piece.len())
}

// One write to a writer that tells nothing: how many bytes of the piece it took, or what the system said.
pub(crate) fn write_some<W: Write>(writer: &mut W, piece: &[u8]) -> io::Result<usize>
    ensures { IfOk result (λ n. TakesSome n piece.now) }
{
    match write_uninterrupted(writer, piece) {
        Ok(0) if !piece.is_empty() => Err(io::Error::from(ErrorKind::WriteZero)),
        answer => answer,
    }
}

// One read, tried again each time a signal interrupts it.
fn read_uninterrupted<R: Read>(reader: &mut R, into: &mut [u8]) -> io::Result<usize>
    ensures bound { ReadsAtMost result into.new }
    ensures consumed { IfOk result (λ n. Consumes (R.remaining reader.old) (R.remaining reader.new) (take n into.new)) }
    ensures end { IfOk result (λ n. n ≡ 0 → 0 < length into.old → IsAtEnd (R.remaining reader.new)) }
    ensures none_lost { OnErr result (Keeps (R.remaining reader.old) (R.remaining reader.new)) }
    ensures retried { IfErr result (λ error. error_kind error ≢ ErrorKind.Interrupted) }
{
    for _ in 0..u64::MAX {
        match reader.read(into) {
            Err(error) if error.kind() == ErrorKind::Interrupted => {}
            answer => return answer,
        }
    }
    Err(io::Error::from(ErrorKind::TimedOut))
}

// One write, tried again each time a signal interrupts it.
fn write_uninterrupted<W: Write>(writer: &mut W, piece: &[u8]) -> io::Result<usize>
    ensures bound { WritesAtMost result piece.now }
    ensures appended { IfOk result (λ n. Appends (W.contents writer.old) (W.contents writer.new) (take n piece.now)) }
    ensures none_taken { OnErr result (Keeps (W.contents writer.old) (W.contents writer.new)) }
    ensures retried { IfErr result (λ error. error_kind error ≢ ErrorKind.Interrupted) }
{
    for _ in 0..u64::MAX {
        match writer.write(piece) {
            Err(error) if error.kind() == ErrorKind::Interrupted => {}
            answer => return answer,
        }
    }
    Err(io::Error::from(ErrorKind::TimedOut))
}
