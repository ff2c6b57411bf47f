//! Streams of bytes: where they come from and where they go.
ghost use Rattle.std.specs.Prelude.{◌≡◌, ◌<◌, ◌≤◌, length};
ghost use Rattle.ldm_outside.specs.Io.{SourceRecord, SinkRecord, WritesAll};

/// What a source gave.
#[derive(Clone, Copy, Debug, PartialEq, Eq)]
pub enum Got {
    /// So many bytes, at least one, at the front of the buffer.
    Bytes(usize),
    /// Nothing: the source is at its end.
    End,
    /// Nothing: the source failed, and its count of faults rose.
    Failed,
}

/// What a sink took.
#[derive(Clone, Copy, Debug, PartialEq, Eq)]
pub enum Put {
    /// So many bytes of the piece, from its front; at least one where the piece is not empty.
    Took(usize),
    /// Nothing: the sink failed, and its count of faults rose.
    Failed,
}

/// A stream that bytes are read from.
pub trait Source {
    ghost use Rattle.ldm_outside.specs.Io.{ReadGives};

    /// What it tells: the bytes that it has left, if it tells these, and how often it failed and was at its end. A
    /// count stands still at the end of `u64`.
    ghost tells: { Self → SourceRecord };

    /// Reads some bytes into the front of the buffer, which has room for one at least.
    ///
    /// A failure loses no byte, so a caller may read on after it. The buffer behind the bytes that came, and all
    /// of it where none came, may hold anything.
    fn read(&mut self, into: &mut [u8]) -> Got
        requires { 0 < length into.old }
        ensures given { ReadGives result into.new (tells self.old) (tells self.new) }
        ensures faults_kept { (tells self.old).faults ≤ (tells self.new).faults };
}

/// A stream that bytes are written to.
pub trait Sink {
    ghost use Rattle.ldm_outside.specs.Io.{WriteGives, FlushGives};
    ghost use Rattle.std.specs.Prelude.{OnOk};

    /// What it tells: all bytes that it took, if it tells these, and how often it failed. The count stands still at
    /// the end of `u64`.
    ghost tells: { Self → SinkRecord };

    /// That it keeps nothing back: all that it took is handed on.
    ghost is_handed_on: { Self → Type 0 };

    /// Writes some bytes from the front of the piece: what is left of it is the caller's to write.
    ///
    /// Where it fails it took nothing, so a caller may write the piece again.
    fn write(&mut self, piece: &[u8]) -> Put
        ensures taken { WriteGives result piece.now (tells self.old) (tells self.new) }
        ensures faults_kept { (tells self.old).faults ≤ (tells self.new).faults };

    /// Lets it keep back, from now on, what it took, until [`Sink::flush`]: so that many small pieces take few calls of
    /// the system. Who calls this flushes it before it waits for anybody, and at the end.
    fn gather(&mut self)
        ensures { tells self.new ≡ tells self.old };

    /// Hands on what it kept back.
    ///
    /// Where it fails, a front of that was handed on.
    fn flush(&mut self) -> Result<(), SinkFailed>
        ensures flushed { FlushGives result (tells self.old) (tells self.new) }
        ensures handed_on { OnOk result (is_handed_on self.new) };
}

/// A sink failed, and its count of faults rose.
#[derive(Clone, Copy, Debug, PartialEq, Eq)]
pub struct SinkFailed;

/// Writes the whole piece: all of it at once, then each time what the sink left of it. An empty piece takes no call.
///
/// [`SinkFailed`] comes at the first call that fails, after a front of the piece was taken.
pub fn write_all<K: Sink>(sink: &mut K, piece: &[u8]) -> Result<(), SinkFailed>
    ensures written { WritesAll result piece.now (K.tells sink.old) (K.tells sink.new) }
    ensures faults_kept { (K.tells sink.old).faults ≤ (K.tells sink.new).faults }
{
    let mut at = 0;
    while at < piece.len() {
        match sink.write(&piece[at..]) {
            Put::Took(n) => at += n,
            Put::Failed => return Err(SinkFailed),
        }
    }
    Ok(())
}
