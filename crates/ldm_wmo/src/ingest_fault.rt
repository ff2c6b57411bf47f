//! Why the bulletins of a stream were not put into a queue.
use ldm_tools::PutFault;

/// Why not all bulletins of a stream were put.
#[derive(Clone, Copy, Debug, PartialEq, Eq)]
pub enum IngestFault {
    /// No link was connected.
    Unreached,
    /// The source failed.
    SourceFault,
    /// As many bytes of the source were taken as are taken of a stream.
    StreamLimit,
    /// There is no memory to begin.
    OutOfMemory,
    /// A bulletin was not put, or the line of the answer not written.
    Put(PutFault),
    /// The log failed, after a front of the line of a bad or cut bulletin.
    LogFault,
}
