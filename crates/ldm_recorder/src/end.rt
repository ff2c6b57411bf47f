//! How restoring and recording end.

use ldm_journal::JournalFault;

/// How restoring ends.
#[derive(Clone, Copy, Debug, PartialEq, Eq)]
pub enum RestoreEnd {
    /// So many products were put back: all that the journal keeps.
    Restored { count: u64 },
    /// The next product could not be read. Those before it were put back.
    NotRead(JournalFault),
    /// The queue has had all the calls that it can have.
    Worn,
}

/// How recording ends.
#[derive(Clone, Copy, Debug, PartialEq, Eq)]
pub enum RecordEnd {
    /// The gate said to stop. Of the first so many products that the queue had admitted all are committed that were not
    /// lost.
    Stopped { at: u64 },
    /// The disk failed, and its count of faults rose. Attach the file and open the journal again.
    DiskFault,
    /// The file no longer has the records that the journal had.
    NotAJournal,
    /// The log failed, and its count of faults rose.
    LogFault,
    /// The queue has had all the calls that it can have.
    Worn,
    /// The journal has had all the numbers.
    NoNumbers,
    /// There is no memory for a body.
    OutOfMemory,
}
