//! The messages.

use ldm_model::Stat;
use ldm_types::{ClassSpec, Info, Signature};

/// The most bytes of a block.
pub const LARGEST_BLOCK: usize = 16_384;

/// The most bytes of the content of a record.
pub const LARGEST_CONTENT: usize = 1_073_742_848;

/// The limit of a reader of records that reads calls, or replies with a class: the peer that asked a feeder reads the
/// answer to its FEEDME and then the feed with it, and so does who sends HIYA, NOTIFYME, QSTAT or PUT. A RECLASS alone
/// has up to 8,500 bytes, and 400 more with a verifier.
pub const LARGEST_RECORD: u32 = LARGEST_CONTENT as u32;

/// The limit of the reader of records of a feeder, which reads replies to its COMINGSOON alone. They have 28 bytes, and
/// up to 400 more with a verifier.
pub const LARGEST_REPLY: u32 = 1_024;

/// A call or a reply. It borrows the bytes that it carries.
///
/// A reply has the number that the caller gave its call, the `xid`. A message without a reply of its own is not
/// answered.
#[derive(Debug, Drop)]
pub enum Message<'a> {
    Feedme(Feedme),
    FeedmeReply(FeedmeReply),
    Hiya(Hiya),
    HiyaReply(HiyaReply),
    Hereis(Hereis<'a>),
    Comingsoon(Comingsoon),
    ComingsoonReply(ComingsoonReply),
    Blkdata(Blkdata<'a>),
    Isalive(Isalive),
    Qstat(Qstat),
    QstatReply(QstatReply),
    Put(Put<'a>),
    PutReply(PutReply),
    Notifyme(Notifyme),
    NotifymeReply(NotifymeReply),
    Notification(Notification),
    Refused(Refused),
}

/// Asks to be fed the products of a class.
#[derive(Debug, Drop)]
pub struct Feedme {
    pub xid: u32,
    pub class: ClassSpec,
    /// The size of the largest product that is to come whole, in bytes. A larger one is announced and comes in blocks.
    pub max_hereis: u32,
}

/// The answer to [`Feedme`].
#[derive(Debug, Drop)]
pub struct FeedmeReply {
    pub xid: u32,
    pub answer: ClassAnswer,
}

/// Offers the products of a class: the caller means to feed the other side.
#[derive(Debug, Drop)]
pub struct Hiya {
    pub xid: u32,
    pub class: ClassSpec,
}

/// The answer to [`Hiya`].
#[derive(Debug, Drop)]
pub struct HiyaReply {
    pub xid: u32,
    /// The size of the largest product that is to come whole, in bytes.
    pub max_hereis: u32,
    pub answer: ClassAnswer,
}

/// What is said to a class that was asked for or offered.
#[derive(Debug, PartialEq, Eq, Drop)]
pub enum ClassAnswer {
    /// All of the class.
    Ok,
    /// No more than this class.
    Reclass(ClassSpec),
    /// Nothing.
    Denied,
    /// A pattern of the class is no pattern.
    BadPattern,
    /// Nothing now: there are as many feeds as the other side can serve.
    Busy,
}

/// A product, whole. It has no reply.
#[derive(Debug, Drop)]
pub struct Hereis<'a> {
    pub xid: u32,
    pub info: Info,
    /// `info.size()` bytes.
    pub body: &'a [u8],
}

/// Announces a product that is to come in blocks.
#[derive(Debug, Drop)]
pub struct Comingsoon {
    pub xid: u32,
    pub info: Info,
    /// The bytes of each block but the last. Any number is read.
    pub block_size: u32,
}

/// The answer to [`Comingsoon`].
#[derive(Debug, Drop)]
pub struct ComingsoonReply {
    pub xid: u32,
    pub answer: SoonAnswer,
}

/// What is said to a product that was announced.
#[derive(Clone, Copy, Debug, PartialEq, Eq)]
pub enum SoonAnswer {
    /// Its blocks may come.
    Ok,
    /// It is not wanted.
    DontSend,
}

/// A block of the product that was announced last. It has no reply.
#[derive(Debug, Drop)]
pub struct Blkdata<'a> {
    pub xid: u32,
    /// The signature of the product.
    pub signature: Signature,
    /// Its place among the blocks of the product, from 0.
    pub number: u32,
    /// At most [`LARGEST_BLOCK`] bytes.
    pub block: &'a [u8],
}

/// Says that the caller is there, and nothing more. It has no reply.
#[derive(Debug, Drop)]
pub struct Isalive {
    pub xid: u32,
}

/// Asks for the figures of the queue.
#[derive(Debug, Drop)]
pub struct Qstat {
    pub xid: u32,
}

/// The answer to [`Qstat`].
#[derive(Debug, Drop)]
pub struct QstatReply {
    pub xid: u32,
    /// `None` where the caller may not know.
    pub stat: Option<Stat>,
}

/// A product to be inserted into the queue of the other side.
#[derive(Debug, Drop)]
pub struct Put<'a> {
    pub xid: u32,
    pub info: Info,
    /// `info.size()` bytes.
    pub body: &'a [u8],
}

/// The answer to [`Put`].
#[derive(Debug, Drop)]
pub struct PutReply {
    pub xid: u32,
    pub answer: PutAnswer,
}

/// What became of a product that was to be inserted: an answer of the queue, or that the caller may not insert it.
#[derive(Clone, Copy, Debug, PartialEq, Eq)]
pub enum PutAnswer {
    /// It was inserted as product `n` at `time`, in microseconds, and `evicted` products gave way.
    Admitted { n: u64, time: u64, evicted: u64 },
    /// It takes `need` bytes of an arena of `arena`.
    TooBig { need: u64, arena: u64 },
    /// Product `n` is queued and has its signature.
    Duplicate { n: u64 },
    /// There is no later instant for its insertion.
    TimeEnd,
    /// Products that are held, `held` of them, leave no room.
    Locked { held: u64 },
    /// The caller may not insert it.
    Denied,
}

/// Asks to be told of the products of a class: of each its metadata, and not its body.
#[derive(Debug, Drop)]
pub struct Notifyme {
    pub xid: u32,
    pub class: ClassSpec,
}

/// The answer to [`Notifyme`].
#[derive(Debug, Drop)]
pub struct NotifymeReply {
    pub xid: u32,
    pub answer: ClassAnswer,
}

/// Tells of a product that was inserted. It has no reply.
#[derive(Debug, Drop)]
pub struct Notification {
    pub xid: u32,
    pub info: Info,
}

/// A reply that says that a call was not carried out. It answers a call of any procedure, or of none.
#[derive(Clone, Copy, Debug, PartialEq, Eq)]
pub struct Refused {
    pub xid: u32,
    pub why: Refusal,
}

/// Why a call was not carried out: an accept status above 0 (RFC 5531, section 9).
#[derive(Clone, Copy, Debug, PartialEq, Eq)]
pub enum Refusal {
    /// There is no such program.
    ProgramUnavailable,
    /// The program has other versions: the least and the greatest one.
    ProgramMismatch { lowest: u32, highest: u32 },
    /// The program has no such procedure.
    ProcedureUnavailable,
    /// The body of the call could not be read.
    GarbageArguments,
    /// Another cause, such as want of memory.
    SystemError,
}
