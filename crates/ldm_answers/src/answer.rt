//! Answers of the queue: what its calls answer, and how that is written as a line.
ghost use Rattle.std.specs.Prelude.{◌≡◌, ◌+◌, ◌*◌, ◌<◌, ◌≤◌, ◌++◌, length, []};
ghost use Rattle.arrayvec.specs.ArrayVec.{array_vec_len};
ghost use Rattle.ldm_model.specs.Answers.{insert_answer, read_answer, bytes_read};
ghost use Rattle.ldm_model.specs.declared.event.Reply.TheVariants as reply;
ghost use Rattle.ldm_answers.specs.Answer.{answer_line, blank_number, reply_text, reply_of, FitsAnswer};
ghost use Rattle.ldm_answers.specs.Texts.{spelled};
ghost use Rattle.ldm_answers.specs.declared.answer.TheConstants.{LONGEST_READ};

use crate::put_fields::{put_blank, put_blank_number, put_info};
use crate::texts::{put, spell};
use arrayvec::ArrayVec;
use ldm_model::{
    CloseReply, CommitReply, DiscardReply, ExpireReply, FillReply, InsertReply, LookReply,
    OpenReply, ReadReply, ReleaseReply, ReserveNo, ReserveReply, Stat, StepReply, TallyReply,
};
use ldm_types::{CursorNo, Info, Micros};

/// The most bytes that a line can ask to read.
pub const LONGEST_READ: u32 = 4_096;

/// The most bytes of an answer, without its newline.
pub const LONGEST_ANSWER: usize = 16_384;

/// A line that is written: an answer, or a part of one.
pub type Text = ArrayVec<u8, LONGEST_ANSWER>;

/// What the queue answered. Numbers of products count admitted products from 0.
#[derive(Drop)]
pub enum Answer<'a> {
    /// `admitted N TIME EVICTED`
    Admitted { n: u64, time: Micros, evicted: u64 },
    /// `toobig NEED ARENA`, both in bytes
    TooBig { need: u64, arena: u64 },
    /// `duplicate N`
    Duplicate { n: u64 },
    /// `timeend`
    TimeEnd,
    /// `locked HELD`
    Locked { held: u64 },
    /// `opened K`
    Opened { k: CursorNo },
    /// `allbusy`
    AllBusy,
    /// `notqueued`
    NotQueued,
    /// `product N TIME ARRIVAL SIG FEED SEQNO ORIGIN IDENT SIZE`
    Product { n: u64, time: Micros, info: Info },
    /// `gap COUNT FIRST LAST`
    Gap { count: u64, first: u64, last: u64 },
    /// `end AT`
    End { at: u64 },
    /// `nocursor`
    NoCursor,
    /// `holding N`
    Holding { n: u64 },
    /// `bytes BODY`: digits, or `-` for none
    Bytes { bytes: &'a [u8] },
    /// `notheld`
    NotHeld,
    /// `badoffset SIZE`
    BadOffset { size: u32 },
    /// `released N`
    Released { n: u64 },
    /// `closed`
    Closed,
    /// `queued N TIME`
    Queued { n: u64, time: Micros },
    /// `absent`
    Absent,
    /// `expired N`
    Expired { n: u64 },
    /// `nothing`
    Nothing,
    /// `tally GIVEN LOST LEFT`
    Tally { given: u64, lost: u64, left: u64 },
    /// `stat ADMITTED QUEUED HELD USED LARGEST`, the last two in bytes
    Stat(Stat),
    /// `reserved R EVICTED`
    Reserved { r: ReserveNo, evicted: u64 },
    /// `allreserved`
    AllReserved,
    /// `noreservation`
    NoReservation,
    /// `filled LEFT`, in bytes
    Filled { left: u32 },
    /// `overfill LEFT`, in bytes
    Overfill { left: u32 },
    /// `unfilled LEFT`, in bytes
    Unfilled { left: u32 },
    /// `committed N TIME`
    Committed { n: u64, time: Micros },
    /// `discarded`
    Discarded,
}

impl<'a> From<InsertReply> for Answer<'a> {
    ghost use Rattle.std.specs.Prelude.{◌≡◌};
    ghost use Rattle.ldm_model.specs.Answers.{insert_answer};
    ghost use Rattle.ldm_answers.specs.Answer.{reply_of};

    ghost from_gives = { λ reply made. reply_of made ≡ insert_answer reply };

    fn from(reply: InsertReply) -> Answer<'a> {
        match reply {
            InsertReply::Admitted { n, time, evicted } => Answer::Admitted { n, time, evicted },
            InsertReply::TooBig { need, arena } => Answer::TooBig { need, arena },
            InsertReply::Duplicate { n } => Answer::Duplicate { n },
            InsertReply::TimeEnd => Answer::TimeEnd,
            InsertReply::Locked { held } => Answer::Locked { held },
        }
    }
}

impl<'a> From<OpenReply> for Answer<'a> {
    ghost use Rattle.std.specs.Prelude.{◌≡◌};
    ghost use Rattle.ldm_model.specs.Answers.{open_answer};
    ghost use Rattle.ldm_answers.specs.Answer.{reply_of};

    ghost from_gives = { λ reply made. reply_of made ≡ open_answer reply };

    fn from(reply: OpenReply) -> Answer<'a> {
        match reply {
            OpenReply::Opened { k } => Answer::Opened { k },
            OpenReply::AllBusy => Answer::AllBusy,
            OpenReply::NotQueued => Answer::NotQueued,
        }
    }
}

impl<'a> From<StepReply> for Answer<'a> {
    ghost use Rattle.std.specs.Prelude.{◌≡◌};
    ghost use Rattle.ldm_model.specs.Answers.{step_answer};
    ghost use Rattle.ldm_answers.specs.Answer.{reply_of};

    ghost from_gives = { λ reply made. reply_of made ≡ step_answer reply };

    fn from(reply: StepReply) -> Answer<'a> {
        match reply {
            StepReply::NoCursor => Answer::NoCursor,
            StepReply::Holding { n } => Answer::Holding { n },
            StepReply::Gap { count, first, last } => Answer::Gap { count, first, last },
            StepReply::Product { n, time, info } => Answer::Product { n, time, info },
            StepReply::End { at } => Answer::End { at },
        }
    }
}

impl<'a> From<ReleaseReply> for Answer<'a> {
    ghost use Rattle.std.specs.Prelude.{◌≡◌};
    ghost use Rattle.ldm_model.specs.Answers.{release_answer};
    ghost use Rattle.ldm_answers.specs.Answer.{reply_of};

    ghost from_gives = { λ reply made. reply_of made ≡ release_answer reply };

    fn from(reply: ReleaseReply) -> Answer<'a> {
        match reply {
            ReleaseReply::NoCursor => Answer::NoCursor,
            ReleaseReply::NotHeld => Answer::NotHeld,
            ReleaseReply::Released { n } => Answer::Released { n },
        }
    }
}

impl<'a> From<CloseReply> for Answer<'a> {
    ghost use Rattle.std.specs.Prelude.{◌≡◌};
    ghost use Rattle.ldm_model.specs.Answers.{close_answer};
    ghost use Rattle.ldm_answers.specs.Answer.{reply_of};

    ghost from_gives = { λ reply made. reply_of made ≡ close_answer reply };

    fn from(reply: CloseReply) -> Answer<'a> {
        match reply {
            CloseReply::NoCursor => Answer::NoCursor,
            CloseReply::Closed => Answer::Closed,
        }
    }
}

impl<'a> From<LookReply> for Answer<'a> {
    ghost use Rattle.std.specs.Prelude.{◌≡◌};
    ghost use Rattle.ldm_model.specs.Answers.{look_answer};
    ghost use Rattle.ldm_answers.specs.Answer.{reply_of};

    ghost from_gives = { λ reply made. reply_of made ≡ look_answer reply };

    fn from(reply: LookReply) -> Answer<'a> {
        match reply {
            LookReply::Queued { n, time } => Answer::Queued { n, time },
            LookReply::Absent => Answer::Absent,
        }
    }
}

impl<'a> From<ExpireReply> for Answer<'a> {
    ghost use Rattle.std.specs.Prelude.{◌≡◌};
    ghost use Rattle.ldm_model.specs.Answers.{expire_answer};
    ghost use Rattle.ldm_answers.specs.Answer.{reply_of};

    ghost from_gives = { λ reply made. reply_of made ≡ expire_answer reply };

    fn from(reply: ExpireReply) -> Answer<'a> {
        match reply {
            ExpireReply::Expired { n } => Answer::Expired { n },
            ExpireReply::Nothing => Answer::Nothing,
        }
    }
}

impl<'a> From<TallyReply> for Answer<'a> {
    ghost use Rattle.std.specs.Prelude.{◌≡◌};
    ghost use Rattle.ldm_model.specs.Answers.{tally_answer};
    ghost use Rattle.ldm_answers.specs.Answer.{reply_of};

    ghost from_gives = { λ reply made. reply_of made ≡ tally_answer reply };

    fn from(reply: TallyReply) -> Answer<'a> {
        match reply {
            TallyReply::NoCursor => Answer::NoCursor,
            TallyReply::Tally { given, lost, left } => Answer::Tally { given, lost, left },
        }
    }
}

impl<'a> From<Stat> for Answer<'a> {
    ghost use Rattle.std.specs.Prelude.{◌≡◌};
    ghost use Rattle.ldm_model.specs.Answers.{stat_answer};
    ghost use Rattle.ldm_answers.specs.Answer.{reply_of};

    ghost from_gives = { λ reply made. reply_of made ≡ stat_answer reply };

    fn from(stat: Stat) -> Answer<'a> {
        Answer::Stat(stat)
    }
}

impl<'a> From<ReserveReply> for Answer<'a> {
    ghost use Rattle.std.specs.Prelude.{◌≡◌};
    ghost use Rattle.ldm_model.specs.Answers.{reserve_answer};
    ghost use Rattle.ldm_answers.specs.Answer.{reply_of};

    ghost from_gives = { λ reply made. reply_of made ≡ reserve_answer reply };

    fn from(reply: ReserveReply) -> Answer<'a> {
        match reply {
            ReserveReply::TooBig { need, arena } => Answer::TooBig { need, arena },
            ReserveReply::Duplicate { n } => Answer::Duplicate { n },
            ReserveReply::AllReserved => Answer::AllReserved,
            ReserveReply::Locked { held } => Answer::Locked { held },
            ReserveReply::Reserved { r, evicted } => Answer::Reserved { r, evicted },
        }
    }
}

impl<'a> From<FillReply> for Answer<'a> {
    ghost use Rattle.std.specs.Prelude.{◌≡◌};
    ghost use Rattle.ldm_model.specs.Answers.{fill_answer};
    ghost use Rattle.ldm_answers.specs.Answer.{reply_of};

    ghost from_gives = { λ reply made. reply_of made ≡ fill_answer reply };

    fn from(reply: FillReply) -> Answer<'a> {
        match reply {
            FillReply::NoReservation => Answer::NoReservation,
            FillReply::Overfill { left } => Answer::Overfill { left },
            FillReply::Filled { left } => Answer::Filled { left },
        }
    }
}

impl<'a> From<CommitReply> for Answer<'a> {
    ghost use Rattle.std.specs.Prelude.{◌≡◌};
    ghost use Rattle.ldm_model.specs.Answers.{commit_answer};
    ghost use Rattle.ldm_answers.specs.Answer.{reply_of};

    ghost from_gives = { λ reply made. reply_of made ≡ commit_answer reply };

    fn from(reply: CommitReply) -> Answer<'a> {
        match reply {
            CommitReply::NoReservation => Answer::NoReservation,
            CommitReply::Unfilled { left } => Answer::Unfilled { left },
            CommitReply::Duplicate { n } => Answer::Duplicate { n },
            CommitReply::TimeEnd => Answer::TimeEnd,
            CommitReply::Committed { n, time } => Answer::Committed { n, time },
        }
    }
}

impl<'a> From<DiscardReply> for Answer<'a> {
    ghost use Rattle.std.specs.Prelude.{◌≡◌};
    ghost use Rattle.ldm_model.specs.Answers.{discard_answer};
    ghost use Rattle.ldm_answers.specs.Answer.{reply_of};

    ghost from_gives = { λ reply made. reply_of made ≡ discard_answer reply };

    fn from(reply: DiscardReply) -> Answer<'a> {
        match reply {
            DiscardReply::NoReservation => Answer::NoReservation,
            DiscardReply::Discarded => Answer::Discarded,
        }
    }
}

impl<'a> Answer<'a> {
    /// What a read is answered, whose bytes stand at the front of the buffer.
    pub fn from_read(reply: ReadReply, into: &'a [u8]) -> Answer<'a>
        requires { bytes_read reply ≤ length into.now }
        ensures { reply_of result ≡ read_answer reply into.now }
    {
        match reply {
            ReadReply::NoCursor => Answer::NoCursor,
            ReadReply::NotHeld => Answer::NotHeld,
            ReadReply::BadOffset { size } => Answer::BadOffset { size },
            ReadReply::Bytes { len } => Answer::Bytes {
                bytes: &into[..len as usize],
            },
        }
    }
}

/// Writes an answer over what the buffer had: one line, without its newline, for which there is room left.
#[tactic(auto, unfolding(crate::specs::Answer::reply_text))]
pub fn write_reply(answer: &Answer, out: &mut Text)
    requires { FitsAnswer answer.now }
    ensures text { out.new.items ≡ reply_text (reply_of answer.now) }
    ensures room { array_vec_len out.new < LONGEST_ANSWER }
{
    out.clear();
    match answer {
        Answer::Admitted { n, time, evicted } => put_three(
            out,
            b"admitted",
            *n,
            time.get(),
            *evicted,
        ),
        Answer::TooBig { need, arena } => put_two(out, b"toobig", *need, *arena),
        Answer::Duplicate { n } => put_one(out, b"duplicate", *n),
        Answer::TimeEnd => put_word(out, b"timeend"),
        Answer::Locked { held } => put_one(out, b"locked", *held),
        Answer::Opened { k } => put_one(out, b"opened", u64::from(k.get())),
        Answer::AllBusy => put_word(out, b"allbusy"),
        Answer::NotQueued => put_word(out, b"notqueued"),
        Answer::Product { n, time, info } => put_product(out, *n, *time, info),
        Answer::Gap { count, first, last } => put_three(out, b"gap", *count, *first, *last),
        Answer::End { at } => put_one(out, b"end", *at),
        Answer::NoCursor => put_word(out, b"nocursor"),
        Answer::Holding { n } => put_one(out, b"holding", *n),
        Answer::Bytes { bytes } => put_read(out, bytes),
        Answer::NotHeld => put_word(out, b"notheld"),
        Answer::BadOffset { size } => put_one(out, b"badoffset", u64::from(*size)),
        Answer::Released { n } => put_one(out, b"released", *n),
        Answer::Closed => put_word(out, b"closed"),
        Answer::Queued { n, time } => put_two(out, b"queued", *n, time.get()),
        Answer::Absent => put_word(out, b"absent"),
        Answer::Expired { n } => put_one(out, b"expired", *n),
        Answer::Nothing => put_word(out, b"nothing"),
        Answer::Tally { given, lost, left } => put_three(out, b"tally", *given, *lost, *left),
        Answer::Stat(stat) => put_stat(out, *stat),
        Answer::Reserved { r, evicted } => put_two(out, b"reserved", u64::from(r.get()), *evicted),
        Answer::AllReserved => put_word(out, b"allreserved"),
        Answer::NoReservation => put_word(out, b"noreservation"),
        Answer::Filled { left } => put_one(out, b"filled", u64::from(*left)),
        Answer::Overfill { left } => put_one(out, b"overfill", u64::from(*left)),
        Answer::Unfilled { left } => put_one(out, b"unfilled", u64::from(*left)),
        Answer::Committed { n, time } => put_two(out, b"committed", *n, time.get()),
        Answer::Discarded => put_word(out, b"discarded"),
    }
}

/// Writes an answer line, with its newline, over what the buffer had.
#[tactic(auto, unfolding(crate::specs::Answer::answer_line))]
pub fn write_answer(answer: &Answer, out: &mut Text)
    requires { FitsAnswer answer.now }
    ensures { out.new.items ≡ answer_line (reply_of answer.now) }
{
    write_reply(answer, out);
    out.push(b'\n');
}

/// Writes the answer line of an insertion, with its newline, over what the buffer had. Beside [`write_answer`] it does
/// without an [`Answer`], which has room for metadata.
#[tactic(auto, unfolding(crate::specs::Answer::answer_line, crate::specs::Answer::reply_text))]
pub fn write_insert_reply(reply: InsertReply, out: &mut Text)
    ensures { out.new.items ≡ answer_line (insert_answer reply) }
{
    out.clear();
    match reply {
        InsertReply::Admitted { n, time, evicted } => {
            put_three(out, b"admitted", n, time.get(), evicted)
        }
        InsertReply::TooBig { need, arena } => put_two(out, b"toobig", need, arena),
        InsertReply::Duplicate { n } => put_one(out, b"duplicate", n),
        InsertReply::TimeEnd => put_word(out, b"timeend"),
        InsertReply::Locked { held } => put_one(out, b"locked", held),
    }
    out.push(b'\n');
}

// The most bytes of the first word of an answer.
const LONGEST_WORD: usize = 13;

// Each of these writes a word and what follows it into an empty buffer, a blank in front of each field.

fn put_word(out: &mut Text, word: &[u8])
    requires empty { out.old.items ≡ [] }
    requires short { length word.now ≤ LONGEST_WORD }
    ensures text { out.new.items ≡ word.now }
    ensures room { array_vec_len out.new < LONGEST_ANSWER }
{
    put(out, word);
}

fn put_one(out: &mut Text, word: &[u8], a: u64)
    requires empty { out.old.items ≡ [] }
    requires short { length word.now ≤ LONGEST_WORD }
    ensures text { out.new.items ≡ word.now ++ blank_number a }
    ensures room { array_vec_len out.new < LONGEST_ANSWER }
{
    put(out, word);
    put_blank_number(out, a);
}

fn put_two(out: &mut Text, word: &[u8], a: u64, b: u64)
    requires empty { out.old.items ≡ [] }
    requires short { length word.now ≤ LONGEST_WORD }
    ensures text { out.new.items ≡ word.now ++ blank_number a ++ blank_number b }
    ensures room { array_vec_len out.new < LONGEST_ANSWER }
{
    put(out, word);
    put_blank_number(out, a);
    put_blank_number(out, b);
}

fn put_three(out: &mut Text, word: &[u8], a: u64, b: u64, c: u64)
    requires empty { out.old.items ≡ [] }
    requires short { length word.now ≤ LONGEST_WORD }
    ensures text { out.new.items ≡ word.now ++ blank_number a ++ blank_number b ++ blank_number c }
    ensures room { array_vec_len out.new < LONGEST_ANSWER }
{
    put(out, word);
    put_blank_number(out, a);
    put_blank_number(out, b);
    put_blank_number(out, c);
}

#[tactic(auto, unfolding(crate::specs::Answer::reply_text))]
fn put_stat(out: &mut Text, stat: Stat)
    requires { out.old.items ≡ [] }
    ensures text { out.new.items ≡ reply_text (reply.Stat stat) }
    ensures room { array_vec_len out.new < LONGEST_ANSWER }
{
    put(out, b"stat");
    put_blank_number(out, stat.admitted);
    put_blank_number(out, stat.queued);
    put_blank_number(out, stat.held);
    put_blank_number(out, stat.used);
    put_blank_number(out, stat.largest_free);
}

#[tactic(auto, unfolding(crate::specs::Answer::reply_text))]
fn put_product(out: &mut Text, n: u64, time: Micros, info: &Info)
    requires { out.old.items ≡ [] }
    ensures text { out.new.items ≡ reply_text (reply.Product n time info.now) }
    ensures room { array_vec_len out.new < LONGEST_ANSWER }
{
    put(out, b"product");
    put_blank_number(out, n);
    put_blank_number(out, time.get());
    put_info(out, info);
}

// The bytes that were read, as digits, or `-` for none.
#[tactic(auto, unfolding(crate::specs::Answer::reply_text))]
fn put_read(out: &mut Text, bytes: &[u8])
    requires empty { out.old.items ≡ [] }
    requires few { length bytes.now ≤ LONGEST_READ }
    ensures text { out.new.items ≡ reply_text (reply.Bytes bytes.now) }
    ensures room { array_vec_len out.new < LONGEST_ANSWER }
{
    put(out, b"bytes");
    if bytes.is_empty() {
        put_blank(out, b"-");
        return;
    }
    let mut digits = [0; 2 * LONGEST_READ as usize];
    let digits = &mut digits[..2 * bytes.len()];
    if hex::encode_to_slice(bytes, digits).is_err() {
        unreachable!();
    }
    put_blank(out, digits);
}

/// Appends the spelling of a text: bytes from 0x21 to 0x7E for themselves, and `%` with two upper-case hexadecimal
/// digits for each other one and for `%`; `-` for the empty text, and `%2D` for the text `-`.
pub fn text_into(text: &[u8], out: &mut Text)
    requires { array_vec_len out.old + 3 * length text.now + 1 ≤ LONGEST_ANSWER }
    ensures text { out.new.items ≡ out.old.items ++ spelled text.now }
    ensures len { array_vec_len out.new ≤ array_vec_len out.old + 3 * length text.now + 1 }
{
    spell(text, out);
}
