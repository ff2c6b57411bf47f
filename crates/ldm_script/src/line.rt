//! Reading lines.
ghost use Rattle.std.specs.Prelude.{◌≡◌, ◌<◌, ◌≤◌, ℕ, Ok, Err, None, IfOk, IfSome, MatchResult, unwrap_or};
ghost use Rattle.std.specs.Option.{option_map};
ghost use Rattle.ldm_model.specs.declared.event.Event.{Event};
ghost use Rattle.ldm_script.specs.Order.{OnCursor};
ghost use Rattle.ldm_script.specs.FieldReads.{Gives};
ghost use Rattle.ldm_script.specs.Grammar.{read_line as reading, read_order as order_at, read_act as act_at, read_insert as insert_at, read_open as open_at, read_start as start_at, read_read as read_at, read_look as look_at, read_on_cursor as on_cursor_at, read_reserve as reserve_at, read_fill as fill_at, read_commit as commit_at, read_discard as discard_at, read_details as details_at, metadata};
ghost use Rattle.ldm_types.specs.Info.{Metadata, texts_fault};
ghost use Rattle.ldm_script.specs.OrderView.{order_of, order_with, asked_of, act_with, bytes_of, details_of, AreTexts, IsBody, IsWhole, IsWritable};
ghost use Rattle.md5.specs.Md5.{md5};

use crate::body::Body;
use crate::fields::Fields;
use crate::order::{LentAct, LentOrder, Order, Place};
use crate::word::{LineWord, StartWord};
use ldm_answers::{LONGEST_READ, Spelled};
use ldm_model::Start;
use ldm_types::{Actor, Feed, Info, LONGEST_IDENT, LONGEST_ORIGIN, Micros, Signature};

/// The most bytes of a line, without its newline.
pub const LONGEST_LINE: usize = 65_536;

/// A line is outside the grammar.
#[derive(Clone, Copy, Debug, PartialEq, Eq)]
pub struct BadLine {
    /// The column, from 1, of the first field that cannot be read; one past the line's length for a field that is
    /// missing; of the blank in front of a field too many; and 65,537 where the line is too long.
    pub column: u32,
}

/// Reads a line, without its newline: `None` for an empty line and for one that begins with `#`.
///
/// The first field is a number below `actors`. Fields stand one blank apart. It takes no memory.
#[inline(never)]
pub fn read_line(line: &[u8], actors: u32) -> Result<Option<Order<'_>>, BadLine>
    requires { actors ≤ 64 }
    ensures read { MatchResult result (λ order. reading actors line.now ≡ Ok (option_map order_of order))
        (λ bad. reading actors line.now ≡ Err bad.column) }
    ensures whole { IfOk result (λ found. IfSome found (λ order. IsWhole order.act)) }
    ensures writable { IfOk result (λ found. IfSome found (λ order. IsWritable order.act)) }
    ensures actor { IfOk result (λ found. IfSome found (λ order. order.actor < actors)) }
{
    let mut info = blank_info();
    match read_line_into(line, actors, &mut info) {
        Ok(Some(LentOrder { actor, act })) => Ok(Some(Order {
            actor,
            act: act.with(info),
        })),
        Ok(None) => Ok(None),
        Err(bad) => Err(bad),
    }
}

/// Metadata of no product: a place for those that [`read_line_into`] reads.
pub fn blank_info() -> Info {
    let Some(arrival) = Micros::new(0) else {
        unreachable!();
    };
    let Ok(info) = Info::new(arrival, Signature([0; 16]), b"", Feed(0), 0, b"", 0) else {
        unreachable!();
    };
    info
}

/// Reads a line as [`read_line`] does, and puts the metadata of its product, if it has one, into the place that is
/// lent. No other metadata are moved, so lines that are read one after another lend the same place.
#[tactic(auto, unfolding(crate::specs::Grammar::read_line))]
pub fn read_line_into<'a>(
    line: &'a [u8],
    actors: u32,
    info: &mut Info,
) -> Result<Option<LentOrder<'a>>, BadLine>
    requires { actors ≤ 64 }
    ensures read { MatchResult result
        (λ order. reading actors line.now ≡ Ok (option_map (λ o. order_of (order_with info.new o)) order))
        (λ bad. reading actors line.now ≡ Err bad.column) }
    ensures whole { IfOk result (λ found. IfSome found (λ order. IsWhole (act_with info.new order.act))) }
    ensures actor { IfOk result (λ found. IfSome found (λ order. order.actor < actors)) }
{
    if line.len() > LONGEST_LINE {
        return Err(BadLine {
            column: LONGEST_LINE as u32 + 1,
        });
    }
    if line.is_empty() || line[0] == b'#' {
        return Ok(None);
    }
    let mut fields = Fields::of(line);
    match read_order(&mut fields, actors, info) {
        Ok(order) => Ok(Some(order)),
        Err(left) => Err(BadLine {
            column: (line.len() + 1).saturating_sub(left) as u32,
        }),
    }
}

// Where one of these cannot read a field, the error is how many bytes there are from it to the end of the line.

#[tactic(auto, unfolding(crate::specs::Grammar::read_order))]
fn read_order<'a>(
    fields: &mut Fields<'a>,
    actors: u32,
    info: &mut Info,
) -> Result<LentOrder<'a>, usize>
    requires { actors ≤ 64 }
    ensures read { MatchResult result
        (λ order. order_at actors fields.old ≡ Ok (order_of (order_with info.new order)))
        (λ bad. order_at actors fields.old ≡ Err bad) }
    ensures whole { IfOk result (λ order. IsWhole (act_with info.new order.act)) }
    ensures actor { IfOk result (λ order. order.actor < actors) }
{
    let Some(actor) = Actor::new(fields.number_below(actors)?) else {
        unreachable!();
    };
    let word = fields.word()?;
    match read_act(word, fields, info) {
        Ok(act) => Ok(LentOrder { actor, act }),
        Err(left) => Err(left),
    }
}

// What stands behind the word.
fn read_act<'a>(
    word: LineWord,
    fields: &mut Fields<'a>,
    info: &mut Info,
) -> Result<LentAct<'a>, usize>
    ensures read { MatchResult result (λ act. act_at word fields.old ≡ Ok (asked_of (act_with info.new act)))
        (λ bad. act_at word fields.old ≡ Err bad) }
    ensures whole { IfOk result (λ act. IsWhole (act_with info.new act)) }
{
    match word {
        LineWord::Insert => read_insert(fields, info),
        LineWord::Open => read_open(fields),
        LineWord::Step => Ok(LentAct::Step {
            k: read_on_cursor(fields)?,
        }),
        LineWord::Read => read_read(fields),
        LineWord::Release => Ok(LentAct::Release {
            k: read_on_cursor(fields)?,
        }),
        LineWord::Close => Ok(LentAct::Close {
            k: read_on_cursor(fields)?,
        }),
        LineWord::Look => read_look(fields),
        LineWord::Expire => {
            fields.end()?;
            Ok(LentAct::Expire)
        }
        LineWord::Tally => Ok(LentAct::Tally {
            k: read_on_cursor(fields)?,
        }),
        LineWord::Stat => {
            fields.end()?;
            Ok(LentAct::Stat)
        }
        LineWord::Reserve => read_reserve(fields, info),
        LineWord::Fill => read_fill(fields),
        LineWord::Commit => read_commit(fields),
        LineWord::Discard => read_discard(fields),
    }
}

#[tactic(auto, unfolding(crate::specs::Grammar::read_insert))]
fn read_insert<'a>(fields: &mut Fields<'a>, info: &mut Info) -> Result<LentAct<'a>, usize>
    ensures read { MatchResult result (λ act. insert_at fields.old ≡ Ok (asked_of (act_with info.new act)))
        (λ bad. insert_at fields.old ≡ Err bad) }
    ensures whole { IfOk result (λ act. IsWhole (act_with info.new act)) }
{
    let now = fields.instant()?;
    let signature = fields.signature_or_md5()?;
    let details = read_details(fields)?;
    let body = fields.body()?;
    fields.end()?;
    let signature = signature_of(signature, &body);
    put_info(now, signature, &details, body.size(), info);
    Ok(LentAct::Insert { now, body })
}

// What stands in a line behind the signature of a product. The texts lie in the line.
#[derive(Drop)]
struct Details<'a> {
    feed: Feed,
    seqno: u32,
    origin: Spelled<'a>,
    ident: Spelled<'a>,
}

#[tactic(auto, unfolding(crate::specs::Grammar::read_details))]
fn read_details<'a>(fields: &mut Fields<'a>) -> Result<Details<'a>, usize>
    ensures field { Gives details_of result (details_at fields.old) fields.new }
    ensures texts { IfOk result AreTexts }
    ensures fit { IfOk result (λ details. texts_fault (details_of details).origin (details_of details).ident ≡ None) }
{
    let feed = fields.feed()?;
    let seqno = fields.four_bytes()?;
    let origin = fields.text(LONGEST_ORIGIN)?;
    let ident = fields.text(LONGEST_IDENT)?;
    Ok(Details {
        feed,
        seqno,
        origin,
        ident,
    })
}

// Makes the metadata in the place that is lent.
fn put_info(arrival: Micros, signature: Signature, details: &Details, size: u32, info: &mut Info)
    requires texts { AreTexts details.now }
    requires fit { texts_fault (details_of details.now).origin (details_of details.now).ident ≡ None }
    ensures { info.new ≡ metadata arrival signature.0 (details_of details.now) size }
{
    match (details.origin, details.ident) {
        (Spelled::Itself(origin), Spelled::Itself(ident)) => {
            let Ok(made) = Info::new(
                arrival,
                signature,
                origin,
                details.feed,
                details.seqno,
                ident,
                size,
            ) else {
                unreachable!();
            };
            *info = made;
        }
        _ => put_decoded(arrival, signature, details, size, info),
    }
}

// The same, where a text is not spelled by itself.
#[cold]
#[inline(never)]
fn put_decoded(arrival: Micros, signature: Signature, details: &Details, size: u32, info: &mut Info)
    requires texts { AreTexts details.now }
    requires fit { texts_fault (details_of details.now).origin (details_of details.now).ident ≡ None }
    ensures { info.new ≡ metadata arrival signature.0 (details_of details.now) size }
{
    let origin = details.origin.decoded(LONGEST_ORIGIN);
    let ident = details.ident.decoded(LONGEST_IDENT);
    let Ok(made) = Info::new(
        arrival,
        signature,
        origin.as_slice(),
        details.feed,
        details.seqno,
        ident.as_slice(),
        size,
    ) else {
        unreachable!();
    };
    *info = made;
}

// The signature that was read, or that of the body.
fn signature_of(read: Option<Signature>, body: &Body) -> Signature
    requires { IsBody body.now }
    ensures { result.0 ≡ unwrap_or (option_map (λ s. s.0) read) (md5 (bytes_of body.now)) }
{
    match read {
        Some(signature) => signature,
        None => body.sign(),
    }
}

#[tactic(auto, unfolding(crate::specs::Grammar::read_open))]
fn read_open<'a>(fields: &mut Fields<'a>) -> Result<LentAct<'a>, usize>
    ensures read { MatchResult result
        (λ act. (info : Metadata) → open_at fields.old ≡ Ok (asked_of (act_with info act)))
        (λ bad. open_at fields.old ≡ Err bad) }
    ensures whole { IfOk result (λ act. (info : Metadata) → IsWhole (act_with info act)) }
{
    let feed = fields.feed()?;
    let word = fields.start_word()?;
    let start = read_start(word, fields)?;
    fields.end()?;
    Ok(LentAct::OpenCursor { feed, start })
}

fn read_start(word: StartWord, fields: &mut Fields) -> Result<Start, usize>
    ensures { Gives (λ start. start) result (start_at word fields.old) fields.new }
{
    match word {
        StartWord::Oldest => Ok(Start::Oldest),
        StartWord::Next => Ok(Start::Next),
        StartWord::After => Ok(Start::After(fields.instant()?)),
        StartWord::Sig => Ok(Start::AfterSignature(fields.signature()?)),
    }
}

#[tactic(auto, unfolding(crate::specs::Grammar::read_on_cursor))]
fn read_on_cursor(fields: &mut Fields) -> Result<Place, usize>
    ensures { MatchResult result
        (λ k. (act : ℕ → Event) → on_cursor_at act fields.old ≡ Ok (OnCursor k act))
        (λ bad. (act : ℕ → Event) → on_cursor_at act fields.old ≡ Err bad) }
{
    let k = fields.place()?;
    fields.end()?;
    Ok(k)
}

#[tactic(auto, unfolding(crate::specs::Grammar::read_read))]
fn read_read<'a>(fields: &mut Fields<'a>) -> Result<LentAct<'a>, usize>
    ensures read { MatchResult result
        (λ act. (info : Metadata) → read_at fields.old ≡ Ok (asked_of (act_with info act)))
        (λ bad. read_at fields.old ≡ Err bad) }
    ensures whole { IfOk result (λ act. (info : Metadata) → IsWhole (act_with info act)) }
{
    let k = fields.place()?;
    let offset = fields.four_bytes()?;
    let len = fields.number(u64::from(LONGEST_READ))? as u32;
    fields.end()?;
    Ok(LentAct::Read { k, offset, len })
}

#[tactic(auto, unfolding(crate::specs::Grammar::read_look))]
fn read_look<'a>(fields: &mut Fields<'a>) -> Result<LentAct<'a>, usize>
    ensures read { MatchResult result
        (λ act. (info : Metadata) → look_at fields.old ≡ Ok (asked_of (act_with info act)))
        (λ bad. look_at fields.old ≡ Err bad) }
    ensures whole { IfOk result (λ act. (info : Metadata) → IsWhole (act_with info act)) }
{
    let signature = fields.signature()?;
    fields.end()?;
    Ok(LentAct::Look { signature })
}

#[tactic(auto, unfolding(crate::specs::Grammar::read_reserve))]
fn read_reserve<'a>(fields: &mut Fields<'a>, info: &mut Info) -> Result<LentAct<'a>, usize>
    ensures read { MatchResult result (λ act. reserve_at fields.old ≡ Ok (asked_of (act_with info.new act)))
        (λ bad. reserve_at fields.old ≡ Err bad) }
    ensures whole { IfOk result (λ act. IsWhole (act_with info.new act)) }
{
    let arrival = fields.instant()?;
    let signature = fields.signature()?;
    let details = read_details(fields)?;
    let size = fields.four_bytes()?;
    fields.end()?;
    put_info(arrival, signature, &details, size, info);
    Ok(LentAct::Reserve)
}

#[tactic(auto, unfolding(crate::specs::Grammar::read_fill), using(crate::proofs::Bodies::body_small))]
fn read_fill<'a>(fields: &mut Fields<'a>) -> Result<LentAct<'a>, usize>
    ensures read { MatchResult result
        (λ act. (info : Metadata) → fill_at fields.old ≡ Ok (asked_of (act_with info act)))
        (λ bad. fill_at fields.old ≡ Err bad) }
    ensures whole { IfOk result (λ act. (info : Metadata) → IsWhole (act_with info act)) }
{
    let r = fields.reserve_place()?;
    let body = fields.body()?;
    fields.end()?;
    Ok(LentAct::Fill { r, body })
}

#[tactic(auto, unfolding(crate::specs::Grammar::read_commit))]
fn read_commit<'a>(fields: &mut Fields<'a>) -> Result<LentAct<'a>, usize>
    ensures read { MatchResult result
        (λ act. (info : Metadata) → commit_at fields.old ≡ Ok (asked_of (act_with info act)))
        (λ bad. commit_at fields.old ≡ Err bad) }
    ensures whole { IfOk result (λ act. (info : Metadata) → IsWhole (act_with info act)) }
{
    let r = fields.reserve_place()?;
    let now = fields.instant()?;
    fields.end()?;
    Ok(LentAct::Commit { r, now })
}

#[tactic(auto, unfolding(crate::specs::Grammar::read_discard))]
fn read_discard<'a>(fields: &mut Fields<'a>) -> Result<LentAct<'a>, usize>
    ensures read { MatchResult result
        (λ act. (info : Metadata) → discard_at fields.old ≡ Ok (asked_of (act_with info act)))
        (λ bad. discard_at fields.old ≡ Err bad) }
    ensures whole { IfOk result (λ act. (info : Metadata) → IsWhole (act_with info act)) }
{
    let r = fields.reserve_place()?;
    fields.end()?;
    Ok(LentAct::Discard { r })
}
