//! Writing lines.
ghost use Rattle.std.specs.Prelude.{◌≡◌, ◌<◌, ◌≤◌, ◌+◌, ◌*◌, ◌++◌, ℕ, List, [], length, replicate, unwrap_or, Some, IsSome, Ok, OnOk, OnErr, codes, decimal, vec_len, vec_capacity};
ghost use Rattle.arrayvec.specs.ArrayVec.{array_vec_len};
ghost use Rattle.hex.specs.Hex.{encode_lower};
ghost use Rattle.ldm_feedtype.specs.Reading.{feed_number};
ghost use Rattle.ldm_feedtype.specs.Text.{feed_digits};
ghost use Rattle.ldm_signature.specs.HexSignature.{hex_signature};
ghost use Rattle.ldm_answers.specs.Answer.{blank_field, blank_number, info_text, product_text};
ghost use Rattle.ldm_script.specs.Bodies.{body_of, digits_of};
ghost use Rattle.ldm_answers.specs.Texts.{body_text};
ghost use Rattle.ldm_script.specs.Grammar.{read_line, word_text};
ghost use Rattle.ldm_answers.specs.Number.{instant_of, four_bytes};
ghost use Rattle.ldm_script.specs.OrderView.{bytes_of, order_of, IsWritable};
ghost use Rattle.ldm_script.specs.Spelling.{spelling, start_text, place_text, reserve_place_text, IsReadBack, carried, front_text, back_text, FrontReadsBack, BackReadsBack, StartReadsBack, IsPlace, IsReservePlace};
ghost use Rattle.ldm_answers.specs.ReadsBack.{InfoReadsBack, ProductReadsBack};
ghost use Rattle.ldm_script.specs.declared.body.TheConstants.{LONGEST_BODY};
ghost use Rattle.ldm_script.specs.declared.order.Order.{Order as ReadOrder};

use crate::body::Body;
use crate::order::{Act, Order, Place, ReservePlace};
use crate::put_places::{put_place, put_reserve_place};
use crate::word::{LineWord, StartWord};
use ldm_answers::{
    LONGEST_ANSWER, Text, put, put_blank, put_blank_number, put_feed, put_four_bytes, put_info,
    put_instant, put_number, put_product_fields, put_signature,
};
use ldm_model::Start;
use ldm_types::{Feed, Info, Micros, OutOfMemory, Signature};

/// Appends the canonical spelling of an order: one line, without its newline.
///
/// Hexadecimal digits are in lower case, SIG is 32 of them, FEED is as [`ldm_feedtype::feed_text`] writes it, BODY is
/// `-` or digits, and K and R are as in the order. Where the line has at most [`crate::LONGEST_LINE`] bytes, it is read
/// as the same order. For want of memory nothing is appended.
pub fn write_line(order: &Order, out: &mut Vec<u8>) -> Result<(), OutOfMemory>
    requires { IsWritable order.now.act }
    ensures written { OnOk result (out.new.items ≡ out.old.items ++ spelling order.now) }
    ensures read_back { OnOk result (IsReadBack order.now) }
    ensures kept { OnErr result (out.new.items ≡ out.old.items) }
{
    let mut front = Text::new();
    put_front(order, &mut front);
    let size = carried_size(&order.act);
    out.reserve(front.len() + 2 * size as usize + 1)?;
    append(out, front.as_slice());
    append_back(&order.act, size, out);
    Ok(())
}

/// An order that some line is read as can be written.
pub fn what_is_read_can_be_written()
    ensures { (actors : ℕ) (line : List ℕ) (order : ReadOrder) → read_line actors line ≡ Ok (Some (order_of order))
        → IsWritable order.act }
{}

// The line up to the body that it carries; the whole line of another order.
fn put_front(order: &Order, out: &mut Text)
    requires { out.old.items ≡ [] }
    ensures text { out.new.items ≡ decimal order.now.actor ++ blank_field (front_text order.now.act) }
    ensures actor { order.now.actor < 64 }
    ensures read_back { FrontReadsBack order.now.act }
{
    put_number(out, u64::from(order.actor.get()));
    out.push(b' ');
    put_act(&order.act, out);
}

fn put_act(act: &Act, out: &mut Text)
    requires { array_vec_len out.old ≤ 100 }
    ensures text { out.new.items ≡ out.old.items ++ front_text act.now }
    ensures read_back { FrontReadsBack act.now }
{
    match act {
        Act::Insert { now, info, .. } => put_insert(*now, info, out),
        Act::OpenCursor { feed, start } => put_open(*feed, start, out),
        Act::Step { k } => put_on_cursor(LineWord::Step, *k, out),
        Act::Read { k, offset, len } => put_read(*k, *offset, *len, out),
        Act::Release { k } => put_on_cursor(LineWord::Release, *k, out),
        Act::Close { k } => put_on_cursor(LineWord::Close, *k, out),
        Act::Look { signature } => put_look(signature, out),
        Act::Expire => put(out, LineWord::Expire.text()),
        Act::Tally { k } => put_on_cursor(LineWord::Tally, *k, out),
        Act::Stat => put(out, LineWord::Stat.text()),
        Act::Reserve { info } => put_reserve(info, out),
        Act::Fill { r, .. } => put_fill(*r, out),
        Act::Commit { r, now } => put_commit(*r, *now, out),
        Act::Discard { r } => put_on_reservation(LineWord::Discard, *r, out),
    }
}

// Each of these appends a word and the fields behind it.

fn put_insert(now: Micros, info: &Info, out: &mut Text)
    requires { array_vec_len out.old ≤ 100 }
    ensures text { out.new.items ≡ out.old.items
        ++ (codes "insert" ++ blank_number now ++ product_text info.now ++ codes " ") }
    ensures now { instant_of (decimal now) ≡ Some now }
    ensures product { ProductReadsBack info.now }
{
    put(out, LineWord::Insert.text());
    put_instant(out, now);
    put_product_fields(out, info);
    out.push(b' ');
}

fn put_open(feed: Feed, start: &Start, out: &mut Text)
    requires { array_vec_len out.old ≤ 100 }
    ensures text { out.new.items ≡ out.old.items
        ++ (codes "open" ++ blank_field (feed_digits feed.0) ++ blank_field (start_text start.now)) }
    ensures feed { feed_number (feed_digits feed.0) ≡ Some feed.0 }
    ensures start { StartReadsBack start.now }
{
    put(out, LineWord::Open.text());
    put_feed(out, feed);
    put_start(start, out);
}

fn put_read(k: Place, offset: u32, len: u32, out: &mut Text)
    requires { array_vec_len out.old ≤ 100 }
    ensures text { out.new.items ≡ out.old.items
        ++ (codes "read" ++ blank_field (place_text k) ++ blank_number offset ++ blank_number len) }
    ensures place { IsPlace k }
    ensures offset { four_bytes (decimal offset) ≡ Some offset }
{
    put_on_cursor(LineWord::Read, k, out);
    put_four_bytes(out, offset);
    put_blank_number(out, u64::from(len));
}

fn put_look(signature: &Signature, out: &mut Text)
    requires { array_vec_len out.old ≤ 100 }
    ensures text { out.new.items ≡ out.old.items ++ (codes "look" ++ blank_field (encode_lower signature.now.0)) }
    ensures signature { hex_signature (encode_lower signature.now.0) ≡ Some signature.now.0 }
{
    put(out, LineWord::Look.text());
    put_signature(out, signature);
}

fn put_reserve(info: &Info, out: &mut Text)
    requires { array_vec_len out.old ≤ 100 }
    ensures text { out.new.items ≡ out.old.items ++ (codes "reserve" ++ info_text info.now) }
    ensures info { InfoReadsBack info.now }
{
    put(out, LineWord::Reserve.text());
    put_info(out, info);
}

fn put_fill(r: ReservePlace, out: &mut Text)
    requires { array_vec_len out.old ≤ 100 }
    ensures text { out.new.items ≡ out.old.items ++ (codes "fill" ++ blank_field (reserve_place_text r) ++ codes " ") }
    ensures place { IsReservePlace r }
{
    put_on_reservation(LineWord::Fill, r, out);
    out.push(b' ');
}

fn put_commit(r: ReservePlace, now: Micros, out: &mut Text)
    requires { array_vec_len out.old ≤ 100 }
    ensures text { out.new.items ≡ out.old.items
        ++ (codes "commit" ++ blank_field (reserve_place_text r) ++ blank_number now) }
    ensures place { IsReservePlace r }
    ensures now { instant_of (decimal now) ≡ Some now }
{
    put_on_reservation(LineWord::Commit, r, out);
    put_instant(out, now);
}

fn put_start(start: &Start, out: &mut Text)
    requires { array_vec_len out.old ≤ 200 }
    ensures text { out.new.items ≡ out.old.items ++ blank_field (start_text start.now) }
    ensures read_back { StartReadsBack start.now }
{
    match start {
        Start::Oldest => put_blank(out, StartWord::Oldest.text()),
        Start::Next => put_blank(out, StartWord::Next.text()),
        Start::After(time) => {
            put_blank(out, StartWord::After.text());
            put_instant(out, *time);
        }
        Start::AfterSignature(signature) => {
            put_blank(out, StartWord::Sig.text());
            put_signature(out, signature);
        }
    }
}

fn put_on_cursor(word: LineWord, k: Place, out: &mut Text)
    requires { array_vec_len out.old ≤ 100 }
    ensures text { out.new.items ≡ out.old.items ++ (word_text word ++ blank_field (place_text k)) }
    ensures len { array_vec_len out.new ≤ array_vec_len out.old + 31 }
    ensures bound { IsPlace k }
{
    put(out, word.text());
    put_place(out, k);
}

fn put_on_reservation(word: LineWord, r: ReservePlace, out: &mut Text)
    requires { array_vec_len out.old ≤ 100 }
    ensures text { out.new.items ≡ out.old.items ++ (word_text word ++ blank_field (reserve_place_text r)) }
    ensures len { array_vec_len out.new ≤ array_vec_len out.old + 31 }
    ensures bound { IsReservePlace r }
{
    put(out, word.text());
    put_reserve_place(out, r);
}

// The size of the body that an act carries, 0 where it carries none.
fn carried_size(act: &Act) -> u32
    requires { IsWritable act.now }
    ensures size { result ≡ length (carried act.now) }
    ensures small { result ≤ LONGEST_BODY }
    ensures room { length (back_text act.now) ≤ 2 * result + 1 }
{
    match act {
        Act::Insert { info, .. } => info.size(),
        Act::Fill { body, .. } => body.len(),
        _ => 0,
    }
}

// Each of these appends to a vector that has the room.

fn append_back(act: &Act, size: u32, out: &mut Vec<u8>)
    requires size { length (carried act.now) ≡ size }
    requires room { vec_len out.old + length (back_text act.now) ≤ vec_capacity out.old }
    ensures text { out.new.items ≡ out.old.items ++ back_text act.now }
    ensures read_back { BackReadsBack act.now }
{
    match act {
        Act::Insert { body, .. } => append_body(body, size, out),
        Act::Fill { body, .. } => append_body(body, size, out),
        _ => {}
    }
}

fn append_body(body: &Body, size: u32, out: &mut Vec<u8>)
    requires size { length (bytes_of body.now) ≡ size }
    requires room { vec_len out.old + length (body_text (bytes_of body.now)) ≤ vec_capacity out.old }
    ensures text { out.new.items ≡ out.old.items ++ body_text (bytes_of body.now) }
    ensures read_back { body_of (body_text (bytes_of body.now)) ≡ Some (bytes_of body.now) }
{
    if size == 0 {
        append(out, b"-");
        return;
    }
    match *body {
        Body::Hex(digits) => append_digits(digits, out),
        Body::Fill { count, byte } => append_fill(count, byte, out),
    }
}

fn append_digits(digits: &[u8], out: &mut Vec<u8>)
    requires read { IsSome (digits_of digits.now) }
    requires room { vec_len out.old + length digits.now ≤ vec_capacity out.old }
    ensures { out.new.items ≡ out.old.items ++ encode_lower (unwrap_or (digits_of digits.now) []) }
{
    for digit in digits {
        append(out, &[digit.to_ascii_lowercase()]);
    }
}

fn append_fill(count: u32, byte: u8, out: &mut Vec<u8>)
    requires { vec_len out.old + 2 * count ≤ vec_capacity out.old }
    ensures text { out.new.items ≡ out.old.items ++ encode_lower (replicate count byte) }
    ensures byte { byte < 256 }
{
    let mut pair = [0; 2];
    if hex::encode_to_slice([byte], &mut pair).is_err() {
        unreachable!();
    }
    for _ in 0..count {
        append(out, &pair);
    }
}

fn append(out: &mut Vec<u8>, bytes: &[u8])
    requires { vec_len out.old + length bytes.now ≤ vec_capacity out.old }
    ensures text { out.new.items ≡ out.old.items ++ bytes.now }
    ensures len { vec_len out.new ≡ vec_len out.old + length bytes.now }
    ensures capacity { vec_capacity out.old ≤ vec_capacity out.new }
{
    if out.extend_from_slice(bytes).is_err() {
        unreachable!();
    }
}
