//! What one who watches sends and writes.
ghost use Rattle.std.specs.Prelude.{◌≡◌, ◌+◌, ◌*◌, ◌≤◌, ◌++◌, ◌∷◌, [], length, OnOk, OnErr};
ghost use Rattle.arrayvec.specs.ArrayVec.{array_vec_len};
ghost use Rattle.ldm_relay.specs.Sent as sent;
ghost use Rattle.ldm_answers.specs.Answer.{blank_field, blank_number};
ghost use Rattle.ldm_answers.specs.Texts.{spelled};
ghost use Rattle.ldm_answers.specs.declared.answer.TheConstants.{LONGEST_ANSWER};
ghost use Rattle.ldm_relay.specs.Spelling.{records_of};
ghost use Rattle.ldm_watch.specs.Notices.{arrival_field, feed_field, notice_fields, notice_line, product_fields};

use crate::dates::instant_text;
use crate::form::NoticeForm;
use crate::names::feed_names;
use ldm_answers::{Text, put, put_number, text_into};
use ldm_feedtype::feed_text;
use ldm_relay::{Message, Notifyme, write_message};
use ldm_signature::write_hex;
use ldm_types::{ClassSpec, Feed, Info, Micros, OutOfMemory};

/// Appends the record of the NOTIFYME of that number.
pub(crate) fn put_notifyme(
    out: &mut Vec<u8>,
    xid: u32,
    class: &ClassSpec,
) -> Result<(), OutOfMemory>
    ensures ok { OnOk result (out.new.items ≡ out.old.items ++ records_of (sent.Notifyme xid class.now ∷ [])) }
    ensures err { OnErr result (out.new.items ≡ out.old.items) }
{
    let class = class.copy();
    write_message(&Message::Notifyme(Notifyme { xid, class }), out)
}

/// Appends the line of a notice, in that form: `notice ARRIVAL SIG FEED SEQNO ORIGIN IDENT SIZE`.
#[tactic(auto, unfolding(crate::specs::Notices::notice_line))]
pub(crate) fn put_notice(
    lines: &mut Vec<u8>,
    form: NoticeForm,
    info: &Info,
) -> Result<(), OutOfMemory>
    ensures { OnOk result (lines.new.items ≡ lines.old.items ++ notice_line form info.now) }
{
    let mut line = Text::new();
    put(&mut line, b"notice");
    put_info(&mut line, form, info);
    put(&mut line, b"\n");
    lines.extend_from_slice(line.as_slice())?;
    Ok(())
}

// `ARRIVAL SIG FEED SEQNO ORIGIN IDENT SIZE` of a product, a blank before each.
fn put_info(line: &mut Text, form: NoticeForm, info: &Info)
    requires { array_vec_len line.old ≤ 100 }
    ensures text { line.new.items ≡ line.old.items ++ notice_fields form info.now }
    ensures len { array_vec_len line.new ≤ array_vec_len line.old + 1500 }
{
    put_arrival(line, form, info.arrival());
    put_product(line, form, info);
    put_count(line, u64::from(info.size()));
}

// `SIG FEED SEQNO ORIGIN IDENT` of a product, a blank before each.
fn put_product(line: &mut Text, form: NoticeForm, info: &Info)
    requires { array_vec_len line.old ≤ 200 }
    ensures text { line.new.items ≡ line.old.items ++ product_fields form info.now }
    ensures len { array_vec_len line.new ≤ array_vec_len line.old + 1400 }
{
    put_field(line, write_hex(&info.signature()).as_slice());
    put_feed(line, form, info.feed());
    put_count(line, u64::from(info.seqno()));
    put_text(line, info.origin());
    put_text(line, info.ident());
}

// A blank, and an arrival.
fn put_arrival(line: &mut Text, form: NoticeForm, arrival: Micros)
    requires { array_vec_len line.old + 28 ≤ LONGEST_ANSWER }
    ensures text { line.new.items ≡ line.old.items ++ blank_field (arrival_field form arrival) }
    ensures len { array_vec_len line.new ≤ array_vec_len line.old + 28 }
{
    match form {
        NoticeForm::Numbers => put_count(line, arrival.get()),
        NoticeForm::Names => put_field(line, instant_text(arrival).as_slice()),
    }
}

// A blank, and a set of feedtypes.
fn put_feed(line: &mut Text, form: NoticeForm, feed: Feed)
    requires { array_vec_len line.old + 289 ≤ LONGEST_ANSWER }
    ensures text { line.new.items ≡ line.old.items ++ blank_field (feed_field form feed.0) }
    ensures len { array_vec_len line.new ≤ array_vec_len line.old + 289 }
{
    match form {
        NoticeForm::Numbers => put_field(line, feed_text(feed).as_slice()),
        NoticeForm::Names => put_field(line, feed_names(feed).as_slice()),
    }
}

// A blank, and the spelling of a text.
fn put_text(line: &mut Text, text: &[u8])
    requires { array_vec_len line.old + 3 * length text.now + 2 ≤ LONGEST_ANSWER }
    ensures text { line.new.items ≡ line.old.items ++ blank_field (spelled text.now) }
    ensures len { array_vec_len line.new ≤ array_vec_len line.old + 3 * length text.now + 2 }
{
    put(line, b" ");
    text_into(text, line);
}

// A blank, and a field.
fn put_field(line: &mut Text, field: &[u8])
    requires { array_vec_len line.old + length field.now + 1 ≤ LONGEST_ANSWER }
    ensures text { line.new.items ≡ line.old.items ++ blank_field field.now }
    ensures len { array_vec_len line.new ≡ array_vec_len line.old + length field.now + 1 }
{
    put(line, b" ");
    put(line, field);
}

// A blank, and a number.
fn put_count(line: &mut Text, n: u64)
    requires { array_vec_len line.old + 21 ≤ LONGEST_ANSWER }
    ensures text { line.new.items ≡ line.old.items ++ blank_number n }
    ensures len { array_vec_len line.new ≤ array_vec_len line.old + 21 }
{
    put(line, b" ");
    put_number(line, n);
}
