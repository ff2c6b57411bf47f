//! Products that are put, and the lines of the answers.
ghost use Rattle.std.specs.Prelude.{◌≡◌, ◌≤◌, false, length};
ghost use Rattle.ldm_model.specs.declared.event.Reply.TheVariants as reply;
ghost use Rattle.ldm_outside.specs.Link.{IsNotClosed};
ghost use Rattle.ldm_relay.specs.Writable.{IsShortProduct};
ghost use Rattle.ldm_answers.specs.Answer.{answer_line};
ghost use Rattle.ldm_tools.specs.Lines.{is_denied, is_refused, put_line};
ghost use Rattle.ldm_tools.specs.Told.{TellsAnswer};
ghost use Rattle.ldm_tools.specs.Telling.{PutsProduct, putting_tells};

use crate::put_fault::PutFault;
use crate::puts::Puts;
use ldm_answers::{Answer, Text, put, put_number, write_answer};
use ldm_outside::{Link, Sink, SinkFailed, write_all};
use ldm_relay::PutAnswer;
use ldm_types::Info;

/// Puts a product into the queue of the peer, and writes the line of the answer, as a script has it. Answers whether
/// the queue did not admit the product.
///
/// The body has `info.size()` bytes. After a [`PutFault`] the [`Puts`] is of no more use. That the caller may not
/// insert is no answer of the queue: it has no line.
pub fn put_product<L: Link, K: Sink>(
    puts: &mut Puts,
    link: &mut L,
    sink: &mut K,
    info: &Info,
    body: &[u8],
) -> Result<bool, PutFault>
    requires not_closed { IsNotClosed (L.tells link.old) }
    requires size { length body.now ≡ info.now.size }
    requires short { IsShortProduct info.now info.now.size }
    ensures puts { PutsProduct result (record { info = info.now; body = body.now })
        (putting_tells L.tells K.tells puts.old link.old sink.old)
        (putting_tells L.tells K.tells puts.new link.new sink.new) }
    ensures faults_kept { (L.tells link.old).faults ≤ (L.tells link.new).faults }
    ensures ends_kept { (L.tells link.old).ends ≤ (L.tells link.new).ends }
    ensures sink_kept { (K.tells sink.old).faults ≤ (K.tells sink.new).faults }
    ensures still_open { IsNotClosed (L.tells link.new) }
{
    match puts.put(link, info, body) {
        Ok(answer) => tell_answer(answer, sink),
        Err(why) => Err(PutFault::NoAnswer(why)),
    }
}

// Writes the line of the answer to a PUT, where it has one. Answers whether the queue did not admit the product.
fn tell_answer<K: Sink>(answer: PutAnswer, sink: &mut K) -> Result<bool, PutFault>
    ensures tells { TellsAnswer result answer (K.tells sink.old) (K.tells sink.new) }
    ensures faults_kept { (K.tells sink.old).faults ≤ (K.tells sink.new).faults }
{
    if is_denied(answer) {
        return Err(PutFault::Denied);
    }
    let mut line = Text::new();
    write_put_line(answer, &mut line);
    match write_all(sink, line.as_slice()) {
        Ok(()) => Ok(is_refused(answer)),
        Err(SinkFailed) => Err(PutFault::SinkFault),
    }
}

fn is_denied(answer: PutAnswer) -> bool
    ensures { result ≡ is_denied answer }
{
    matches!(answer, PutAnswer::Denied)
}

fn is_refused(answer: PutAnswer) -> bool
    ensures { result ≡ is_refused answer }
{
    !matches!(answer, PutAnswer::Admitted { .. })
}

// Writes the line of an answer of the queue over what the buffer had.
fn write_put_line(answer: PutAnswer, out: &mut Text)
    requires { is_denied answer ≡ false }
    ensures { out.new.items ≡ put_line answer }
{
    match answer {
        PutAnswer::Admitted { n, time, evicted } => write_admitted(n, time, evicted, out),
        PutAnswer::TooBig { need, arena } => write_answer(&Answer::TooBig { need, arena }, out),
        PutAnswer::Duplicate { n } => write_answer(&Answer::Duplicate { n }, out),
        PutAnswer::TimeEnd => write_answer(&Answer::TimeEnd, out),
        PutAnswer::Locked { held } => write_answer(&Answer::Locked { held }, out),
        PutAnswer::Denied => unreachable!(),
    }
}

// The same of an admitted product, from the numbers as the peer sent them: its time may be no instant.
#[tactic(auto, unfolding(ldm_answers::specs::Answer::reply_text, ldm_answers::specs::Answer::answer_line))]
fn write_admitted(n: u64, time: u64, evicted: u64, out: &mut Text)
    ensures { out.new.items ≡ answer_line (reply.Admitted n time evicted) }
{
    out.clear();
    put(out, b"admitted ");
    put_number(out, n);
    put(out, b" ");
    put_number(out, time);
    put(out, b" ");
    put_number(out, evicted);
    put(out, b"\n");
}
