//! Messages that are read, and written again.
ghost use Rattle.std.specs.Prelude.{◌≡◌, ◌≤◌, length, IfOk, IfSome};
ghost use Rattle.ldm_types.specs.Info.{metadata_len};
ghost use Rattle.ldm_relay.specs.Bodies.{CanCarry, body_len};
ghost use Rattle.ldm_relay.specs.MessageView.{sent_of};
ghost use Rattle.ldm_relay.specs.Writable.{IsWritable};
ghost use Rattle.ldm_relay.specs.declared.message.TheConstants.{LARGEST_CONTENT};

use ldm_drive::Trial;
use ldm_relay::{
    CallWithBody, Hereis, LARGEST_BLOCK, LARGEST_CONTENT, Message, RelayFault, read_call,
    read_refusal, read_reply, write_head, write_message, write_with_room,
};
use ldm_types::{Feed, Info, Micros, Signature};
use std::alloc::Global;

/// Reads a content as a call for procedure 0, or else as a reply to a call of that procedure.
pub fn read(content: &[u8], procedure: u32) -> Result<Message<'_>, RelayFault>
    requires { length content.now ≤ LARGEST_CONTENT }
    ensures { IfOk result (λ m. IsWritable (sent_of m)) }
{
    if procedure == 0 {
        read_call(content)
    } else {
        read_reply(content, procedure)
    }
}

/// Whether the message is written, behind what stands there, as that record.
pub fn is_written(alloc: Global, message: &Message, record: &[u8]) -> Option<bool>
    requires { IsWritable (sent_of message.now) }
{
    let out = written(alloc, message)?;
    Some(out.strip_prefix(b"before") == Some(record))
}

fn written(alloc: Global, message: &Message) -> Option<Vec<u8>>
    requires { IsWritable (sent_of message.now) }
{
    let mut out = Vec::from_slice(alloc, b"before").ok()?;
    write_message(message, &mut out).ok()?;
    Some(out)
}

// The record of a message, in digits.
fn tell_written(trial: &mut Trial, message: &Message)
    requires { IsWritable (sent_of message.now) }
{
    match written(trial.alloc(), message) {
        Some(out) => trial.tell_digits(out.get(6..).unwrap_or(&[])),
        None => trial.lack_memory(),
    }
}

/// `call RECORD`: the content of a record as a call, and how it is written again; or the fault.
pub fn read_as_call(trial: &mut Trial) {
    let record = trial.bytes();
    tell_read(trial, &record, 0);
}

/// `reply PROCEDURE RECORD`: the content of a record as a reply to a call of that procedure, and how it is written
/// again; or the fault.
pub fn read_as_reply(trial: &mut Trial) {
    let procedure = trial.small();
    if procedure == 0 {
        return trial.refuse("no procedure");
    }
    let record = trial.bytes();
    tell_read(trial, &record, procedure);
}

/// `refusal RECORD`: the content of a record as a reply to a call that was not carried out, and how it is written
/// again; or the fault.
pub fn read_as_refusal(trial: &mut Trial) {
    let record = trial.bytes();
    match read_refusal(record.get(4..).unwrap_or(&[])) {
        Ok(refused) => tell_message(trial, &Message::Refused(refused), &record),
        Err(fault) => trial.tell_debug(&fault),
    }
}

fn tell_read(trial: &mut Trial, record: &[u8], procedure: u32) {
    let content = record.get(4..).unwrap_or(&[]);
    if content.len() > LARGEST_CONTENT {
        return trial.refuse("a long content");
    }
    match read(content, procedure) {
        Ok(message) => tell_message(trial, &message, record),
        Err(fault) => trial.tell_debug(&fault),
    }
}

fn tell_message(trial: &mut Trial, message: &Message, record: &[u8])
    requires { IsWritable (sent_of message.now) }
{
    match format!(in trial.alloc(); "{message:?}") {
        Ok(text) => tell_shortened(trial, &text),
        Err(_) => trial.lack_memory(),
    }
    match is_written(trial.alloc(), message, record) {
        Some(true) => trial.tell(", written as it was"),
        Some(false) => {
            trial.tell(", written ");
            tell_written(trial, message);
        }
        None => trial.lack_memory(),
    }
}

// The first 400 characters of a long text, and how many it has.
fn tell_shortened(trial: &mut Trial, text: &str) {
    match text.get(..400) {
        Some(front) => {
            trial.tell(front);
            trial.tell(".. ");
            trial.tell_number(text.len() as u64);
            trial.tell(" characters");
        }
        None => trial.tell(text),
    }
}

/// `made BODY`: the record of a HEREIS that is made here and not read, of a body of at most 16,384 bytes.
pub fn made_message(trial: &mut Trial) {
    let body = trial.bytes();
    if body.len() > LARGEST_BLOCK {
        return trial.refuse("a long body");
    }
    if let Some(message) = hereis_of(&body) {
        tell_written(trial, &message);
    }
}

/// `room PROCEDURE BODY`: the record of a HEREIS, a PUT or a BLKDATA, that is written with room for the body, and then
/// gets it.
pub fn with_room(trial: &mut Trial) {
    let procedure = trial.small();
    let body = trial.bytes();
    if body.len() > LARGEST_BLOCK {
        return trial.refuse("a long body");
    }
    match info_of(body.len() as u32) {
        Some(info) => tell_with_room(trial, procedure, &info, &body),
        None => trial.refuse("no metadata"),
    }
}

fn tell_with_room(trial: &mut Trial, procedure: u32, info: &Info, body: &[u8])
    requires size { info.now.size ≡ length body.now }
    requires metadata { metadata_len info.now ≡ 52 }
    requires short { length body.now ≤ 16384 }
{
    match call_of(procedure, info) {
        Some(call) => tell_filled(trial, &call, body),
        None => trial.refuse("no call with a body"),
    }
}

// A call of that procedure with a body of so many bytes as the metadata tell.
fn call_of(procedure: u32, info: &Info) -> Option<CallWithBody<'_>>
    requires metadata { metadata_len info.now ≡ 52 }
    requires short { info.now.size ≤ 1000000 }
    ensures { IfSome result (λ call. CanCarry call × (body_len call ≡ info.now.size)) }
{
    let size = info.size();
    match procedure {
        1 => Some(CallWithBody::Hereis { xid: 1, info }),
        13 if size as usize <= LARGEST_BLOCK => Some(CallWithBody::Blkdata {
            xid: 1,
            signature: Signature([1; 16]),
            number: 2,
            len: size,
        }),
        101 => Some(CallWithBody::Put { xid: 1, info }),
        _ => None,
    }
}

fn tell_filled(trial: &mut Trial, call: &CallWithBody, body: &[u8])
    requires short { CanCarry call.now }
    requires len { length body.now ≡ body_len call.now }
{
    match filled(trial.alloc(), call, body) {
        Some(out) => trial.tell_digits(out.get(6..).unwrap_or(&[])),
        None => trial.lack_memory(),
    }
}

fn filled(alloc: Global, call: &CallWithBody, body: &[u8]) -> Option<Vec<u8>>
    requires short { CanCarry call.now }
    requires len { length body.now ≡ body_len call.now }
{
    let mut out = Vec::from_slice(alloc, b"before").ok()?;
    let place = write_with_room(call, &mut out).ok()?;
    out[place.start..place.start + place.len].copy_from_slice(body);
    Some(out)
}

/// `head PROCEDURE SIZE`: the record of a HEREIS, a PUT or a BLKDATA up to a body of that size, and how many bytes of
/// padding follow the body.
pub fn head(trial: &mut Trial) {
    let procedure = trial.small();
    let size = trial.small();
    if size > 1_000_000 {
        return trial.refuse("a long body");
    }
    match info_of(size) {
        Some(info) => tell_head_of(trial, procedure, &info),
        None => trial.refuse("no metadata"),
    }
}

fn tell_head_of(trial: &mut Trial, procedure: u32, info: &Info)
    requires metadata { metadata_len info.now ≡ 52 }
    requires short { info.now.size ≤ 1000000 }
{
    match call_of(procedure, info) {
        Some(call) => tell_head(trial, &call),
        None => trial.refuse("no call with a body"),
    }
}

fn tell_head(trial: &mut Trial, call: &CallWithBody)
    requires { CanCarry call.now }
{
    match headed(trial.alloc(), call) {
        Some((out, padding)) => {
            trial.tell_digits(out.get(6..).unwrap_or(&[]));
            trial.tell(", padding ");
            trial.tell_number(padding as u64);
        }
        None => trial.lack_memory(),
    }
}

// The record up to its body, behind what stands there, and the padding.
fn headed(alloc: Global, call: &CallWithBody) -> Option<(Vec<u8>, usize)>
    requires { CanCarry call.now }
{
    let mut out = Vec::from_slice(alloc, b"before").ok()?;
    let padding = write_head(call, &mut out).ok()?;
    Some((out, padding))
}

/// `owed RECORD`: the refusal that a call is owed which cannot be read.
pub fn refusal_owed(trial: &mut Trial) {
    let record = trial.bytes();
    match read_call(record.get(4..).unwrap_or(&[])) {
        Ok(_) => trial.refuse("a call that is read"),
        Err(fault) => trial.tell_debug(&fault.refusal()),
    }
}

fn hereis_of(body: &[u8]) -> Option<Message<'_>>
    requires { length body.now ≤ 16384 }
    ensures { IfSome result (λ m. IsWritable (sent_of m)) }
{
    let info = info_of(body.len() as u32)?;
    Some(Message::Hereis(Hereis { xid: 1, info, body }))
}

fn info_of(size: u32) -> Option<Info>
    ensures { IfSome result (λ info. (info.size ≡ size) × (metadata_len info ≡ 52)) }
{
    let arrival = Micros::new(100)?;
    let signature = Signature([1; 16]);
    match Info::new(arrival, signature, b"h", Feed(2), 1, b"p", size) {
        Ok(info) => Some(info),
        Err(_) => None,
    }
}
