//! Reading calls.
ghost use Rattle.std.specs.Prelude.{◌≡◌, ◌≤◌, length, IfOk};
ghost use Rattle.ldm_relay.specs.MessageView.{sent_of};
ghost use Rattle.ldm_relay.specs.Calls.{call_in, feedme_in, hiya_in, put_in, notifyme_in, notification_in};
ghost use Rattle.ldm_xdr.specs.FieldReads.{Gives};
ghost use Rattle.ldm_relay.specs.Writable.{IsSized, IsWritable};
ghost use Rattle.ldm_relay.specs.Fits.{Fits};
ghost use Rattle.ldm_relay.specs.declared.message.TheConstants.{LARGEST_CONTENT};
ghost use Rattle.ldm_relay.specs.Reading.{Answers, whole, call_of};

use crate::class::read_class;
use crate::fault::RelayFault;
use crate::feed::{Product, read_blkdata, read_comingsoon, read_hereis, read_product};
use crate::header::{called, read_call_header};
use crate::message::{Feedme, Hiya, Isalive, Message, Notification, Notifyme, Put, Qstat};
use crate::procedure::Procedure;
use ldm_xdr::Fields;

/// The call that is the whole content of a record. It borrows the bytes that it carries. It takes no memory.
///
/// The credential and the verifier must be of flavour 0 and have at most 400 bytes, which are not looked at.
#[tactic(auto, using(crate::proofs::Sized::fits_sized), unfolding(crate::specs::Reading::call_of))]
pub fn read_call(bytes: &[u8]) -> Result<Message<'_>, RelayFault>
    ensures read { Answers sent_of result (call_of bytes.now) }
    ensures sized { IfOk result (λ m. IsSized (sent_of m)) }
    // So what is written of it is read again as the same message.
    ensures fits { IfOk result (λ m. Fits (sent_of m)) }
    ensures writable { length bytes.now ≤ LARGEST_CONTENT → IfOk result (λ m. IsWritable (sent_of m)) }
{
    let mut fields = Fields::of(bytes);
    let header = match read_call_header(&mut fields) {
        Ok(header) => header,
        Err(left) => {
            return Err(RelayFault::NotRpc {
                at: bytes.len().saturating_sub(left),
            });
        }
    };
    let procedure = called(header)?;
    match read_rest(procedure, header.xid, fields) {
        Ok(message) => Ok(message),
        Err(left) => Err(RelayFault::BadMessage {
            xid: header.xid,
            at: bytes.len().saturating_sub(left),
        }),
    }
}

// Where one of these cannot read a field, the error is how many bytes there are from it to the end of the record.

// The body, and nothing behind it.
#[tactic(auto, unfolding(crate::specs::Reading::whole))]
fn read_rest(procedure: Procedure, xid: u32, mut fields: Fields<'_>) -> Result<Message<'_>, usize>
    ensures read { Answers sent_of result (whole (call_in procedure xid fields.entry)) }
    ensures fits { IfOk result (λ m. Fits (sent_of m)) }
{
    let message = read_body(procedure, xid, &mut fields)?;
    fields.end()?;
    Ok(message)
}

fn read_body<'a>(
    procedure: Procedure,
    xid: u32,
    fields: &mut Fields<'a>,
) -> Result<Message<'a>, usize>
    ensures read { Gives sent_of result (call_in procedure xid fields.old) fields.new }
    ensures fits { IfOk result (λ m. Fits (sent_of m)) }
{
    match procedure {
        Procedure::Hereis => Ok(Message::Hereis(read_hereis(xid, fields)?)),
        Procedure::Feedme => read_feedme(xid, fields),
        Procedure::Hiya => read_hiya(xid, fields),
        Procedure::Comingsoon => Ok(Message::Comingsoon(read_comingsoon(xid, fields)?)),
        Procedure::Blkdata => Ok(Message::Blkdata(read_blkdata(xid, fields)?)),
        Procedure::Isalive => Ok(Message::Isalive(Isalive { xid })),
        Procedure::Qstat => Ok(Message::Qstat(Qstat { xid })),
        Procedure::Put => read_put_body(xid, fields),
        Procedure::Notification => read_notification(xid, fields),
        Procedure::Notifyme => read_notifyme(xid, fields),
    }
}

#[tactic(auto, unfolding(crate::specs::Calls::feedme_in))]
fn read_feedme<'a>(xid: u32, fields: &mut Fields<'a>) -> Result<Message<'a>, usize>
    ensures read { Gives sent_of result (feedme_in xid fields.old) fields.new }
    ensures fits { IfOk result (λ m. Fits (sent_of m)) }
{
    let class = read_class(fields)?;
    let max_hereis = fields.unsigned()?;
    Ok(Message::Feedme(Feedme {
        xid,
        class,
        max_hereis,
    }))
}

#[tactic(auto, unfolding(crate::specs::Calls::hiya_in))]
fn read_hiya<'a>(xid: u32, fields: &mut Fields<'a>) -> Result<Message<'a>, usize>
    ensures read { Gives sent_of result (hiya_in xid fields.old) fields.new }
    ensures fits { IfOk result (λ m. Fits (sent_of m)) }
{
    let class = read_class(fields)?;
    Ok(Message::Hiya(Hiya { xid, class }))
}

#[tactic(auto, unfolding(crate::specs::Calls::put_in))]
fn read_put_body<'a>(xid: u32, fields: &mut Fields<'a>) -> Result<Message<'a>, usize>
    ensures read { Gives sent_of result (put_in xid fields.old) fields.new }
    ensures fits { IfOk result (λ m. Fits (sent_of m)) }
{
    let Product { info, body } = read_product(fields)?;
    Ok(Message::Put(Put { xid, info, body }))
}

#[tactic(auto, unfolding(crate::specs::Calls::notifyme_in))]
fn read_notifyme<'a>(xid: u32, fields: &mut Fields<'a>) -> Result<Message<'a>, usize>
    ensures read { Gives sent_of result (notifyme_in xid fields.old) fields.new }
    ensures fits { IfOk result (λ m. Fits (sent_of m)) }
{
    let class = read_class(fields)?;
    Ok(Message::Notifyme(Notifyme { xid, class }))
}

#[tactic(auto, unfolding(crate::specs::Calls::notification_in))]
fn read_notification<'a>(xid: u32, fields: &mut Fields<'a>) -> Result<Message<'a>, usize>
    ensures read { Gives sent_of result (notification_in xid fields.old) fields.new }
    ensures fits { IfOk result (λ m. Fits (sent_of m)) }
{
    let info = fields.info()?;
    Ok(Message::Notification(Notification { xid, info }))
}
