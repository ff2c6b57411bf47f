//! Reading the calls of a feed.
ghost use Rattle.std.specs.Prelude.{◌≡◌, length, Ok, IfOk, IfSome, MatchOption};
ghost use Rattle.ldm_relay.specs.declared.message.Message.TheVariants as message;
ghost use Rattle.ldm_relay.specs.MessageView.{sent_of};
ghost use Rattle.ldm_relay.specs.Calls.{call_in, product_in, hereis_in, comingsoon_in, blkdata_in};
ghost use Rattle.ldm_relay.specs.FeedCalls.{feed_sent_of, IsNoFeedCall, IsNoFeedBody};
ghost use Rattle.ldm_relay.specs.Fits.{Fits};
ghost use Rattle.ldm_relay.specs.Reading.{call_of};
ghost use Rattle.ldm_relay.specs.Writable.{IsSized};
ghost use Rattle.ldm_xdr.specs.Fields.{fixed_in};
ghost use Rattle.ldm_xdr.specs.FieldReads.{Gives};
ghost use Rattle.ldm_xdr.specs.Spelling.{Fits as InfoFits};

use crate::header::{called, read_call_header};
use crate::message::{Blkdata, Comingsoon, Hereis, Isalive, LARGEST_BLOCK};
use crate::procedure::Procedure;
use ldm_types::{Info, Signature};
use ldm_xdr::Fields;

/// A call of a feed. It borrows the bytes that it carries.
///
/// A [`Message`](crate::Message) has room for a class, some 8,700 bytes, and this has not: who takes a feed does not
/// move such room for each record.
#[derive(Drop)]
pub enum FeedCall<'a> {
    Hereis(Hereis<'a>),
    Comingsoon(Comingsoon),
    Blkdata(Blkdata<'a>),
    Isalive(Isalive),
}

/// The call of a feed that is the whole content of a record, `None` where the content is another message or none. It
/// takes no memory.
#[tactic(auto, using(crate::proofs::FeedCalls::whole_is_other, crate::proofs::Sized::fits_sized), unfolding(crate::specs::Reading::call_of, crate::specs::Reading::whole))]
pub fn read_feed_call(bytes: &[u8]) -> Option<FeedCall<'_>>
    ensures read { MatchOption result (IsNoFeedCall (call_of bytes.now))
        (λ call. call_of bytes.now ≡ Ok (feed_sent_of call)) }
    ensures sized { IfSome result (λ call. IsSized (feed_sent_of call)) }
    // So what is written of it is read again as the same message.
    ensures fits { IfSome result (λ call. Fits (feed_sent_of call)) }
{
    let mut fields = Fields::of(bytes);
    let Ok(header) = read_call_header(&mut fields) else {
        return None;
    };
    let Ok(procedure) = called(header) else {
        return None;
    };
    let call = read_feed_body(procedure, header.xid, &mut fields)?;
    if fields.end().is_ok() {
        Some(call)
    } else {
        None
    }
}

// Where one of these cannot read a field, the error is how many bytes there are from it to the end of the record.

// The body of a call of a feed. Behind another procedure none is read.
fn read_feed_body<'a>(
    procedure: Procedure,
    xid: u32,
    fields: &mut Fields<'a>,
) -> Option<FeedCall<'a>>
    ensures read { MatchOption result (IsNoFeedBody (call_in procedure xid fields.old))
        (λ call. call_in procedure xid fields.old ≡ Ok (feed_sent_of call, fields.new)) }
    ensures fits { IfSome result (λ call. Fits (feed_sent_of call)) }
{
    match procedure {
        Procedure::Hereis => Some(FeedCall::Hereis(read_hereis(xid, fields).ok()?)),
        Procedure::Comingsoon => Some(FeedCall::Comingsoon(read_comingsoon(xid, fields).ok()?)),
        Procedure::Blkdata => Some(FeedCall::Blkdata(read_blkdata(xid, fields).ok()?)),
        Procedure::Isalive => Some(FeedCall::Isalive(Isalive { xid })),
        Procedure::Feedme => None,
        Procedure::Hiya => None,
        Procedure::Qstat => None,
        Procedure::Put => None,
        Procedure::Notification => None,
        Procedure::Notifyme => None,
    }
}

#[tactic(auto, unfolding(crate::specs::Calls::hereis_in))]
pub(crate) fn read_hereis<'a>(xid: u32, fields: &mut Fields<'a>) -> Result<Hereis<'a>, usize>
    ensures read { Gives (λ m. sent_of (message.Hereis m)) result (hereis_in xid fields.old) fields.new }
    ensures fits { IfOk result (λ m. Fits (sent_of (message.Hereis m))) }
{
    let Product { info, body } = read_product(fields)?;
    Ok(Hereis { xid, info, body })
}

#[tactic(auto, unfolding(crate::specs::Calls::comingsoon_in))]
pub(crate) fn read_comingsoon(xid: u32, fields: &mut Fields) -> Result<Comingsoon, usize>
    ensures read { Gives (λ m. sent_of (message.Comingsoon m)) result (comingsoon_in xid fields.old) fields.new }
    ensures fits { IfOk result (λ m. Fits (sent_of (message.Comingsoon m))) }
{
    let info = fields.info()?;
    let block_size = fields.unsigned()?;
    Ok(Comingsoon {
        xid,
        info,
        block_size,
    })
}

#[tactic(auto, unfolding(crate::specs::Calls::blkdata_in))]
pub(crate) fn read_blkdata<'a>(xid: u32, fields: &mut Fields<'a>) -> Result<Blkdata<'a>, usize>
    ensures read { Gives (λ m. sent_of (message.Blkdata m)) result (blkdata_in xid fields.old) fields.new }
    ensures fits { IfOk result (λ m. Fits (sent_of (message.Blkdata m))) }
{
    let signature = read_signature(fields)?;
    let number = fields.unsigned()?;
    let block = fields.opaque(LARGEST_BLOCK as u32)?;
    Ok(Blkdata {
        xid,
        signature,
        number,
        block,
    })
}

/// Metadata, and as many bytes as they say.
pub(crate) struct Product<'a> {
    pub info: Info,
    pub body: &'a [u8],
}

#[tactic(auto, unfolding(crate::specs::Calls::product_in))]
pub(crate) fn read_product<'a>(fields: &mut Fields<'a>) -> Result<Product<'a>, usize>
    ensures read { Gives (λ product. (product.info, product.body.now)) result (product_in fields.old) fields.new }
    ensures sized { IfOk result (λ product. length product.body.now ≡ product.info.size) }
    ensures fits { IfOk result (λ product. InfoFits product.info) }
{
    let info = fields.info()?;
    let body = fields.fixed(info.size())?;
    Ok(Product { info, body })
}

fn read_signature(fields: &mut Fields) -> Result<Signature, usize>
    ensures { Gives (λ signature. signature.0) result (fixed_in 16 fields.old) fields.new }
{
    let bytes = fields.fixed(16)?;
    let mut signature = [0; 16];
    signature.copy_from_slice(bytes);
    Ok(Signature(signature))
}
