//! Reading a PUT.
ghost use Rattle.std.specs.Prelude.{◌≡◌, ℕ, List, length, Ok, IfSome, IfNone};
ghost use Rattle.ldm_relay.specs.declared.message.Message.TheVariants as message;
ghost use Rattle.ldm_relay.specs.MessageView.{sent_of};
ghost use Rattle.ldm_relay.specs.Reading.{call_of};
ghost use Rattle.ldm_relay.specs.Sent as sent;
ghost use Rattle.ldm_types.specs.Info.{Metadata};

use crate::feed::{Product, read_product};
use crate::header::{called, read_call_header};
use crate::message::Put;
use crate::procedure::Procedure;
use ldm_xdr::Fields;

/// The PUT that is the whole content of a record, `None` where the content is another message or none. It takes no
/// memory.
///
/// A [`Message`](crate::Message) has room for a class, some 8,700 bytes, and this has not.
#[tactic(auto, using(crate::proofs::Puts::no_put), unfolding(crate::specs::Reading::call_of, crate::specs::Reading::whole, crate::specs::Calls::put_in))]
pub fn read_put(bytes: &[u8]) -> Option<Put<'_>>
    ensures read { IfSome result (λ put. call_of bytes.now ≡ Ok (sent_of (message.Put put))) }
    ensures none { IfNone result ((xid : ℕ) (info : Metadata) (body : List ℕ)
        → ¬ (call_of bytes.now ≡ Ok (sent.Put xid info body))) }
    ensures sized { IfSome result (λ put. length put.body.now ≡ put.info.size) }
{
    let mut fields = Fields::of(bytes);
    let Ok(header) = read_call_header(&mut fields) else {
        return None;
    };
    let Ok(procedure) = called(header) else {
        return None;
    };
    if procedure != Procedure::Put {
        return None;
    };
    let Ok(Product { info, body }) = read_product(&mut fields) else {
        return None;
    };
    if fields.end().is_ok() {
        Some(Put {
            xid: header.xid,
            info,
            body,
        })
    } else {
        None
    }
}
