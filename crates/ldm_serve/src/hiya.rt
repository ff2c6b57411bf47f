//! HIYA.
ghost use Rattle.std.specs.Prelude.{◌≡◌, ℕ, ◌++◌, ◌∷◌, [], None, OnOk, OnErr};
ghost use Rattle.ldm_class.specs.Classes.{bad_place};
ghost use Rattle.ldm_class.specs.declared.answers.Reduced.TheVariants as reduced;
ghost use Rattle.ldm_outside.specs.Clock.{ClockRecord};
ghost use Rattle.ldm_relay.specs.Sent as sent;
ghost use Rattle.ldm_shared.specs.Passes.{PassView};
ghost use Rattle.ldm_relay.specs.Spelling.{records_of};
ghost use Rattle.ldm_serve.specs.Respond.{to_hiya, to_offer};
ghost use Rattle.ldm_serve.specs.Responds.{Responds, stands};

use crate::client::Client;
use crate::responded::{RespondFault, Responded};
use crate::saying::say;
use ldm_class::{Class, ClassFault, Reduced};
use ldm_relay::{ClassAnswer, Hiya, HiyaReply, Message};
use ldm_types::{ClassSpec, OutOfMemory};
use std::alloc::Global;

/// The size of the largest product that is to come whole from a peer that pushes, in bytes.
pub const MAX_HEREIS: u32 = 16_384;

// Appends the answer to the HIYA of that number.
fn say_hiya(xid: u32, answer: ClassAnswer, out: &mut Vec<u8>) -> Result<(), OutOfMemory>
    ensures ok { OnOk result (out.new.items ≡ out.old.items ++ records_of (sent.HiyaReply xid MAX_HEREIS answer ∷ [])) }
    ensures err { OnErr result (out.new.items ≡ out.old.items) }
{
    say(
        &Message::HiyaReply(HiyaReply {
            xid,
            max_hereis: MAX_HEREIS,
            answer,
        }),
        out,
    )
}

// An offer to push the products of a class.
pub(crate) fn hiya(
    client: &Client<'_>,
    offer: Hiya,
    out: &mut Vec<u8>,
) -> Result<Responded, RespondFault>
    ensures { (pass : PassView) (clock : ClockRecord)
        → Responds result (to_hiya client.now.rules client.now.host offer.xid offer.class)
        (stands pass clock out.old.items) (stands pass clock out.new.items) }
{
    match Class::check(client.alloc(), &offer.class) {
        Ok(()) => {
            let left = client.left_of(&offer.class, true)?;
            offered(client.alloc(), offer.xid, &offer.class, left, out)
        }
        Err(ClassFault::BadPattern { .. }) => {
            say_hiya(offer.xid, ClassAnswer::BadPattern, out)?;
            Ok(Responded::GoesOn)
        }
        Err(ClassFault::OutOfMemory) => Err(RespondFault::OutOfMemory),
    }
}

// Goes on by what the rules leave of the class that is offered. It is built only where that is all of it.
fn offered(
    alloc: Global,
    xid: u32,
    class: &ClassSpec,
    left: Reduced,
    out: &mut Vec<u8>,
) -> Result<Responded, RespondFault>
    requires { bad_place class.now.specs.items ≡ None }
    ensures { (pass : PassView) (clock : ClockRecord) → Responds result (to_offer xid class.now left)
        (stands pass clock out.old.items) (stands pass clock out.new.items) }
{
    match left {
        Reduced::Same => accept(alloc, xid, class, out),
        Reduced::Fewer(fewer) => {
            say_hiya(xid, ClassAnswer::Reclass(fewer), out)?;
            Ok(Responded::GoesOn)
        }
        Reduced::Nothing { rule } => {
            say_hiya(xid, ClassAnswer::Denied, out)?;
            Ok(Responded::Denied { rule })
        }
    }
}

// Accepts all of the class that is offered.
fn accept(
    alloc: Global,
    xid: u32,
    class: &ClassSpec,
    out: &mut Vec<u8>,
) -> Result<Responded, RespondFault>
    requires { bad_place class.now.specs.items ≡ None }
    ensures { (pass : PassView) (clock : ClockRecord) → Responds result (to_offer xid class.now reduced.Same)
        (stands pass clock out.old.items) (stands pass clock out.new.items) }
{
    match Class::build(alloc, class) {
        Ok(class) => {
            say_hiya(xid, ClassAnswer::Ok, out)?;
            Ok(Responded::Receives { class })
        }
        Err(ClassFault::BadPattern { .. }) => unreachable!(),
        Err(ClassFault::OutOfMemory) => Err(RespondFault::OutOfMemory),
    }
}
