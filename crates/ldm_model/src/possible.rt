//! What the types of the arguments of a call say: the event is one that a call can be given. A caller who owes this of
//! a call asks these functions, which do nothing.
ghost use Rattle.std.specs.Prelude.{◌≡◌, ◌<◌, length};
ghost use Rattle.ldm_types.specs.Info.{AreBytes, IsFeed, IsMetadata, IsSignature};
ghost use Rattle.ldm_model.specs.History.{IsPlace, IsPossible, IsStart};
ghost use Rattle.ldm_model.specs.declared.event.Event.TheVariants as event;

use crate::event::Start;
use crate::numbers::ReserveNo;
use ldm_types::{Actor, CursorNo, Feed, Info, Micros, Signature};

/// An actor calls.
pub fn actor_is_possible(actor: Actor)
    ensures { actor < 64 }
{
    let _ = actor.get();
}

/// A call is about a cursor place.
pub fn place_is_possible(k: CursorNo)
    ensures { IsPlace k }
{
    let _ = k.get();
}

/// A call is about a reservation place.
pub fn reservation_is_possible(r: ReserveNo)
    ensures { IsPlace r }
{
    let _ = r.get();
}

/// A call is given bytes.
pub fn bytes_are_possible(bytes: &[u8])
    ensures { AreBytes bytes.now }
{
    let _ = bytes.len();
}

/// A call is given a signature.
pub fn signature_is_possible(signature: &Signature)
    ensures { IsSignature signature.now.0 }
{
    let bytes: &[u8] = &signature.0;
    bytes_are_possible(bytes);
}

/// A call is given feedtypes.
pub fn feed_is_possible(feed: Feed)
    ensures { IsFeed feed.0 }
{
    let _ = feed.0;
}

/// A call is told where a cursor begins.
pub fn start_is_possible(start: &Start)
    ensures { IsStart start.now }
{
    match start {
        Start::Oldest => {}
        Start::Next => {}
        Start::After(time) => {
            let _ = time.get();
        }
        Start::AfterSignature(signature) => signature_is_possible(signature),
    }
}

/// A call is given metadata.
pub fn info_is_possible(info: &Info)
    ensures { IsMetadata info.now }
{
    signature_is_possible(&info.signature());
    let _ = info.arrival().get();
    let _ = info.feed();
    let _ = info.seqno();
    let _ = info.size();
    bytes_are_possible(info.origin());
    bytes_are_possible(info.ident());
}

/// A product can be inserted.
pub fn insert_is_possible(now: Micros, info: &Info, body: &[u8])
    requires { length body.now ≡ info.now.size }
    ensures { IsPossible (event.Insert now info.now body.now) }
{
    let _ = now.get();
    bytes_are_possible(body);
    info_is_possible(info);
}

/// Bytes can be filled in.
pub fn fill_is_possible(r: ReserveNo, bytes: &[u8])
    ensures { IsPossible (event.Fill r bytes.now) }
{
    reservation_is_possible(r);
    bytes_are_possible(bytes);
}

/// A reservation can be committed.
pub fn commit_is_possible(r: ReserveNo, now: Micros)
    ensures { IsPossible (event.Commit r now) }
{
    reservation_is_possible(r);
    let _ = now.get();
}
