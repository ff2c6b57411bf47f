//! Which calls a server reads.
ghost use Rattle.std.specs.Prelude.{◌≡◌, ℕ, List};
ghost use Rattle.ldm_class.specs.Rules.{Rules};
ghost use Rattle.ldm_relay.specs.Reading.{call_of};
ghost use Rattle.ldm_serve.specs.AskedView.{to_asked, IsSizedAsked, IsUnread};
ghost use Rattle.ldm_serve.specs.Respond.{to_reading};

use ldm_relay::{Feedme, Hiya, Message, Notifyme, Put, RelayFault, read_call};

/// What a record asks of a server.
#[derive(Drop)]
pub enum Asked<'a> {
    Feedme(Feedme),
    Notifyme(Notifyme),
    Hiya(Hiya),
    Put(Put<'a>),
    Qstat { xid: u32 },
    Isalive,
    /// A call that has no place before a feeding, a receiving or a notifying.
    OutOfPlace,
    /// It could not be read as a call.
    Unread(RelayFault),
}

/// What the content of a record asks of a server.
pub fn read_asked(content: &[u8]) -> Asked<'_>
    ensures asked { (rules : Rules) (host : List ℕ)
        → to_reading rules host (call_of content.now) ≡ to_asked rules host result }
    ensures unread { IsUnread (call_of content.now) result }
    ensures sized { IsSizedAsked result }
{
    match read_call(content) {
        Ok(Message::Feedme(ask)) => Asked::Feedme(ask),
        Ok(Message::Notifyme(ask)) => Asked::Notifyme(ask),
        Ok(Message::Hiya(offer)) => Asked::Hiya(offer),
        Ok(Message::Put(product)) => Asked::Put(product),
        Ok(Message::Qstat(call)) => Asked::Qstat { xid: call.xid },
        Ok(Message::Isalive(_)) => Asked::Isalive,
        Ok(_) => Asked::OutOfPlace,
        Err(fault) => Asked::Unread(fault),
    }
}
