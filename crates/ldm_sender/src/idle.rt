//! The end of the queue.
ghost use Rattle.std.specs.Prelude.{List, ℕ};
ghost use Rattle.ldm_outside.specs.Io.{SinkRecord};
ghost use Rattle.ldm_outside.specs.Link.{IsNotClosed};
ghost use Rattle.ldm_shared.specs.Passes.{PassView};
ghost use Rattle.ldm_sender.specs.Acts.{situation_of};
ghost use Rattle.ldm_sender.specs.Does.{moment_of};
ghost use Rattle.ldm_sender.specs.Idling.{Idles};

use crate::end::SendEnd;
use crate::standing::{Standing, count_call};
use ldm_outside::{Clock, Gate, Go, Link};
use ldm_relay::{Isalive, Message, write_message};
use ldm_session::{is_silent_since, send_before_rest};

/// Sends all that is gathered, looks whether the peer is still there, and asks the gate. Where that says to go on, an
/// IS_ALIVE is gathered if nothing was sent for long.
pub fn wait_idle<K: Link, C: Clock, G: Gate>(
    standing: &mut Standing,
    out: &mut Vec<u8>,
    link: &mut K,
    clock: &mut C,
    gate: &mut G,
) -> Result<(), SendEnd>
    requires { IsNotClosed (K.tells link.old) }
    ensures still_open { IsNotClosed (K.tells link.new) }
    ensures idles { (host : List ℕ) (pass : PassView) (log : SinkRecord) → Idles result host standing.old standing.new
        (situation_of (moment_of pass (K.tells link.old) (C.tells clock.old) out.old.items) log (G.tells gate.old))
        (situation_of (moment_of pass (K.tells link.new) (C.tells clock.new) out.new.items) log (G.tells gate.new)) }
{
    send_before_rest(out, link)?;
    if let Go::Stop = gate.idle() {
        return Err(SendEnd::Stopped);
    }
    let now = clock.now();
    if is_silent_since(standing.sent_at, now) {
        let message = Message::Isalive(Isalive { xid: standing.next });
        write_message(&message, out)?;
        count_call(standing, clock);
    }
    Ok(())
}
