//! Messages that are gathered, and go out on a link together.
ghost use Rattle.std.specs.Prelude.{◌≡◌, ◌≤◌, [], IfOk, OnOk, length};
ghost use Rattle.std.specs.Vec.{vec_capacity};
ghost use Rattle.ldm_outside.specs.Link.{IsNotClosed};
ghost use Rattle.ldm_session.specs.Gathering.{SendsSome};
ghost use Rattle.ldm_session.specs.declared.gathering.TheConstants.{ROOM};

use ldm_outside::{Link, LinkFailed, send_all};
use ldm_types::OutOfMemory;
use std::alloc::Global;

/// How many bytes are gathered before they are sent.
pub const GATHERED: usize = 65_536;

// Room for what is gathered, and a message more: a block, or a class.
const ROOM: usize = 98_304;

/// A buffer for messages that are gathered. It takes all its memory at once.
pub fn room_to_gather(alloc: Global) -> Result<Vec<u8>, OutOfMemory>
    ensures empty { IfOk result (λ gathered. gathered.items ≡ []) }
    ensures room { IfOk result (λ gathered. ROOM ≤ vec_capacity gathered) }
{
    Ok(Vec::with_capacity(alloc, ROOM)?)
}

/// Sends all that was gathered, as a session does before it waits for anything. The memory is kept.
pub fn send_gathered<K: Link>(gathered: &mut Vec<u8>, link: &mut K) -> Result<(), LinkFailed>
    requires { IsNotClosed (K.tells link.old) }
    ensures sent { SendsSome result gathered.old.items (K.tells link.old) gathered.new.items (K.tells link.new) }
    ensures empty { OnOk result (gathered.new.items ≡ []) }
    ensures room { vec_capacity gathered.old ≤ vec_capacity gathered.new }
    ensures faults_kept { (K.tells link.old).faults ≤ (K.tells link.new).faults }
    ensures still_open { IsNotClosed (K.tells link.new) }
{
    send_all(link, gathered.as_slice())?;
    gathered.clear();
    Ok(())
}

/// Sends all that was gathered, and looks whether the peer is still there, as a session does before it rests.
pub fn send_before_rest<K: Link>(gathered: &mut Vec<u8>, link: &mut K) -> Result<(), LinkFailed>
    requires { IsNotClosed (K.tells link.old) }
    ensures sent { SendsSome result gathered.old.items (K.tells link.old) gathered.new.items (K.tells link.new) }
    ensures empty { OnOk result (gathered.new.items ≡ []) }
    ensures room { vec_capacity gathered.old ≤ vec_capacity gathered.new }
    ensures faults_kept { (K.tells link.old).faults ≤ (K.tells link.new).faults }
    ensures still_open { IsNotClosed (K.tells link.new) }
{
    send_gathered(gathered, link)?;
    link.check_peer()
}

/// Sends all that was gathered where it is [`GATHERED`] bytes or more, and else nothing.
pub fn send_where_full<K: Link>(gathered: &mut Vec<u8>, link: &mut K) -> Result<(), LinkFailed>
    requires { IsNotClosed (K.tells link.old) }
    ensures sent { SendsSome result gathered.old.items (K.tells link.old) gathered.new.items (K.tells link.new) }
    ensures room { vec_capacity gathered.old ≤ vec_capacity gathered.new }
    ensures faults_kept { (K.tells link.old).faults ≤ (K.tells link.new).faults }
    ensures still_open { IsNotClosed (K.tells link.new) }
{
    if gathered.len() < GATHERED {
        return Ok(());
    }
    send_gathered(gathered, link)
}
