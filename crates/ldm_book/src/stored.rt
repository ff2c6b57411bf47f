//! What stands in the arena: the metadata of a product as they are spelled, and its body behind them.
ghost use Rattle.std.specs.Prelude.{◌≡◌, ◌+◌, ◌≤◌, ◌++◌, length, IfSome, Some};
ghost use Rattle.ldm_types.specs.Info.{Metadata, metadata_len};
ghost use Rattle.ldm_xdr.specs.Spelling.{Fits, spelling};
ghost use Rattle.ldm_book.specs.Restoring.{IsWholeAt};
ghost use Rattle.ldm_book.specs.Stored.{StandsAt};

use ldm_types::{ARENA_UNIT, Info};
use ldm_xdr::{read_info, write_info};

/// Writes the metadata of a product and its body behind them. The room has as many bytes.
pub(crate) fn write_product(room: &mut [u8], info: &Info, body: &[u8])
    requires { length room.old ≡ metadata_len info.now + length body.now }
    ensures written { room.new ≡ spelling info.now ++ body.now }
    ensures fits { Fits info.now }
{
    let head = write_info(info, room);
    room[head..].copy_from_slice(body);
}

/// The metadata that stand at a place of the arena.
pub(crate) fn metadata_at(arena: &[u8], place: u64) -> Info
    requires within { place ≤ length arena.now }
    requires some { (info : Metadata) × StandsAt arena.now place info }
    ensures { (info : Metadata) → StandsAt arena.now place info → result ≡ info }
{
    let Ok((info, _)) = read_info(&arena[place as usize..]) else {
        unreachable!()
    };
    info
}

/// The metadata of the product that is whole at a place. `None` exactly where none is.
pub(crate) fn whole_at(arena: &[u8], place: u64) -> Option<Info>
    ensures found { IfSome result (IsWholeAt arena.now place) }
    ensures only { (info : Metadata) → IsWholeAt arena.now place info → result ≡ Some info }
{
    if place % ARENA_UNIT != 0 || place > arena.len() as u64 {
        return None;
    }
    let behind = &arena[place as usize..];
    let Ok((info, head)) = read_info(behind) else {
        return None;
    };
    if info.size() as usize > behind.len() - head {
        return None;
    }
    Some(info)
}
