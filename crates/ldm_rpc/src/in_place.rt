//! A record that lies whole in a piece.
ghost use Rattle.std.specs.Prelude.{ℕ, IfNone, IfSome, List};
ghost use Rattle.ldm_rpc.specs.Reading.{begun};
ghost use Rattle.ldm_rpc.specs.Spelling.{BeginsSingle};
ghost use Rattle.ldm_rpc.specs.Taking.{IsSingle};

use crate::stage::LAST_FRAGMENT;
use byteorder::{BigEndian, ByteOrder};

// The bytes of a fragment header.
const HEADER: usize = 4;

/// A record of one fragment that lies whole at the front of a piece.
#[derive(Clone, Copy, Debug)]
pub struct InPlace<'a> {
    /// Its content, where it lies.
    pub content: &'a [u8],
    /// The bytes of the piece that it takes: its header and its content.
    pub taken: usize,
}

/// The record of one fragment that a piece begins with, where that is within the limit.
pub(crate) fn single_in(piece: &[u8], limit: u32) -> Option<InPlace<'_>>
    ensures single { IfSome result (IsSingle (begun limit) piece.now) }
    ensures none { IfNone result ((content : List ℕ) → ¬ BeginsSingle limit piece.now content) }
{
    let content = content_in(piece, limit)?;
    Some(InPlace {
        content,
        taken: HEADER + content.len(),
    })
}

// Its content.
fn content_in(piece: &[u8], limit: u32) -> Option<&[u8]>
    ensures begins { IfSome result (λ content. BeginsSingle limit piece.now content.now) }
    ensures none { IfNone result ((content : List ℕ) → ¬ BeginsSingle limit piece.now content) }
{
    if piece.len() < HEADER {
        return None;
    }
    let (header, behind) = piece.split_at(HEADER);
    let number = BigEndian::read_u32(header);
    if number < LAST_FRAGMENT || number - LAST_FRAGMENT > limit {
        return None;
    }
    let len = (number - LAST_FRAGMENT) as usize;
    if len > behind.len() {
        return None;
    }
    Some(&behind[..len])
}
