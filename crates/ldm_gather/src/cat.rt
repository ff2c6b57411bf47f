//! What writes products.
ghost use Rattle.std.specs.Prelude.{IfOk};
ghost use Rattle.ldm_gather.specs.CatTaking.{HasRoom};

use crate::body::{WriteStop, write_body};
use crate::cat_limits::LARGEST_PIECE;
use crate::{Taken, Taker};
use ldm_outside::Sink;
use ldm_shared::{Held, Pass, Reader, Shared};
use ldm_types::OutOfMemory;
use std::alloc::Global;
use std::sync::Wait;

/// Writes the body of each product that it takes to a sink, one behind the other.
#[derive(Drop)]
pub struct Cat {
    // A piece of a body, as it is read.
    piece: Vec<u8>,
}

impl Cat {
    /// One that has room for a piece.
    pub fn create(alloc: Global) -> Result<Cat, OutOfMemory>
        ensures { IfOk result HasRoom }
    {
        let mut piece = Vec::new(alloc);
        piece.resize(LARGEST_PIECE, 0)?;
        Ok(Cat { piece })
    }
}

impl<K: Sink> Taker<K> for Cat {
    ghost use Rattle.ldm_gather.specs.CatTaking.{CatTakes, HasRoom};

    ghost begins = { λ cat _. HasRoom cat };

    ghost takes = { CatTakes K.tells };

    fn take<H: Wait>(
        &mut self,
        rt: &H,
        shared: &Shared,
        pass: &mut Pass,
        reader: &Reader,
        held: &Held,
        lent: &mut K,
    ) -> Taken {
        let piece = self.piece.as_mut_slice();
        match write_body(rt, shared, pass, reader, held, piece, lent) {
            Ok(()) => Taken::On,
            Err(WriteStop::SinkFault) => Taken::Stopped,
            Err(WriteStop::Worn) => Taken::Worn,
        }
    }
}
