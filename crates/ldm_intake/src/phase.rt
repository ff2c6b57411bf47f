//! Where a receiving stands.

ghost use Rattle.std.specs.Prelude.{◌≡◌, ◌<◌, ◌+◌};
ghost use Rattle.ldm_intake.specs.Products.{is_next};
ghost use Rattle.ldm_intake.specs.Receiving.{left_of};

use ldm_model::ReserveNo;
use ldm_relay::{Blkdata, LARGEST_BLOCK};
use ldm_types::{ClassSpec, Info};

/// What a receiver waits for.
#[derive(Drop)]
pub enum Phase {
    /// The reply to a FEEDME, the first or the second one, that asked for the class.
    Asked { class: ClassSpec, again: bool },
    /// The messages of a feed.
    Feeding,
}

/// A product that was announced, and whose blocks come.
#[derive(Drop)]
pub struct Pending {
    pub info: Info,
    /// The place of its reservation.
    pub r: ReserveNo,
    /// How many blocks came.
    pub blocks: u32,
}

impl Pending {
    /// How many bytes of the body are to come.
    pub fn left(&self) -> usize
        ensures { result ≡ left_of self.now }
    {
        (self.info.size() as usize).saturating_sub(self.blocks as usize * LARGEST_BLOCK)
    }

    /// Whether a block is the next one: all of the rest, or as much as a block takes.
    pub fn is_next(&self, part: &Blkdata) -> bool
        ensures { result ≡ is_next self.now part.now.signature.0 part.now.number part.now.block.now }
    {
        let signature = self.info.signature();
        part.signature.0.as_slice() == signature.0.as_slice()
            && part.number == self.blocks
            && part.block.len() == LARGEST_BLOCK.min(self.left())
    }

    /// What is pending behind one block more.
    pub fn next(self) -> Pending
        requires { 0 < left_of self }
        ensures { result ≡ record self { blocks = self.blocks + 1 } }
    {
        Pending {
            info: self.info,
            r: self.r,
            blocks: self.blocks + 1,
        }
    }

    /// The same once more. It takes no memory.
    pub fn copy(&self) -> Pending
        ensures { result ≡ self.now }
    {
        Pending {
            info: self.info.copy(),
            r: self.r,
            blocks: self.blocks,
        }
    }
}
