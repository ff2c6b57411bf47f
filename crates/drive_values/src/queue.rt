//! The tables of a queue.

pub mod cursors;
pub mod gaps;
pub mod regions;
pub mod signatures;
mod sums;
pub mod times;

use crate::queue::cursors::Seats;
use crate::queue::gaps::Gaps;
use crate::queue::regions::Owners;
use crate::queue::signatures::Signatures;
use crate::queue::times::Times;
use ldm_drive::Trial;
use std::alloc::Global;

/// One table of each kind.
#[derive(Drop)]
pub struct Tables {
    gaps: Gaps,
    regions: Owners,
    signatures: Signatures,
    times: Times,
    cursors: Seats,
}

impl Tables {
    pub fn create(alloc: Global) -> Option<Tables> {
        Some(Tables {
            gaps: Gaps::create(alloc, 0, 0).ok()?,
            regions: Owners::create(alloc, 64, 0).ok()?,
            signatures: Signatures::create(alloc, 0, 0).ok()?,
            times: Times::create(alloc, 0).ok()?,
            cursors: Seats::create(alloc).ok()?,
        })
    }

    /// A case of the table of that name.
    pub fn answer(&mut self, name: &str, trial: &mut Trial) {
        match name {
            "gaps" => self.gaps.answer(trial),
            "regions" => self.regions.answer(trial),
            "signatures" => self.signatures.answer(trial),
            "times" => self.times.answer(trial),
            _ => self.cursors.answer(trial),
        }
    }
}
