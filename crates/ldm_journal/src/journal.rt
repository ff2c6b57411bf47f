//! An open journal.
ghost use Rattle.ldm_journal.specs.Sound.{IsSound};

use crate::marks::Marks;

/// An open journal: what is known of its file.
#[derive(Debug, Drop)]
pub struct Journal {
    pub(crate) marks: Marks,
    ghost sound: { IsSound marks },
}
