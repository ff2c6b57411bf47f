//! Reading what a journal keeps.
ghost use Rattle.std.specs.Prelude.{◌+◌, ◌*◌, ◌<◌, ◌≤◌};
ghost use Rattle.ldm_journal.specs.declared.places.TheConstants.{LARGEST_RING};

/// Where reading what a journal keeps goes on.
#[derive(Debug, Drop)]
pub struct Reader {
    /// Bytes of the ring.
    pub(crate) ring: u64,
    /// Where in the ring the next record begins, counted on past its end.
    pub(crate) at: u64,
    /// Bytes of the records that are left.
    pub(crate) left: u64,
    ghost sized: { ring ≤ LARGEST_RING },
    ghost filled: { left ≤ ring },
    ghost twice: { at + left < 2 * ring },
}
