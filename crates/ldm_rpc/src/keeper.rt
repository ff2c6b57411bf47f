//! Who tells how much is kept of a record.
ghost use Rattle.std.specs.Prelude.{◌≡◌};

/// Tells how much is kept of a record.
pub trait Keeper {
    /// How many bytes are kept at most of a record whose content begins so: with [`LEAST_FRONT`](crate::LEAST_FRONT)
    /// bytes or more. Fewer than [`LEAST_FRONT`](crate::LEAST_FRONT) count as that many.
    fn most_kept(&mut self, front: &[u8]) -> u64
        ensures same { self.new ≡ self.old };
}
