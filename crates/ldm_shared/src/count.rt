//! How many products are left to be given.
ghost use Rattle.std.specs.Prelude.{◌≡◌};
ghost use Rattle.ldm_shared.specs.Counting.{left_behind};

/// Counts a product off that was given, where there is a count. Of a count that came to 0 nothing is taken.
pub fn count_off(left: &mut Option<u64>)
    ensures { left.new ≡ left_behind left.old 1 }
{
    if let Some(n) = left {
        *n = n.saturating_sub(1);
    }
}
