//! What the names of feedtypes mean.
ghost use Rattle.std.specs.Prelude.{◌≡◌, ◌<◌, ◌^◌, ℕ, Ok, Some};
ghost use Rattle.ldm_feedtype.specs.FeedSets.{set_of};
ghost use Rattle.ldm_feedtype.specs.Reading.{feed_number, feed_set};
ghost use Rattle.ldm_watch.specs.FeedNames.{feeds_text};

/// The names that a line for people has are an expression that means the same feedtypes. It does nothing.
pub fn names_are_read_back()
    ensures set { (set : ℕ) → set < 2 ^ 32 → feed_set (feeds_text set) ≡ Ok (set_of set) }
    ensures number { (set : ℕ) → set < 2 ^ 32 → feed_number (feeds_text set) ≡ Some set }
{}
