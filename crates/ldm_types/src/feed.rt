//! Feedtypes.
ghost use Rattle.std.specs.Prelude.{◌≡◌, ◌↔◌, IsTrue};
ghost use Rattle.ldm_types.specs.Feed.{feeds_meet, ShareBit};

/// A set of feedtypes, one bit each: bit 0 is PPS, bit 1 is DDS, and so on. The default is the empty set.
#[derive(Clone, Copy, Debug, Default, PartialEq, Eq, PartialOrd, Ord, Hash)]
pub struct Feed(pub u32);

impl Feed {
    /// Whether the two sets share a feedtype.
    pub fn meets(self, other: Feed) -> bool
        ensures value { result ≡ feeds_meet self.0 other.0 }
        ensures shared { IsTrue result ↔ ShareBit self.0 other.0 }
    {
        self.0 & other.0 != 0
    }
}
