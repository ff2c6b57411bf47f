//! Numbers that are drawn.
ghost use Rattle.std.specs.Prelude.{◌<◌};

/// Knuth's linear congruential generator.
#[derive(Drop)]
pub struct Draws(u64);

impl Draws {
    /// The draws behind a seed.
    pub fn behind(seed: u64) -> Draws {
        Draws(seed)
    }

    /// The next state.
    pub fn state(&mut self) -> u64 {
        self.0 = self
            .0
            .wrapping_mul(6_364_136_223_846_793_005)
            .wrapping_add(1_442_695_040_888_963_407);
        self.0
    }

    /// The upper half of the next state.
    pub fn half(&mut self) -> u64 {
        self.state() >> 32
    }

    /// The next number, below a limit.
    pub fn below(&mut self, limit: u64) -> u64
        requires { 0 < limit }
        ensures { result < limit }
    {
        (self.state() >> 33) % limit
    }

    /// The next byte.
    pub fn byte(&mut self) -> u8 {
        self.below(256) as u8
    }
}
