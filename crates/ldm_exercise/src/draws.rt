//! The numbers that an exercise draws.
ghost use Rattle.std.specs.Prelude.{◌≡◌};
ghost use Rattle.ldm_exercise.specs.Draws.{after_draw, drawn as drawn_of};

/// The generator of an exercise: a state, which each draw changes.
#[derive(Clone, Copy, Debug)]
pub struct Draws {
    pub state: u64,
}

impl Draws {
    /// Draws a number.
    #[tactic(auto, unfolding(crate::specs::Draws::after_draw, crate::specs::Draws::drawn))]
    pub fn draw(&mut self) -> u32
        ensures drawn { result ≡ drawn_of self.old.state }
        ensures state { self.new.state ≡ after_draw self.old.state }
    {
        self.state = self
            .state
            .wrapping_mul(6_364_136_223_846_793_005)
            .wrapping_add(1_442_695_040_888_963_407);
        (self.state >> 32) as u32
    }
}
