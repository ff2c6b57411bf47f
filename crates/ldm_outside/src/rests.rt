//! Clocks that let time pass.
ghost use Rattle.std.specs.Prelude.{◌≡◌};

use crate::clock::Clock;

/// A clock that lets time pass where it is asked to.
pub trait Rests: Clock {
    /// Lets so many seconds pass, and answers no instant. Whether they passed the clock tells who asks it then.
    fn rest(&mut self, seconds: u32)
        ensures { Self.tells self.new ≡ Self.tells self.old };
}
