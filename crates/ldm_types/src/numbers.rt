//! Small numbers: who calls, and through which cursor.
ghost use Rattle.std.specs.Prelude.{◌≡◌, ◌<◌, SomeIff};

use std::marker::Model;

/// Who calls the queue: a number below [`Actor::COUNT`].
#[derive(Clone, Copy, Debug, PartialEq, Eq, PartialOrd, Ord, Hash)]
pub struct Actor {
    number: u32,
}

impl Model for Actor {
    ghost use Rattle.std.specs.Prelude.{ℕ, ◌<◌};
    ghost use Rattle.ldm_types.specs.declared.numbers.TheConstants.Actor.{COUNT};

    ghost Value = { ℕ };

    ghost view = { λ actor. actor.number };

    ghost invariant = { λ actor. actor.number < COUNT };

    ghost inverse = { λ n. record { number = n } };
}

impl Actor {
    /// How many actors there are.
    pub const COUNT: u32 = 64;

    /// The actor of that number. `None` exactly where the number is [`Actor::COUNT`] or more.
    pub fn new(n: u32) -> Option<Actor>
        ensures { SomeIff result (n < Actor.COUNT) n }
    {
        if n < Actor::COUNT {
            Some(Actor { number: n })
        } else {
            None
        }
    }

    /// The number.
    pub fn get(self) -> u32
        ensures value { result ≡ self }
        ensures bound { self < Actor.COUNT }
    {
        self.number
    }
}

/// One of the cursor places of a queue: a number below [`CursorNo::COUNT`].
#[derive(Clone, Copy, Debug, PartialEq, Eq, PartialOrd, Ord, Hash)]
pub struct CursorNo {
    number: u32,
}

impl Model for CursorNo {
    ghost use Rattle.std.specs.Prelude.{ℕ, ◌<◌};
    ghost use Rattle.ldm_types.specs.declared.numbers.TheConstants.CursorNo.{COUNT};

    ghost Value = { ℕ };

    ghost view = { λ cursor. cursor.number };

    ghost invariant = { λ cursor. cursor.number < COUNT };

    ghost inverse = { λ n. record { number = n } };
}

impl CursorNo {
    /// How many cursor places a queue has.
    pub const COUNT: u32 = 64;

    /// The cursor place of that number. `None` exactly where the number is [`CursorNo::COUNT`] or more.
    pub fn new(n: u32) -> Option<CursorNo>
        ensures { SomeIff result (n < CursorNo.COUNT) n }
    {
        if n < CursorNo::COUNT {
            Some(CursorNo { number: n })
        } else {
            None
        }
    }

    /// The number.
    pub fn get(self) -> u32
        ensures value { result ≡ self }
        ensures bound { self < CursorNo.COUNT }
    {
        self.number
    }
}
