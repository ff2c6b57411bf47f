//! What takes products, one at a time.
ghost use Rattle.std.specs.Prelude.{◌≡◌, ℕ, List, []};
ghost use Rattle.ldm_shared.specs.Passes.{IsPassOf, IsSamePass};
ghost use Rattle.ldm_shared.specs.Reader.{Holds};

use ldm_shared::{Held, Pass, Reader, Shared};
use std::sync::Wait;

/// What a taker answers.
#[derive(Clone, Copy, Debug, PartialEq, Eq)]
pub enum Taken {
    /// It took the product, and goes on.
    On,
    /// Something stopped it, and it knows what.
    Stopped,
    /// It was stopped, since the queue has had all the calls that it can have.
    Worn,
}

/// Why handing products to a taker stopped.
#[derive(Clone, Copy, Debug, PartialEq, Eq)]
pub enum EachStop {
    /// The taker was stopped, and knows by what.
    ByTaker,
    /// The log failed, and its count of faults rose.
    LogFault,
    /// The queue has had all the calls that it can have.
    Worn,
}

/// What takes the products that a cursor gives, one at a time. It is lent something of the caller's, such as what it
/// writes to. One who needs nothing takes `()`.
pub trait Taker<A> {
    ghost use Rattle.ldm_shared.specs.Givens.{Given};
    ghost use Rattle.ldm_gather.specs.Taking.{Hands, IfTaken, IsTakenWorn, given_of, hands_of};
    ghost use Rattle.ldm_shared.specs.Uses.{Uses};
    ghost use Rattle.ldm_gather.specs.declared.taker.Taken.{Taken};

    /// What has to hold before a call, of it and of what it is lent.
    ghost begins: { Self → A → Type 0 };

    /// What a call does that answers so.
    ghost takes: { Taken → Given → Hands Self A → Hands Self A → Type 0 };

    /// Takes a product that the cursor holds. It may read the body, and does not let the product go.
    ///
    /// Where it answers [`Taken::On`], it may be called again.
    fn take<H: Wait>(
        &mut self,
        rt: &H,
        shared: &Shared,
        pass: &mut Pass,
        reader: &Reader,
        held: &Held,
        lent: &mut A,
    ) -> Taken
        requires of { IsPassOf shared.now pass.old }
        requires holds { (body : List ℕ) × Holds pass.old reader.now.k held.now body }
        requires may { begins self.old lent.old }
        ensures same { IsSamePass pass.old pass.new }
        ensures uses { Uses reader.now.k pass.old pass.new [] }
        ensures still_holds { (body : List ℕ) → Holds pass.old reader.now.k held.now body
            → IfTaken result (Holds pass.new reader.now.k held.now body) }
        ensures worn { IsTakenWorn result pass.new }
        ensures may_again { IfTaken result (begins self.new lent.new) }
        ensures taken { (body : List ℕ) → Holds pass.old reader.now.k held.now body
            → takes result (given_of held.now body) (hands_of self.old lent.old) (hands_of self.new lent.new) };
}
