//! Computed examples of the script of an exercise and of its summary, worked out by hand.
ghost use Rattle.std.specs.Prelude.{◌≡◌, ◌∷◌, [], ℕ, codes};
ghost use Rattle.ldm_model.specs.declared.event.Reply.TheVariants.{Opened};
ghost use Rattle.ldm_exercise.specs.Counts.{counts_of};
ghost use Rattle.ldm_exercise.specs.Draws.{after_draw, drawn};
ghost use Rattle.ldm_exercise.specs.Examples.{sample_insertion, step_of, read_of, release_of};
ghost use Rattle.ldm_exercise.specs.Orders.{orders_drawn, order_drawn};
ghost use Rattle.ldm_exercise.specs.Playing.{exercised};
ghost use Rattle.ldm_exercise.specs.Summary.{counts_line, first_line};

/// The first numbers that are drawn from 7.
#[tactic(auto, unfolding(crate::specs::Draws::after_draw, crate::specs::Draws::drawn))]
pub fn first_draws()
    ensures first { drawn 7 ≡ 2118330556 }
    ensures second { drawn (after_draw 7) ≡ 4104526463 }
    ensures third { drawn (after_draw (after_draw 7)) ≡ 3893713506 }
{}

/// The first orders that are drawn from 77691 and from 82366: one of each kind.
#[tactic(auto, unfolding(crate::specs::Draws::after_draw, crate::specs::Draws::drawn, crate::specs::Orders::order_drawn))]
pub fn first_orders()
    ensures inserting { (orders_drawn 77691 4).orders ≡ sample_insertion ∷ read_of 2 ∷ read_of 3 ∷ release_of 3 ∷ [] }
    ensures stepping { (order_drawn 1 (orders_drawn 82366 1).state).order ≡ step_of 2 }
{}

/// An exercise of no orders: the four cursors are opened, and nothing else is answered.
pub fn openings_are_answered()
    ensures replies { (number : ℕ) → (exercised number 0).replies ≡ Opened 0 ∷ Opened 1 ∷ Opened 2 ∷ Opened 3 ∷ [] }
    ensures words { first_line 7 0 ≡ codes "exercise 7 0\n" }
    ensures counts { (number : ℕ) → counts_line (counts_of (exercised number 0).replies)
        ≡ codes "admitted 0 evicted 0 duplicate 0 locked 0 product 0 gap 0 lost 0 end 0\n" }
{}
