//! The script of an exercise, made order by order and played.
ghost use Rattle.std.specs.Prelude.{◌≡◌, ◌≤◌, IfOk};
ghost use Rattle.ldm_model.specs.History.{IsLegal};
ghost use Rattle.ldm_exercise.specs.Orders.{openings, orders_drawn};
ghost use Rattle.ldm_exercise.specs.Playing.{Exercised, arena, slots, exercised, nothing_played, played_on};
ghost use Rattle.ldm_exercise.specs.Kept.{HasPlayed, Keeps};

use crate::answers::Answers;
use crate::draws::Draws;
use crate::order::{MOST_DRAWN, draw_order, open_order};
use crate::player::Player;
use ldm_types::{Actor, OutOfMemory};
use std::alloc::Global;

// How many actors there are, each with a cursor.
const ACTORS: u32 = 4;

// Has each actor open its cursor.
fn play_openings(player: &mut Player)
    requires fresh { HasPlayed player.old nothing_played }
    ensures counted { player.new.answers.tally.replies ≡ ACTORS }
    ensures played { HasPlayed player.new (played_on nothing_played openings) }
{
    for a in 0..ACTORS {
        let Some(actor) = Actor::new(a) else {
            unreachable!()
        };
        player.play(&open_order(actor));
    }
}

// Draws so many orders from a number on, and plays each.
fn play_drawn(player: &mut Player, number: u64, count: u32)
    requires few { count ≤ MOST_DRAWN }
    requires counted { player.old.answers.tally.replies ≡ ACTORS }
    ensures played { (e : Exercised) → HasPlayed player.old e
        → HasPlayed player.new (played_on e (orders_drawn number count).orders) }
{
    let mut draws = Draws { state: number };
    for i in 0..count {
        let order = draw_order(i, &mut draws);
        player.play(&order);
    }
}

/// Plays the script of `exercise NUMBER COUNT` on a new queue, and answers what is kept of the answers. All memory is
/// taken before the first call of the queue.
pub fn play_script(alloc: Global, number: u64, count: u32) -> Result<Answers, OutOfMemory>
    requires { count ≤ MOST_DRAWN }
    ensures kept { IfOk result (λ answers. Keeps answers (exercised number count).replies) }
    ensures legal { IfOk result (λ _. IsLegal arena slots (exercised number count).playing.history) }
{
    let mut player = Player::new(alloc)?;
    play_openings(&mut player);
    play_drawn(&mut player, number, count);
    Ok(player.into_answers())
}
