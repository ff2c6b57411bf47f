//! The lines of one actor.
ghost use Rattle.std.specs.Prelude.{◌≡◌, ◌<◌, ◌≤◌, ◌∷◌, ◌++◌, [], length, slice_index_or, OnOk};
ghost use Rattle.ldm_types.specs.declared.numbers.TheConstants.Actor.{COUNT};
ghost use Rattle.ldm_model.specs.declared.event.Event.TheVariants as event;
ghost use Rattle.ldm_script.specs.Order.{Plain};
ghost use Rattle.ldm_script.specs.OrderView.{asked_of, act_with, IsWhole};
ghost use Rattle.ldm_crowd.specs.OrdersView.{IsOrder, asked_lines};

use ldm_script::{LentAct, LentOrder, read_line_into};
use ldm_types::{Info, OutOfMemory};
use std::alloc::Global;
use std::marker::Model;

/// The lines of one actor that ask for something, in order.
#[derive(Drop)]
pub(crate) struct ActorLines<'a> {
    // Of how many actors the script is.
    actors: u32,
    lines: Vec<&'a [u8]>,
}

impl<'a> Model for ActorLines<'a> {
    ghost use Rattle.std.specs.Prelude.{◌≤◌, map};
    ghost use Rattle.std.specs.List.{All};
    ghost use Rattle.ldm_types.specs.declared.numbers.TheConstants.Actor.{COUNT};
    ghost use Rattle.ldm_crowd.specs.OrdersView.{IsOrder, ActorLinesView};

    ghost Value = { ActorLinesView };

    ghost view = { λ s. record {
      actors = s.actors;
      lines = map (λ line. line.now) s.lines.items;
    } };

    ghost invariant = { λ s. (s.actors ≤ COUNT) × All (λ line. IsOrder s.actors line.now) s.lines.items };
}

impl<'a> ActorLines<'a> {
    /// No lines yet, in a script of so many actors.
    pub(crate) fn new(alloc: Global, actors: u32) -> ActorLines<'a>
        requires { actors ≤ COUNT }
        ensures { result ≡ record { actors = actors; lines = [] } }
    {
        ActorLines {
            actors,
            lines: Vec::new(alloc),
        }
    }

    /// Appends a line that asks for something.
    pub(crate) fn add(&mut self, line: &'a [u8]) -> Result<(), OutOfMemory>
        requires { IsOrder self.old.actors line.now }
        ensures { OnOk result (self.new ≡ record self.old { lines = self.old.lines ++ line.now ∷ [] }) }
    {
        self.lines.push(line)?;
        Ok(())
    }

    /// How many lines there are.
    pub(crate) fn len(&self) -> usize
        ensures { result ≡ length self.now.lines }
    {
        self.lines.len()
    }

    /// What the line of that number asks for. The metadata of its product, if it has one, are put into the place that
    /// is lent.
    pub(crate) fn act(&self, i: usize, info: &mut Info) -> LentAct<'_>
        requires { i < length self.now.lines }
        ensures asked { asked_of (act_with info.new result)
            ≡ slice_index_or (asked_lines self.now) i (Plain event.Stat) }
        ensures whole { IsWhole (act_with info.new result) }
    {
        match read_line_into(self.lines[i], self.actors, info) {
            Ok(Some(LentOrder { actor: _, act })) => act,
            Ok(None) => unreachable!(),
            Err(_) => unreachable!(),
        }
    }
}
