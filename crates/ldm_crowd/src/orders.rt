//! The orders of a script, dealt out to the actors.
ghost use Rattle.std.specs.Prelude.{◌≡◌, ◌<◌, ◌≤◌, ◌++◌, [], List, length, map};
ghost use Rattle.std.specs.Prelude.{slice_index_or, Ok, IfOk, IfErr, OnOk, IsOk};
ghost use Rattle.ldm_types.specs.declared.numbers.TheConstants.Actor.{COUNT};
ghost use Rattle.ldm_script.specs.Grammar.{read_line as reading};
ghost use Rattle.ldm_script.specs.Order.{Order as Ordered};
ghost use Rattle.ldm_script.specs.Lines.{lines_of};
ghost use Rattle.ldm_crowd.specs.Script.{orders_from, script_of};
ghost use Rattle.ldm_crowd.specs.OrdersView.{IsFaultOf, IsFaultOfLine, AreDealt, asked_lines, orders_in, script_in};
ghost use Rattle.ldm_status.specs.declared.whole_script.TheConstants.{LONGEST_SCRIPT};

use crate::actor_lines::ActorLines;
use ldm_script::{blank_info, read_line_into};
use ldm_types::{Actor, Info, OutOfMemory};
use memchr::memchr;
use std::alloc::Global;
use std::marker::Model;
use thiserror::Error;

/// Why a text is no script.
#[derive(Clone, Copy, Debug, PartialEq, Eq, Error)]
pub enum OrdersFault {
    /// The first line that is outside the grammar: its number, from 1, and the column of its first fault.
    #[error("bad line {line} column {column}")]
    BadLine { line: u32, column: u32 },
    /// There is no memory.
    #[error("no memory")]
    OutOfMemory,
}

/// A script that was read: for each actor its lines that ask for something, in order. It borrows the text.
#[derive(Drop)]
pub struct Orders<'a> {
    parts: Vec<ActorLines<'a>>,
}

impl<'a> Model for Orders<'a> {
    ghost use Rattle.std.specs.Prelude.{List};
    ghost use Rattle.ldm_crowd.specs.OrdersView.{ActorLinesView};

    ghost Value = { List ActorLinesView };

    ghost view = { λ s. s.parts.items };
}

impl<'a> Orders<'a> {
    /// Reads a script of so many actors. A line that is empty or begins with `#` asks for nothing.
    pub fn read(alloc: Global, text: &'a [u8], actors: u32) -> Result<Orders<'a>, OrdersFault>
        requires text { length text.now ≤ LONGEST_SCRIPT }
        requires actors { actors ≤ COUNT }
        ensures read { IfOk result (λ orders. script_of actors text.now ≡ Ok (script_in orders)) }
        ensures count { IfOk result (λ orders. length (script_in orders) ≡ actors) }
        ensures faults { IfErr result (IsFaultOf actors text.now) }
    {
        let mut parts = no_lines(alloc, actors)?;
        deal_all(&mut parts, actors, text)?;
        Ok(Orders { parts })
    }

    /// The lines of an actor.
    pub(crate) fn of_actor(&self, actor: Actor) -> &ActorLines<'a>
        requires { actor < length (script_in self.now) }
        ensures { asked_lines result.now ≡ slice_index_or (script_in self.now) actor [] }
    {
        &self.parts[actor.get() as usize]
    }
}

// For each actor no lines yet.
fn no_lines<'a>(alloc: Global, actors: u32) -> Result<Vec<ActorLines<'a>>, OrdersFault>
    requires { actors ≤ COUNT }
    ensures dealt { IfOk result (λ parts. AreDealt actors [] parts.items) }
    ensures fault { IfErr result (λ fault. fault ≡ OrdersFault.OutOfMemory) }
{
    let Ok(mut parts) = Vec::with_capacity(alloc, actors as usize) else {
        return Err(OrdersFault::OutOfMemory);
    };
    while parts.len() < actors as usize {
        parts.push_reserved(ActorLines::new(alloc, actors));
    }
    Ok(parts)
}

// Reads the lines of a text, and appends each to those of its actor, where it asks for something.
fn deal_all<'a>(
    parts: &mut [ActorLines<'a>],
    actors: u32,
    text: &'a [u8],
) -> Result<(), OrdersFault>
    requires text { length text.now ≤ LONGEST_SCRIPT }
    requires actors { actors ≤ COUNT }
    requires none { AreDealt actors [] parts.old }
    ensures dealt { OnOk result
        ((done : List Ordered) × AreDealt actors done parts.new
        × (orders_from actors 1 (lines_of text.now) ≡ Ok done)) }
    ensures faults { IfErr result (IsFaultOf actors text.now) }
{
    let mut info = blank_info();
    let mut number = 1;
    let mut rest = text;
    while let Some(at) = memchr(b'\n', rest) {
        deal(parts, actors, number, &rest[..at], &mut info)?;
        number += 1;
        rest = &rest[at + 1..];
    }
    if rest.is_empty() {
        return Ok(());
    }
    deal(parts, actors, number, rest, &mut info)
}

// Reads the line of that number, and appends it to those of its actor, where it asks for something. Metadata are put
// into the place that is lent.
fn deal<'a>(
    parts: &mut [ActorLines<'a>],
    actors: u32,
    number: u32,
    line: &'a [u8],
    info: &mut Info,
) -> Result<(), OrdersFault>
    requires actors { actors ≤ COUNT }
    requires parts { (done : List Ordered) × AreDealt actors done parts.old }
    ensures dealt { OnOk result
        ((done : List Ordered) → AreDealt actors done parts.old
        → AreDealt actors (done ++ orders_in actors line.now) parts.new) }
    ensures read { OnOk result (IsOk (reading actors line.now)) }
    ensures faults { IfErr result (IsFaultOfLine actors number line.now) }
{
    match read_line_into(line, actors, info) {
        Ok(Some(order)) => {
            let part = &mut parts[order.actor.get() as usize];
            match part.add(line) {
                Ok(()) => Ok(()),
                Err(OutOfMemory) => Err(OrdersFault::OutOfMemory),
            }
        }
        Ok(None) => Ok(()),
        Err(bad) => Err(OrdersFault::BadLine {
            line: number,
            column: bad.column,
        }),
    }
}
