//! Lines of a script, played on a queue.
ghost use Rattle.std.specs.Prelude.{◌≡◌, ◌≤◌, IfOk, replicate};
ghost use Rattle.ldm_script.specs.OrderView.{order_of, order_with, act_with, IsWhole};
ghost use Rattle.ldm_script.specs.Resolve.{Playing, answer_order, no_places};
ghost use Rattle.ldm_play.specs.Play.{play_line};
ghost use Rattle.ldm_play.specs.PlayerView.{AnswersOrder, StandsForPlay};
ghost use Rattle.ldm_play.specs.Step.{LineGives};

use ldm_book::Book;
use ldm_calls::Room;
use ldm_outside::{Sink, SinkFailed, write_all};
use ldm_script::{LastPlaces, LentOrder, blank_info, read_line_into};
use ldm_types::{Actor, Info, OutOfMemory};
use std::alloc::Global;
use std::marker::Model;

/// Why the play of a script stops before its end.
#[derive(Clone, Copy, Debug, PartialEq, Eq)]
pub enum LineFault {
    /// A line is outside the grammar: its number in the script, from 1, and the column of its first fault.
    BadLine { line: u64, column: u32 },
    /// The sink failed.
    SinkFault,
}

/// A queue that script lines are played on, with all the memory that this takes.
#[derive(Drop)]
pub struct Player {
    book: Book,
    // For each actor, what `.` stands for.
    last: [LastPlaces; 64],
    room: Room,
    // The metadata of the line that was read last, if it had any.
    info: Info,
}

impl Model for Player {
    ghost use Rattle.ldm_play.specs.PlayerView.{PlayerView};

    ghost Value = { PlayerView };

    ghost view = { λ p. record { book = p.book; last = p.last } };
}

impl Player {
    /// A player on a queue, of which no actor opened a cursor or reserved a region yet.
    pub fn new(alloc: Global, book: Book) -> Result<Player, OutOfMemory>
        ensures { IfOk result (λ player. player ≡ record { book = book; last = replicate 64 no_places }) }
    {
        Ok(Player {
            book,
            last: [LastPlaces::NONE; 64],
            room: Room::new(alloc)?,
            info: blank_info(),
        })
    }

    /// The queue, as the lines left it.
    pub fn into_book(self) -> Book
        ensures { result ≡ self.book }
    {
        self.book
    }

    /// Plays the line of that number in the script, without its newline: what it asks for is done, and its answer goes
    /// to the sink as one piece.
    ///
    /// The clause says how it ends: all done and answered; a line outside the grammar, at which nothing is written; or
    /// a sink that failed, at which a front of the answer is written.
    pub fn play_line<K: Sink>(
        &mut self,
        number: u64,
        line: &[u8],
        sink: &mut K,
    ) -> Result<(), LineFault>
        ensures played { (p : Playing) → StandsForPlay self.old p
            → LineGives result p (play_line number p line.now) self.new (K.tells sink.old) (K.tells sink.new) }
        ensures faults_kept { (K.tells sink.old).faults ≤ (K.tells sink.new).faults }
    {
        let order = match read_line_into(line, Actor::COUNT, &mut self.info) {
            Ok(Some(order)) => order,
            Ok(None) => return Ok(()),
            Err(bad) => {
                return Err(LineFault::BadLine {
                    line: number,
                    column: bad.column,
                });
            }
        };
        answer(
            &mut self.book,
            &mut self.last,
            &mut self.room,
            &order,
            &self.info,
        );
        match write_all(sink, self.room.text()) {
            Ok(()) => Ok(()),
            Err(SinkFailed) => Err(LineFault::SinkFault),
        }
    }
}

// Does what an order asks for, and leaves its answer line in the room.
fn answer(
    book: &mut Book,
    last: &mut [LastPlaces; 64],
    room: &mut Room,
    order: &LentOrder,
    info: &Info,
)
    requires whole { IsWhole (act_with info.now order.now.act) }
    ensures { (p : Playing) → StandsForPlay (record { book = book.old; last = last.old }) p
        → AnswersOrder p (answer_order p (order_of (order_with info.now order.now)))
        (record { book = book.new; last = last.new }) room.new }
{
    let at = order.actor.get() as usize;
    let mut places = last[at];
    // a book answers every call
    let Ok(()) = room.answer_lent(&order.actor, book, &mut places, &order.act, info) else {
        unreachable!()
    };
    last[at] = places;
}
