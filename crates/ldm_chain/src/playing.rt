//! A script, played on a book.
ghost use Rattle.std.specs.Prelude.{◌≡◌, ◌≤◌, ◌<◌, ◌+◌, ◌^◌, length, IfOk, IfErr};
ghost use Rattle.ldm_model.specs.State.{empty};
ghost use Rattle.ldm_book.specs.Limits.{IsGoodArena, IsGoodSlots};
ghost use Rattle.ldm_book.specs.Stands.{StandsFor};
ghost use Rattle.ldm_script.specs.Lines.{lines_of};
ghost use Rattle.ldm_script.specs.OrderView.{IsWhole, order_of};
ghost use Rattle.ldm_script.specs.Resolve.{Playing, answer_order};
ghost use Rattle.ldm_play.specs.Play.{play, play_line};
ghost use Rattle.ldm_play.specs.PlayerView.{StandsForPlay};
ghost use Rattle.ldm_chain.specs.Script.{HasPlayed, IsPlayFault};
ghost use Rattle.ldm_chain.specs.Steps.{Follows, Plays};
ghost use Rattle.ldm_status.specs.declared.whole_script.TheConstants.{LONGEST_SCRIPT};

use ldm_book::Book;
use ldm_calls::Room;
use ldm_script::{LastPlaces, Order, read_line};
use ldm_types::{Actor, OutOfMemory};
use memchr::memchr;
use std::alloc::Global;

/// Why a script was not played to its end.
#[derive(Clone, Copy, Debug, PartialEq, Eq)]
pub enum PlayFault {
    /// The first line that is outside the grammar: its number, from 1, and the column of its first fault.
    BadLine { line: u64, column: u32 },
    /// There is no memory.
    OutOfMemory,
}

/// A line of a script is outside the grammar: its number, from 1, and the column of its first fault.
#[derive(Clone, Copy, Debug, PartialEq, Eq)]
pub(crate) struct BadLine {
    pub(crate) line: u64,
    pub(crate) column: u32,
}

impl From<BadLine> for PlayFault {
    ghost use Rattle.std.specs.Prelude.{◌≡◌};
    ghost use Rattle.ldm_chain.specs.declared.playing.PlayFault.TheVariants as fault;

    ghost from_gives = { λ bad made. made ≡ fault.BadLine bad.line bad.column };

    fn from(bad: BadLine) -> PlayFault {
        PlayFault::BadLine {
            line: bad.line,
            column: bad.column,
        }
    }
}

impl From<OutOfMemory> for PlayFault {
    ghost use Rattle.std.specs.Prelude.{◌≡◌};
    ghost use Rattle.ldm_chain.specs.declared.playing.PlayFault.TheVariants as fault;

    ghost from_gives = { λ _ made. made ≡ fault.OutOfMemory };

    fn from(_error: OutOfMemory) -> PlayFault {
        PlayFault::OutOfMemory
    }
}

// A new book. For such sizes there is one, if there is memory.
fn new_book(alloc: Global, arena: u64, slots: u32) -> Result<Book, PlayFault>
    requires arena { IsGoodArena arena }
    requires slots { IsGoodSlots slots }
    ensures new { IfOk result (λ book. StandsFor book (empty arena slots)) }
    ensures fault { IfErr result (λ why. why ≡ PlayFault.OutOfMemory) }
{
    match Book::create(alloc, arena, slots) {
        Ok(book) => Ok(book),
        Err(_) => Err(PlayFault::OutOfMemory),
    }
}

/// Plays a script on a new book with an arena of so many bytes and so many slots, line by line, and answers no line.
/// The book is as the script leaves it, cursors and reservations included.
pub fn play_script(alloc: Global, arena: u64, slots: u32, text: &[u8]) -> Result<Book, PlayFault>
    requires arena { IsGoodArena arena }
    requires slots { IsGoodSlots slots }
    requires short { length text.now ≤ LONGEST_SCRIPT }
    ensures played { IfOk result (HasPlayed arena slots text.now) }
    ensures fault { IfErr result (IsPlayFault arena slots text.now) }
{
    let mut book = new_book(alloc, arena, slots)?;
    let mut room = Room::new(alloc)?;
    let mut last = [LastPlaces::NONE; 64];
    play_lines(&mut book, &mut last, &mut room, text)?;
    Ok(book)
}

// Plays the lines of a text, one after another.
fn play_lines(
    book: &mut Book,
    last: &mut [LastPlaces; 64],
    room: &mut Room,
    text: &[u8],
) -> Result<(), BadLine>
    requires { length text.now ≤ LONGEST_SCRIPT }
    ensures { (p : Playing) → StandsForPlay (record { book = book.old; last = last.old }) p
        → Plays result p (play 1 p (lines_of text.now)) (record { book = book.new; last = last.new }) }
{
    let mut number = 1;
    let mut rest = text;
    while let Some(at) = memchr(b'\n', rest) {
        play_line(book, last, room, number, &rest[..at])?;
        number += 1;
        rest = &rest[at + 1..];
    }
    if rest.is_empty() {
        return Ok(());
    }
    play_line(book, last, room, number, rest)
}

// Plays the line of that number, without its newline.
fn play_line(
    book: &mut Book,
    last: &mut [LastPlaces; 64],
    room: &mut Room,
    number: u64,
    line: &[u8],
) -> Result<(), BadLine>
    ensures { (p : Playing) → StandsForPlay (record { book = book.old; last = last.old }) p
        → Plays result p (play_line number p line.now) (record { book = book.new; last = last.new }) }
{
    match read_line(line, Actor::COUNT) {
        Ok(Some(order)) => {
            answer(book, last, room, &order);
            Ok(())
        }
        Ok(None) => Ok(()),
        Err(bad) => Err(BadLine {
            line: number,
            column: bad.column,
        }),
    }
}

// Does what an order asks for. Nobody looks at its answer line.
fn answer(book: &mut Book, last: &mut [LastPlaces; 64], room: &mut Room, order: &Order)
    requires whole { IsWhole order.now.act }
    ensures { (p : Playing) → StandsForPlay (record { book = book.old; last = last.old }) p
        → Follows p (answer_order p (order_of order.now)).playing (record { book = book.new; last = last.new }) }
{
    let at = order.actor.get() as usize;
    let mut places = last[at];
    // a book answers every call
    let Ok(()) = room.answer(&order.actor, book, &mut places, &order.act) else {
        unreachable!()
    };
    last[at] = places;
}
