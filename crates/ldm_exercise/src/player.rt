//! A queue on which the orders of an exercise are played.
ghost use Rattle.std.specs.Prelude.{◌≡◌, ◌+◌, ◌^◌, ◌<◌, IfOk};
ghost use Rattle.ldm_exercise.specs.OrderView.{order_of, IsShort};
ghost use Rattle.ldm_exercise.specs.Playing.{Exercised, and_played, nothing_played};
ghost use Rattle.ldm_book.specs.Limits.{IsFaultOf};
ghost use Rattle.ldm_exercise.specs.Kept.{HasPlayed};

use crate::answers::Answers;
use crate::calls::call;
use crate::order::{BODY_LIMIT, Order, READ_SIZE};
use ldm_answers::Text;
use ldm_book::{Book, CreateFault};
use ldm_types::OutOfMemory;
use std::alloc::Global;
use std::marker::Model;

// How many bytes the arena has.
const ARENA: u64 = 1_048_576;

// How many slots there are.
const SLOTS: u32 = 1_024;

/// A queue on which orders are played, what is kept of the answers, and all the memory that this takes.
#[derive(Drop)]
pub struct Player {
    book: Book,
    answers: Answers,
    // Room for the body of an insertion.
    body: Vec<u8>,
    // The answer line that was written last.
    line: Text,
}

impl Model for Player {
    ghost use Rattle.std.specs.Prelude.{◌≡◌};
    ghost use Rattle.std.specs.Vec.{vec_len};
    ghost use Rattle.ldm_exercise.specs.declared.order.TheConstants.{BODY_LIMIT};
    ghost use Rattle.ldm_exercise.specs.Kept.{PlayerView};

    ghost Value = { PlayerView };

    ghost view = { λ p. record { book = p.book; answers = p.answers } };

    ghost invariant = { λ p. vec_len p.body ≡ BODY_LIMIT };
}

// The want of memory for which no queue was made: the limits allow its size.
fn no_memory(fault: CreateFault) -> OutOfMemory
    requires { IsFaultOf ARENA SLOTS fault }
{
    match fault {
        CreateFault::OutOfMemory => OutOfMemory,
        _ => unreachable!(),
    }
}

impl Player {
    /// A new queue, and all the memory that playing takes.
    pub fn new(alloc: Global) -> Result<Player, OutOfMemory>
        ensures { IfOk result (λ player. HasPlayed player nothing_played) }
    {
        let book = match Book::create(alloc, ARENA, SLOTS) {
            Ok(book) => book,
            Err(fault) => return Err(no_memory(fault)),
        };
        Ok(Player {
            book,
            answers: Answers::new(),
            body: vec![in alloc; 0u8; BODY_LIMIT as usize]?,
            line: Text::new(),
        })
    }

    /// Plays an order.
    pub fn play(&mut self, order: &Order)
        requires short { IsShort order.now.request }
        requires room { self.old.answers.tally.replies + 1 < 2 ^ 32 }
        ensures counted { self.new.answers.tally.replies ≡ self.old.answers.tally.replies + 1 }
        ensures played { (e : Exercised) → HasPlayed self.old e
            → HasPlayed self.new (and_played e (order_of order.now)) }
    {
        let mut read = [0u8; READ_SIZE];
        // a book answers every call
        let Ok(answer) = call(order, &mut self.book, &mut self.body, &mut read) else {
            unreachable!()
        };
        self.answers.add(&answer, &mut self.line);
    }

    /// What is kept of the answers.
    pub fn into_answers(self) -> Answers
        ensures { result ≡ self.answers }
    {
        self.answers
    }
}
