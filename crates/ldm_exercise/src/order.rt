//! The orders of the script of an exercise.
ghost use Rattle.std.specs.Prelude.{◌≡◌, ◌<◌, ◌%◌, ◌++◌, ℕ, replicate};
ghost use Rattle.std.specs.Int.{w32, to_be_bytes};
ghost use Rattle.ldm_exercise.specs.Draws.{after_draw, drawn};
ghost use Rattle.ldm_exercise.specs.Orders.{info_drawn, inserting, order_drawn, opening};
ghost use Rattle.ldm_exercise.specs.OrderView.{asked_of, order_of, IsShort};

use crate::draws::Draws;
use ldm_types::{Actor, Feed, Info, Micros, Signature};

/// How many orders are drawn at most.
pub const MOST_DRAWN: u32 = 1_000_000;

/// The body of a product has fewer bytes.
pub const BODY_LIMIT: u32 = 40_000;

/// How many bytes a read asks for.
pub const READ_SIZE: usize = 64;

/// What an order asks for. The cursor has the number of the actor.
#[derive(Debug, Drop)]
pub enum Request {
    /// To open a cursor for all feedtypes, at the oldest product.
    Open,
    /// To insert a product at the moment of its arrival. Its body has this byte alone.
    Insert { info: Info, byte: u8 },
    /// To go on with the cursor.
    Step,
    /// To read from the front of the body that the cursor holds.
    Read,
    /// To end the hold of the cursor.
    Release,
}

/// Who asks, and for what.
#[derive(Debug, Drop)]
pub struct Order {
    pub actor: Actor,
    pub request: Request,
}

/// The order by which an actor opens its cursor.
pub fn open_order(actor: Actor) -> Order
    ensures { order_of result ≡ opening actor }
{
    Order {
        actor,
        request: Request::Open,
    }
}

/// Draws order `i`.
#[tactic(auto, unfolding(crate::specs::Orders::order_drawn))]
pub fn draw_order(i: u32, draws: &mut Draws) -> Order
    requires { i < MOST_DRAWN }
    ensures order { order_of result ≡ (order_drawn i draws.old.state).order }
    ensures state { draws.new.state ≡ (order_drawn i draws.old.state).state }
    ensures short { IsShort result.request }
{
    let first = draws.draw();
    let Some(actor) = Actor::new(first % 4) else {
        unreachable!()
    };
    let request = match first / 4 % 8 {
        0..=2 => draw_insertion(i, draws),
        3 | 4 => Request::Step,
        5 => Request::Read,
        _ => Request::Release,
    };
    Order { actor, request }
}

// Draws the product that order `i` inserts.
fn draw_insertion(i: u32, draws: &mut Draws) -> Request
    requires { i < MOST_DRAWN }
    ensures request { (actor : ℕ)
        → asked_of actor result ≡ inserting i (drawn draws.old.state) (drawn (after_draw draws.old.state)) }
    ensures state { draws.new.state ≡ after_draw (after_draw draws.old.state) }
    ensures short { IsShort result }
{
    let size = draws.draw();
    let details = draws.draw();
    let info = info_of(i, size, details);
    Request::Insert {
        info,
        byte: (details % 256) as u8,
    }
}

// The metadata of the product that order `i` inserts, by two drawn numbers.
fn info_of(i: u32, size: u32, details: u32) -> Info
    requires { i < MOST_DRAWN }
    ensures { result ≡ info_drawn i size details }
{
    let Some(arrival) = Micros::new(1_000_000 + u64::from(i)) else {
        unreachable!()
    };
    let feed = Feed(1 << (details / 1024 % 32));
    let size = size % BODY_LIMIT;
    let Ok(info) = Info::new(arrival, signature_of(details), b"h", feed, i, b"x", size) else {
        unreachable!()
    };
    info
}

// The signature of a product: twelve zero bytes, and a number below 1,024 in four.
fn signature_of(details: u32) -> Signature
    ensures { result.0 ≡ replicate 12 0 ++ to_be_bytes w32 (details % 1024) }
{
    let mut bytes = [0; 16];
    bytes[12..].copy_from_slice(&(details % 1024).to_be_bytes());
    Signature(bytes)
}
