//! Making a shared queue and its passes.
ghost use Rattle.std.specs.Prelude.{◌≡◌, ◌<◌, ◌-◌, ◌∷◌, [], ℕ, List, map, IfOk, IfErr};
ghost use Rattle.std.specs.List.{range_with_len};
ghost use Rattle.ldm_model.specs.State.{empty};
ghost use Rattle.ldm_book.specs.Limits.{IsGoodArena, IsGoodSlots};
ghost use Rattle.ldm_book.specs.Stands.{StandsFor};
ghost use Rattle.ldm_shared.specs.Limits.{IsFaultOf, IsGoodPasses};
ghost use Rattle.ldm_shared.specs.Passes.{new_pass};
ghost use Rattle.ldm_shared.specs.Rule.{opening};
ghost use Rattle.ldm_shared.specs.Seats.{IsReady, IsSame};
ghost use Rattle.ldm_shared.specs.Joining.{without_pass};

use crate::fault::CreateFault;
use crate::pass::Pass;
use crate::rule::Deal;
use crate::shared::Shared;
use crate::sizes::Sizes;
use crate::steps::WORDS;
use crate::view::View;
use atomic_table::{Seat, Table};
use ldm_book::{Book, CreateFault as BookFault};
use ldm_types::Actor;
use std::alloc::Global;

impl Shared {
    /// A queue with an arena of so many bytes and so many product slots, which that many passes can call. Pass i is of
    /// actor i. It takes all the memory that the queue will ever use.
    ///
    /// In this project's profile there are 1 to 64 passes. A fault of the arena or of the slots is told before one of
    /// the passes, and want of memory after all.
    pub fn create(
        alloc: Global,
        arena: u64,
        slots: u32,
        passes: u32,
    ) -> Result<(Shared, Vec<Pass>), CreateFault>
        ensures made { IfOk result (λ made. made.1.items ≡ map (new_pass made.0) (range_with_len 0 passes)) }
        ensures sizes { IfOk result
            (λ made. (made.0.arena ≡ arena) × (made.0.slots ≡ slots) × (made.0.passes ≡ passes)) }
        ensures limits { IfOk result (λ _. IsGoodArena arena × IsGoodSlots slots × IsGoodPasses passes) }
        ensures faults { IfErr result (IsFaultOf arena slots passes) }
    {
        Shared::create_keyed(alloc, arena, slots, passes, 0)
    }

    /// A queue and its passes as [`Shared::create`] makes them, with the key that [`Book::create_keyed`] is given: who
    /// does not know it cannot choose signatures whose searches are long. The key changes no answer.
    pub fn create_keyed(
        alloc: Global,
        arena: u64,
        slots: u32,
        passes: u32,
        key: u64,
    ) -> Result<(Shared, Vec<Pass>), CreateFault>
        ensures made { IfOk result (λ made. made.1.items ≡ map (new_pass made.0) (range_with_len 0 passes)) }
        ensures sizes { IfOk result
            (λ made. (made.0.arena ≡ arena) × (made.0.slots ≡ slots) × (made.0.passes ≡ passes)) }
        ensures limits { IfOk result (λ _. IsGoodArena arena × IsGoodSlots slots × IsGoodPasses passes) }
        ensures faults { IfErr result (IsFaultOf arena slots passes) }
    {
        let book = first_book(alloc, arena, slots, passes, key)?;
        let mut all = Vec::with_capacity(alloc, passes as usize)?;
        let sizes = Sizes {
            arena,
            slots,
            passes,
        };
        let (shared, mut seat) = Shared::open(alloc, sizes, book)?;
        for i in 0..passes {
            let Some(actor) = Actor::new(i) else {
                unreachable!()
            };
            all.push_reserved(shared.deal(&mut seat, actor));
        }
        Ok((shared, all))
    }

    // The queue that has this book, and the seat that answers for all actors.
    fn open(
        alloc: Global,
        sizes: Sizes,
        book: Book,
    ) -> Result<(Shared, Seat<Option<Book>, View>), CreateFault>
        requires stands { StandsFor book (empty sizes.arena sizes.slots) }
        requires arena { IsGoodArena sizes.arena }
        requires passes { 0 < sizes.passes }
        ensures sizes { IfOk result
            (λ made. (made.0.arena ≡ sizes.arena) × (made.0.slots ≡ sizes.slots) × (made.0.passes ≡ sizes.passes)) }
        ensures seat { IfOk result (λ made. (made.1.table_id ≡ made.0.queue) × (made.1.me ≡ (opening sizes, []))) }
        ensures fault { IfErr result (λ fault. fault ≡ CreateFault.OutOfMemory) }
    {
        let mut row = Vec::with_capacity(alloc, 1)?;
        row.push_reserved(Some(book));
        match Table::new(alloc, &[0; WORDS], row, &sizes) {
            Ok((table, seat)) => Ok((
                Shared {
                    table,
                    arena: sizes.arena,
                },
                seat,
            )),
            Err(_) => Err(CreateFault::OutOfMemory),
        }
    }

    // A pass of the first actor that the seat answers for, which the seat does not answer for any more.
    fn deal(&self, seat: &mut Seat<Option<Book>, View>, actor: Actor) -> Pass
        requires ready { IsReady self.now seat.old }
        requires sizes { (seat.old.me.0.arena ≡ self.now.arena) × (seat.old.me.0.slots ≡ self.now.slots)
            × (seat.old.me.0.passes ≡ self.now.passes) }
        requires unseen { seat.old.me.0.seen ≡ [] }
        requires first { (others : List ℕ) × (seat.old.me.0.actors ≡ actor ∷ others) }
        ensures same { IsSame seat.old seat.new }
        ensures left { seat.new.me ≡ (without_pass seat.old.me.0, []) }
        ensures pass { result ≡ new_pass self.now actor }
    {
        let theirs = self.table.shared.split_seat::<Deal>(seat);
        Pass {
            actor,
            seat: theirs,
        }
    }
}

// The book of an empty queue. It takes memory only where all sizes are good.
fn first_book(
    alloc: Global,
    arena: u64,
    slots: u32,
    passes: u32,
    key: u64,
) -> Result<Book, CreateFault>
    ensures stands { IfOk result (λ book. StandsFor book (empty arena slots)) }
    ensures limits { IfOk result (λ _. IsGoodArena arena × IsGoodSlots slots × IsGoodPasses passes) }
    ensures faults { IfErr result (IsFaultOf arena slots passes) }
{
    match Book::check_sizes(arena, slots) {
        Ok(()) => {}
        Err(BookFault::BadArena { arena }) => return Err(CreateFault::BadArena { arena }),
        Err(BookFault::BadSlots { slots }) => return Err(CreateFault::BadSlots { slots }),
        Err(BookFault::OutOfMemory) => unreachable!(),
    }
    if passes == 0 || passes > Actor::COUNT {
        return Err(CreateFault::BadPasses { passes });
    }
    match Book::create_keyed(alloc, arena, slots, key) {
        Ok(book) => Ok(book),
        Err(_) => Err(CreateFault::OutOfMemory),
    }
}
