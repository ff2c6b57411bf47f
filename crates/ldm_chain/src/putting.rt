//! What is queued in a book, put into a shared queue.
ghost use Rattle.std.specs.Prelude.{◌≡◌, ◌<◌, ◌≤◌, ◌+◌, [], ◌∷◌, filter, length};
ghost use Rattle.ldm_model.specs.State.{State, queued};
ghost use Rattle.ldm_model.specs.History.{after};
ghost use Rattle.ldm_book.specs.Listing.{queued_of};
ghost use Rattle.ldm_book.specs.Stands.{StandsFor};
ghost use Rattle.ldm_shared.specs.Passes.{HasSeen, IsPassOf, IsSamePass};
ghost use Rattle.ldm_shared.specs.declared.steps.TheConstants.{MOST_TURNS};
ghost use Rattle.ldm_chain.specs.Listing.{has_feed, listed};
ghost use Rattle.ldm_chain.specs.Putting.{StandsAfter, inserted_all};

use ldm_book::{Book, Stored};
use ldm_shared::{Pass, Shared, Turn, one_pass, products_stay};
use ldm_types::Feed;
use std::sync::Wait;

/// Inserts the queued products of a book that have a feedtype into a shared queue, in the order of their numbers, each
/// at its own insertion time. Whatever the queue answers, it goes on. Nobody else has a pass of the queue, which was
/// not called before: a queue can have more calls than products are queued in a book.
pub fn put_products<H: Wait>(rt: &H, book: &Book, shared: &Shared, pass: &mut Pass)
    requires after_calls { StandsAfter book.now }
    requires of { IsPassOf shared.now pass.old }
    requires passes { pass.old.passes ≡ 1 }
    requires actor { pass.old.actor ≡ 0 }
    requires not_called { pass.old.seen ≡ [] }
    requires seen { HasSeen pass.old }
    ensures kept { IsSamePass pass.old pass.new }
    ensures seen { HasSeen pass.new }
    ensures few { (s : State) → StandsFor book.now s → length pass.new.seen ≤ length (queued s) }
    ensures put { (s : State) → StandsFor book.now s
        → after pass.new.arena pass.new.slots pass.new.seen ≡ inserted_all (listed s)
        (after pass.old.arena pass.old.slots pass.old.seen) }
{
    products_stay();
    for i in 0..book.slots() {
        let Some(product) = book.product_at(i) else {
            return;
        };
        put(rt, &product, shared, pass);
    }
}

// Inserts a product, if it has a feedtype.
fn put<H: Wait>(rt: &H, product: &Stored<'_>, shared: &Shared, pass: &mut Pass)
    requires of { IsPassOf shared.now pass.old }
    requires passes { pass.old.passes ≡ 1 }
    requires actor { pass.old.actor ≡ 0 }
    requires seen { HasSeen pass.old }
    requires few { length pass.old.seen < MOST_TURNS }
    requires size { length product.now.body.now ≡ product.now.info.size }
    ensures kept { IsSamePass pass.old pass.new }
    ensures seen { HasSeen pass.new }
    ensures one { length pass.new.seen ≤ length pass.old.seen + 1 }
    ensures put { after pass.new.arena pass.new.slots pass.new.seen
        ≡ inserted_all (filter has_feed (queued_of product.now ∷ []))
        (after pass.old.arena pass.old.slots pass.old.seen) }
{
    one_pass();
    if !Feed(u32::MAX).meets(product.info.feed()) {
        return;
    }
    match shared.insert(rt, pass, product.note.time, &product.info, product.body) {
        Turn::Done(_) => {}
        // it had fewer calls than a queue can have
        Turn::Worn { .. } => unreachable!(),
    }
}
