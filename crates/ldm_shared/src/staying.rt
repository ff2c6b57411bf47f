//! What stays of a product in all states that follow.
ghost use Rattle.std.specs.Prelude.{◌≡◌, ◌≤◌, ◌++◌, ℕ, List, length};
ghost use Rattle.ldm_model.specs.declared.event.Entry.{Entry};
ghost use Rattle.ldm_model.specs.Product.{Product, extent_of};
ghost use Rattle.ldm_model.specs.History.{after, IsLegal};
ghost use Rattle.ldm_shared.specs.Staying.{HasRow};

/// A product that was admitted keeps its number, metadata, body and insertion time for as long as the queue is, evicted
/// or not. Its body has as many bytes as its metadata say, and its extent is not larger than the arena.
pub fn products_stay()
    ensures stays { (arena slots : ℕ) (front behind : List Entry) → IsLegal arena slots (front ++ behind)
        → (n : ℕ) (product : Product) (time : ℕ) →
        HasRow n product time (after arena slots front) → HasRow n product time (after arena slots (front ++ behind)) }
    ensures whole { (arena slots : ℕ) (history : List Entry) → IsLegal arena slots history
        → (n : ℕ) (product : Product) (time : ℕ) →
        HasRow n product time (after arena slots history) → length product.body ≡ product.info.size }
    ensures fits { (arena slots : ℕ) (history : List Entry) → IsLegal arena slots history
        → (n : ℕ) (product : Product) (time : ℕ) →
        HasRow n product time (after arena slots history) → extent_of product.info ≤ arena }
{}
