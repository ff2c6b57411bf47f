//! What a link of a chain leaves. The function does nothing: its contract is the law.
ghost use Rattle.std.specs.Prelude.{◌≡◌, ◌⊎◌, ℕ, ◌+◌, ◌≤◌, [], length, None, Some};
ghost use Rattle.ldm_intake.specs.declared.end.RecvEnd.TheVariants as receive;
ghost use Rattle.ldm_shared.specs.Passes.{PassView};
ghost use Rattle.ldm_sender.specs.Asked.{Asked};
ghost use Rattle.ldm_between_ends.specs.OnePass.{IsOnlyPass, state_of};
ghost use Rattle.ldm_between_ends.specs.Reading.{KeepsProducts};
ghost use Rattle.ldm_chain.specs.declared.node.Break.TheVariants as broken;
ghost use Rattle.ldm_chain.specs.declared.node.ChainEnd.{ChainEnd};
ghost use Rattle.ldm_chain.specs.Breaking.{BreaksAt, BreaksSo};
ghost use Rattle.ldm_chain.specs.Causes.{CauseAt, StoodSo, most_received};
ghost use Rattle.ldm_chain.specs.Linking.{Links};
ghost use Rattle.ldm_chain.specs.Queues.{IsForAllTimes, fed_from};

use ldm_between_ends::{
    a_narrower_class_is_asked_for, a_queue_is_passed_on, a_reply_is_taken,
    announcements_are_answered, feedings_only_read, few_calls_are_made, one_pass_is_fed_all,
    products_are_passed_on, readers_keep_products, the_setting_is_met,
};
use ldm_model::products_were_admitted;
use ldm_shared::{one_pass, products_stay};

/// What a node leaves that was fed from the one before it, whole, where each of the two queues has one pass.
pub fn a_link_passes_on()
    // Its queue is what the products of the node before make of it that are due under the class as the rules leave it.
    ensures queue { (asked : Asked) (now : ℕ) (old new before after : PassView) → Links asked now old new before after
        → asked.xid ≡ 1 →
        IsOnlyPass old → IsOnlyPass before → IsForAllTimes asked.class →
        state_of after ≡ fed_from (state_of old) asked now (state_of before) }
    // The queue of the node before is as it was.
    ensures unchanged { (asked : Asked) (now : ℕ) (old new before after : PassView)
        → Links asked now old new before after → asked.xid ≡ 1 →
        IsOnlyPass old → IsOnlyPass before → IsForAllTimes asked.class → state_of new ≡ state_of old }
    // Its pass is still the only one of its queue.
    ensures only { (asked : Asked) (now : ℕ) (old new before after : PassView) → Links asked now old new before after
        → asked.xid ≡ 1 →
        IsOnlyPass old → IsOnlyPass before → IsForAllTimes asked.class → IsOnlyPass after }
    // So many calls at most were made of its queue.
    ensures calls { (asked : Asked) (now : ℕ) (old new before after : PassView) → Links asked now old new before after
        → asked.xid ≡ 1 →
        IsOnlyPass old → IsOnlyPass before → IsForAllTimes asked.class
        → length after.seen ≤ length before.seen + most_received }
{
    the_setting_is_met();
    a_queue_is_passed_on();
    a_narrower_class_is_asked_for();
    one_pass_is_fed_all();
    few_calls_are_made();
    one_pass();
    products_were_admitted();
    products_stay();
}

/// Why a chain ended while a node was fed from the one before it, and what that leaves, where each of the two queues
/// has one pass, and the node's was not called before. The pass of the node before stood as `found` when the chain
/// began.
pub fn a_break_has_a_cause()
    ensures cause { (end : ChainEnd) (asked : Asked) (found old new before after : PassView)
        → BreaksAt end asked old new before after → asked.xid ≡ 1 →
        IsOnlyPass old → IsOnlyPass before → before.seen ≡ [] → StoodSo found old → CauseAt end asked found new }
    // Of the queue of the node before, cursor places alone may have changed.
    ensures kept { (end : ChainEnd) (asked : Asked) (old new before after : PassView)
        → BreaksAt end asked old new before after → IsOnlyPass old
        → KeepsProducts (state_of old) (state_of new) }
    // It is want of memory for no receiver that ended by what it was told, however its feeder ended.
    ensures memory { (asked : Asked) (old new before after : PassView)
        → (breaks : BreaksSo broken.OutOfMemory asked old new before after)
        → (breaks.end.receiver.end ≡ None) ⊎ (breaks.end.receiver.end ≡ Some receive.OutOfMemory) }
{
    the_setting_is_met();
    products_are_passed_on();
    a_queue_is_passed_on();
    a_narrower_class_is_asked_for();
    a_reply_is_taken();
    announcements_are_answered();
    one_pass_is_fed_all();
    few_calls_are_made();
    feedings_only_read();
    readers_keep_products();
    one_pass();
    products_were_admitted();
    products_stay();
}
