//! Feeding a chain of queues.
ghost use Rattle.std.specs.Prelude.{◌≡◌, ◌≤◌, ◌<◌, ◌+◌, ◌∷◌, ℕ, List, length};
ghost use Rattle.ldm_session.specs.Exchange.{AnsweredAll};
ghost use Rattle.ldm_chain.specs.Linking.{host_name};
ghost use Rattle.ldm_chain.specs.Breaking.{BreaksEach};
ghost use Rattle.ldm_chain.specs.Causes.{CauseEach};
ghost use Rattle.ldm_chain.specs.Nodes.{AreNodes, IsNode, KeepsNode, KeepsNodes, LinksAll, LinksEach};
ghost use Rattle.ldm_chain.specs.Queues.{IsChain, QueuesAll};
ghost use Rattle.ldm_chain.specs.Standing.{StandsUpTo};

use crate::feeding::feed_next;
use crate::laws::{a_break_has_a_cause, a_link_passes_on};
use crate::node::{ChainEnd, ChainNode, end_by};
use ldm_class::Policy;
use ldm_outside::Clock;
use std::alloc::Global;
use std::sync::Wait;

// The name under which a node asks.
fn host_of(i: u8) -> [u8; 5]
    requires { i < 10 }
    ensures { result ≡ host_name i }
{
    [b'n', b'o', b'd', b'e', b'0' + i]
}

// Feeds each of these nodes from the one before it, the first of them, which has that number, from `from`.
fn link_all<H: Wait, C: Clock>(
    rt: &H,
    alloc: Global,
    from: &mut ChainNode,
    nodes: &mut [ChainNode],
    clock: &mut C,
    policy: &Policy,
    i: u8,
) -> ChainEnd
    requires from { IsNode from.old }
    requires nodes { AreNodes nodes.old }
    requires few { i + length nodes.old ≤ 8 }
    ensures from { KeepsNode from.old from.new }
    ensures kept { KeepsNodes nodes.old nodes.new }
    ensures done { result ≡ ChainEnd.Done → (instants : List ℕ)
        × AnsweredAll instants (C.tells clock.old) (C.tells clock.new)
        × LinksEach i policy.now from.old.pass from.new.pass nodes.old nodes.new instants }
    ensures broken { (result ≡ ChainEnd.Done → ⊥) → (instants : List ℕ)
        × AnsweredAll instants (C.tells clock.old) (C.tells clock.new)
        × BreaksEach i policy.now result (from.old ∷ nodes.old) (from.new ∷ nodes.new) instants }
{
    let Some((to, behind)) = nodes.split_first_mut() else {
        return ChainEnd::Done;
    };
    let now = clock.now();
    let host = host_of(i);
    match feed_next(rt, alloc, from, to, policy, &host, now) {
        Some(why) => end_by(why),
        None => link_all(rt, alloc, to, behind, clock, policy, i + 1),
    }
}

/// Feeds each node, but the first one, from the one before it, in one process: in turn, and each time all that is
/// queued there and is due. Node i asks as host `nodei`, under the ALLOW rules of the policy.
///
/// A chain that ends before each node was fed has the cause of its end at the node that was to be fed then: that of the
/// last answer of the clock. Those before it were fed whole, and those behind it are as they were.
///
/// The clock is asked once for each node, before that node is fed. Its answer is the moment of each product that the
/// node takes.
pub fn chain<H: Wait, C: Clock>(
    rt: &H,
    alloc: Global,
    nodes: &mut [ChainNode],
    clock: &mut C,
    policy: &Policy,
) -> ChainEnd
    requires nodes { AreNodes nodes.old }
    requires chain { IsChain nodes.old }
    requires few { length nodes.old ≤ 8 }
    ensures kept { KeepsNodes nodes.old nodes.new }
    ensures done { result ≡ ChainEnd.Done → (instants : List ℕ)
        × AnsweredAll instants (C.tells clock.old) (C.tells clock.new)
        × LinksAll 1 policy.now nodes.old nodes.new instants }
    ensures queues { result ≡ ChainEnd.Done → (instants : List ℕ)
        × AnsweredAll instants (C.tells clock.old) (C.tells clock.new)
        × QueuesAll 1 policy.now nodes.old nodes.new instants }
    ensures broken { (result ≡ ChainEnd.Done → ⊥) → (instants : List ℕ)
        × AnsweredAll instants (C.tells clock.old) (C.tells clock.new)
        × CauseEach 1 policy.now result nodes.old nodes.new instants
        × StandsUpTo policy.now nodes.old nodes.new instants }
{
    a_link_passes_on();
    a_break_has_a_cause();
    let Some((first, others)) = nodes.split_first_mut() else {
        return ChainEnd::Done;
    };
    link_all(rt, alloc, first, others, clock, policy, 1)
}
