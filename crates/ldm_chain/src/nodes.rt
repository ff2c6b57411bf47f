//! The nodes of a chain, from their making until they were fed.
ghost use Rattle.std.specs.Prelude.{◌≡◌, ◌≤◌, ◌∷◌, List, length, IfOk, IfErr, OnOk};
ghost use Rattle.std.specs.List.{AllByRecursion};
ghost use Rattle.ldm_book.specs.Limits.{IsGoodArena, IsGoodSlots};
ghost use Rattle.ldm_status.specs.declared.whole_script.TheConstants.{LONGEST_SCRIPT};
ghost use Rattle.ldm_chain.specs.declared.node.ChainNode.{ChainNode as Node};
ghost use Rattle.ldm_chain.specs.Queues.{IsForAllTimes};
ghost use Rattle.ldm_chain.specs.Work.{work_of};
ghost use Rattle.ldm_chain.specs.CommandNodes.{AreFed, AreNew, AreNotFed, IsBadSize, IsFirst, IsNew, IsNotFirst};

use crate::chaining::chain;
use crate::fault::ChainFault;
use crate::node::{ChainEnd, ChainNode};
use crate::playing::play_script;
use crate::putting::put_products;
use crate::setup::{ChainSetup, LARGEST_CHAIN_ARENA};
use arrayvec::ArrayVec;
use ldm_book::{Book, CreateFault};
use ldm_class::{Class, Policy};
use ldm_model::regions_lie_apart;
use ldm_outside::Clock;
use ldm_shared::{Shared, calls_made};
use ldm_types::{ClassSpec, Micros, OutOfMemory};
use std::alloc::Global;
use std::sync::Wait;

/// Whether there are queues of such an arena and of so many slots in a chain. It takes no memory.
pub fn check_sizes(arena: u64, slots: u32) -> Result<(), ChainFault>
    ensures good { OnOk result (IsGoodArena arena × (arena ≤ LARGEST_CHAIN_ARENA) × IsGoodSlots slots) }
    ensures bad { IfErr result (IsBadSize arena slots) }
{
    if arena > LARGEST_CHAIN_ARENA {
        return Err(ChainFault::BadArena { arena });
    }
    match Book::check_sizes(arena, slots) {
        Ok(()) => Ok(()),
        Err(CreateFault::BadArena { arena }) => Err(ChainFault::BadArena { arena }),
        Err(CreateFault::BadSlots { slots }) => Err(ChainFault::BadSlots { slots }),
        Err(CreateFault::OutOfMemory) => unreachable!(),
    }
}

// A class of nothing.
fn no_class(alloc: Global) -> Result<Class, OutOfMemory> {
    let Some(never) = Micros::new(0) else {
        unreachable!()
    };
    let spec = ClassSpec {
        from: never,
        to: never,
        specs: ArrayVec::new(),
    };
    match Class::build(alloc, &spec) {
        Ok(class) => Ok(class),
        Err(_) => Err(OutOfMemory),
    }
}

// A node on a new queue.
fn new_node(
    alloc: Global,
    arena: u64,
    slots: u32,
    class: Class,
    max_hereis: u32,
) -> Result<ChainNode, OutOfMemory>
    requires arena { IsGoodArena arena }
    requires slots { IsGoodSlots slots }
    ensures { IfOk result (IsNew arena slots max_hereis class) }
{
    let Ok((shared, mut passes)) = Shared::create(alloc, arena, slots, 1) else {
        return Err(OutOfMemory);
    };
    let Some(pass) = passes.pop() else {
        unreachable!()
    };
    Ok(ChainNode {
        shared,
        pass,
        class,
        max_hereis,
    })
}

// The first node: what is queued once the script was played.
fn first_node<H: Wait>(
    rt: &H,
    alloc: Global,
    arena: u64,
    slots: u32,
    script: &[u8],
) -> Result<ChainNode, ChainFault>
    requires arena { IsGoodArena arena }
    requires slots { IsGoodSlots slots }
    requires short { length script.now ≤ LONGEST_SCRIPT }
    ensures first { IfOk result (IsFirst arena slots script.now) }
    ensures fault { IfErr result (λ why. IsNotFirst why arena slots script.now) }
{
    calls_made();
    regions_lie_apart();
    let book = play_script(alloc, arena, slots, script)?;
    let class = no_class(alloc)?;
    let mut node = new_node(alloc, arena, slots, class, 0)?;
    put_products(rt, &book, &node.shared, &mut node.pass);
    Ok(node)
}

// The nodes of a chain: the first one, and one for each class.
fn all_nodes(
    alloc: Global,
    first: ChainNode,
    arena: u64,
    slots: u32,
    max_hereis: u32,
    mut classes: Vec<Class>,
) -> Result<Vec<ChainNode>, OutOfMemory>
    requires arena { IsGoodArena arena }
    requires slots { IsGoodSlots slots }
    ensures { IfOk result
        (λ nodes. (others : List Node) × (nodes.items ≡ first ∷ others)
        × AreNew arena slots max_hereis classes.items others) }
{
    let mut nodes = Vec::new(alloc);
    nodes.push(first)?;
    while !classes.is_empty() {
        let class = classes.remove(0);
        let node = new_node(alloc, arena, slots, class, max_hereis)?;
        nodes.push(node)?;
    }
    Ok(nodes)
}

/// The nodes from 1 on, once each was fed.
pub fn fed_nodes<H: Wait, C: Clock>(
    rt: &H,
    alloc: Global,
    setup: ChainSetup<'_>,
    policy: &Policy,
    script: &[u8],
    clock: &mut C,
) -> Result<Vec<ChainNode>, ChainFault>
    requires arena { IsGoodArena setup.arena }
    requires slots { IsGoodSlots setup.slots }
    requires classes { AllByRecursion IsForAllTimes setup.classes.items }
    requires few { length setup.classes.items ≤ 7 }
    requires short { length script.now ≤ LONGEST_SCRIPT }
    ensures fed { IfOk result
        (λ nodes. AreFed (work_of setup.entry) policy.now script.now nodes.items (C.tells clock.old)
        (C.tells clock.new)) }
    ensures unfed { IfErr result
        (λ why. AreNotFed why (work_of setup.entry) policy.now script.now (C.tells clock.old) (C.tells clock.new)) }
{
    let ChainSetup {
        conf: _,
        arena,
        slots,
        max_hereis,
        classes,
    } = setup;
    calls_made();
    let first = first_node(rt, alloc, arena, slots, script)?;
    let mut nodes = all_nodes(alloc, first, arena, slots, max_hereis, classes)?;
    match chain(rt, alloc, nodes.as_mut_slice(), clock, policy) {
        ChainEnd::Done => {
            let _first = nodes.remove(0);
            Ok(nodes)
        }
        end => Err(ChainFault::NotFed(end)),
    }
}
