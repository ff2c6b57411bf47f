//! `ldm chain`: a script, and queues that are fed one from the other.
ghost use Rattle.std.specs.Prelude.{◌≤◌, length, IfErr};
ghost use Rattle.std.specs.Option.{option_copied};
ghost use Rattle.std.specs.List.{AllByRecursion};
ghost use Rattle.ldm_outside.specs.Io.{SinkRecord};
ghost use Rattle.ldm_status.specs.Streams.{streams_tells};
ghost use Rattle.ldm_chain.specs.Queues.{IsForAllTimes};
ghost use Rattle.ldm_chain.specs.Work.{chain_outside, work_of};
ghost use Rattle.ldm_chain.specs.Policy.{UntakenCompletes};
ghost use Rattle.ldm_chain.specs.CommandEnding.{ChainEnds};
ghost use Rattle.ldm_chain.specs.Law.{ObeysChainLaw};
ghost use Rattle.ldm_chain.specs.Run.{KeepsChainCounts, RunsChain};
ghost use Rattle.ldm_chain.specs.Complete.{ChainCompletes};

use crate::fault::ChainFault;
use crate::nodes::{check_sizes, fed_nodes};
use crate::policy::take_policy;
use crate::setup::ChainSetup;
use crate::statuses::status_of;
use crate::texts::text_of;
use ldm_model::histories_are_lawful;
use ldm_outside::{Clock, Sink, Source, Store, write_all};
use ldm_status::{Streams, take_script};
use std::alloc::Global;
use std::sync::Wait;

// Takes the rules and the script, feeds the nodes, and writes the text of their queues.
fn feed_and_write<H: Wait, S: Source, K: Sink, C: Clock, F: Store>(
    rt: &H,
    alloc: Global,
    setup: ChainSetup<'_>,
    source: &mut S,
    sink: &mut K,
    clock: &mut C,
    store: &mut F,
) -> Result<(), ChainFault>
    requires classes { AllByRecursion IsForAllTimes setup.classes.items }
    requires few { length setup.classes.items ≤ 7 }
    ensures ends { (log_before log_after : SinkRecord) →
        let old = chain_outside (record { source = S.tells source.old; sink = K.tells sink.old; log = log_before })
        (C.tells clock.old) (F.tells store.old) in
        let new = chain_outside (record { source = S.tells source.new; sink = K.tells sink.new; log = log_after })
        (C.tells clock.new) (F.tells store.new) in
        ChainEnds result (work_of setup.entry) old new }
    ensures conf { IfErr result
        (λ why. UntakenCompletes why (option_copied setup.entry.conf) (F.tells store.old) (F.tells store.new)) }
    ensures source_kept { (S.tells source.old).faults ≤ (S.tells source.new).faults }
    ensures sink_kept { (K.tells sink.old).faults ≤ (K.tells sink.new).faults }
    ensures store_kept { (F.tells store.old).faults ≤ (F.tells store.new).faults }
    ensures long_kept { (F.tells store.old).long ≤ (F.tells store.new).long }
{
    check_sizes(setup.arena, setup.slots)?;
    let policy = take_policy(alloc, store, setup.conf)?;
    let script = take_script(alloc, source)?;
    let nodes = fed_nodes(rt, alloc, setup, &policy, script.as_slice(), clock)?;
    let text = text_of(alloc, nodes)?;
    write_all(sink, text.as_slice())?;
    Ok(())
}

/// Plays the script of the source on a queue and answers no line; puts the queued products that have a feedtype into
/// the queue of node 0, in order and each at its own insertion time; feeds each node from the one before it, by the
/// ALLOW rules of the configuration; and writes for each node from 1 on a line with its number, a line for each queued
/// product in order, and how full its queue is. Answers the number that the program ends with, and writes its line to
/// the log.
///
/// The sizes are looked at first, then the configuration is taken, and then the script, whole. Nothing is written
/// unless each node was fed. The clause `ends` gives each status its cause, and what was read and written then: see
/// `RunsChain`. The clause `law` says that the queues that are written are those of histories that obey the law of the
/// queue, or for what cause there are none: see `ObeysChainLaw`. The clause `completes` says when each node is fed and
/// all is written: see `ChainUnhindered`.
pub fn run_chain<H: Wait, S: Source, K: Sink, E: Sink, C: Clock, F: Store>(
    rt: &H,
    alloc: Global,
    setup: ChainSetup<'_>,
    streams: &mut Streams<S, K, E>,
    clock: &mut C,
    store: &mut F,
) -> u8
    requires classes { AllByRecursion IsForAllTimes setup.classes.items }
    requires few { length setup.classes.items ≤ 7 }
    ensures ends { let old = chain_outside (streams_tells S.tells K.tells E.tells streams.old) (C.tells clock.old)
        (F.tells store.old) in
        let new = chain_outside (streams_tells S.tells K.tells E.tells streams.new) (C.tells clock.new)
        (F.tells store.new) in
        RunsChain (work_of setup.entry) result old new }
    ensures law { let old = chain_outside (streams_tells S.tells K.tells E.tells streams.old) (C.tells clock.old)
        (F.tells store.old) in
        let new = chain_outside (streams_tells S.tells K.tells E.tells streams.new) (C.tells clock.new)
        (F.tells store.new) in
        ObeysChainLaw (work_of setup.entry) result old new }
    ensures completes { let old = chain_outside (streams_tells S.tells K.tells E.tells streams.old) (C.tells clock.old)
        (F.tells store.old) in
        let new = chain_outside (streams_tells S.tells K.tells E.tells streams.new) (C.tells clock.new)
        (F.tells store.new) in
        ChainCompletes (work_of setup.entry) result old new }
    ensures faults_kept { let old = chain_outside (streams_tells S.tells K.tells E.tells streams.old)
        (C.tells clock.old) (F.tells store.old) in
        let new = chain_outside (streams_tells S.tells K.tells E.tells streams.new) (C.tells clock.new)
        (F.tells store.new) in
        KeepsChainCounts old new }
{
    histories_are_lawful();
    let ending = feed_and_write(
        rt,
        alloc,
        setup,
        &mut streams.source,
        &mut streams.sink,
        clock,
        store,
    );
    status_of(ending).report(&mut streams.log)
}
