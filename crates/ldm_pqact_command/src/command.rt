//! `pqact`: asks a node for a class of products, and does with each what the entries of a pqact.conf choose.
ghost use Rattle.std.specs.Prelude.{◌≡◌, ◌≤◌, ◌⊎◌, false, IfErr, IfOk, IsSome, None, option_map};
ghost use Rattle.std.specs.Option.{option_copied};
ghost use Rattle.ldm_shared.specs.declared.fault.CreateFault.TheVariants as fault;
ghost use Rattle.ldm_shared.specs.Limits.{IsFaultOf};
ghost use Rattle.ldm_actions.specs.Outputs.{KeepsOfAny, KeepsUnlessSpent, no_outputs, standing};
ghost use Rattle.ldm_gather.specs.declared.limits.TheConstants.{PASSES};
ghost use Rattle.ldm_gather.specs.Orders.{order_view, usual_order};
ghost use Rattle.ldm_gather.specs.Queue.{IsOpen, Opens};
ghost use Rattle.ldm_pqact_command.specs.Closing.{ClosesAll};
ghost use Rattle.ldm_pqact_command.specs.Complete.{PqactCompletes};
ghost use Rattle.ldm_pqact_command.specs.Handling.{ActBegins, standing_in};
ghost use Rattle.ldm_pqact_command.specs.Statuses.{IfStopped, IsEndOf};
ghost use Rattle.ldm_pqact_command.specs.PqactRuns.{KeepsPqactCounts, PqactEnds, Pqacts, Ran, ResumesBy, acter_at};
ghost use Rattle.ldm_pqact_command.specs.PqactRuns.{duty_of, here_of, only_conf, paths_of, pqact_lent};
ghost use Rattle.ldm_pqact_command.specs.State.{KeepsLast, TakesStateIf, behind, state_actions, state_deeds};

use crate::acter::Acter;
use crate::end::{Ended, PqactEnd, end_by, report};
use crate::state::{StateFiles, StateNotTaken, take_state};
use ldm_actions::Outputs;
use ldm_class::Class;
use ldm_command_files::take_entries;
use ldm_gather::{ARENA, GatherEnd, Gatherer, Order, SLOTS};
use ldm_outside::{Clock, Dial, Launcher, Reason, Reasons, Sink, Store};
use ldm_pqact::Pqact;
use ldm_pqact_conf::Entries;
use ldm_shared::{CreateFault, products_stay};
use ldm_types::{OutOfMemory, Signature};
use std::alloc::Global;
use std::sync::Wait;

/// What is asked for, the path of the pqact.conf whose entries act on it, and that of the state, where one is kept.
#[derive(Clone, Copy)]
pub struct ActOrder<'a> {
    pub order: Order<'a>,
    pub conf: &'a str,
    pub state: Option<&'a str>,
}

/// Asks a node for the products of a class, and does with each what the entries of the pqact.conf under the path
/// choose: with all products, or until so many were acted on. Answers the number that the program ends with, and writes
/// its line to the log. Its queue has the usual sizes: see [`act_on_products`].
pub fn pqact<
    'a,
    H: Wait,
    N: Dial + Reasons,
    F: Store + Reasons,
    L: Launcher + Reasons,
    E: Sink,
    C: Clock,
>(
    rt: &H,
    alloc: Global,
    net: &mut N,
    store: &mut F,
    launcher: &mut L,
    log: &mut E,
    clock: &mut C,
    host: &'a [u8],
    port: u16,
    class: &'a Class,
    count: Option<u64>,
    conf: &'a str,
) -> u8
    requires none_out { (N.tells net.old).links.out ≡ false }
    ensures ends { Pqacts F.tells L.tells result
        (usual_order (record { host = host.entry.now; port = port }) class.entry.now count)
        (only_conf conf.entry.now)
        (pqact_lent (N.tells net.old) store.old launcher.old (E.tells log.old) (C.tells clock.old))
        (pqact_lent (N.tells net.new) store.new launcher.new (E.tells log.new) (C.tells clock.new)) }
    ensures completes { PqactCompletes F.tells L.tells result
        (usual_order (record { host = host.entry.now; port = port }) class.entry.now count)
        (only_conf conf.entry.now)
        (pqact_lent (N.tells net.old) store.old launcher.old (E.tells log.old) (C.tells clock.old))
        (pqact_lent (N.tells net.new) store.new launcher.new (E.tells log.new) (C.tells clock.new)) }
    ensures none_out { (N.tells net.new).links.out ≡ false }
    ensures counts_kept { KeepsPqactCounts F.tells L.tells
        (pqact_lent (N.tells net.old) store.old launcher.old (E.tells log.old) (C.tells clock.old))
        (pqact_lent (N.tells net.new) store.new launcher.new (E.tells log.new) (C.tells clock.new)) }
{
    let order = Order {
        host,
        port,
        class,
        last: None,
        count,
        arena: ARENA,
        slots: SLOTS,
    };
    let order = ActOrder {
        order,
        conf,
        state: None,
    };
    act_on_products(rt, alloc, net, store, launcher, log, clock, &order)
}

/// Asks a node for the products of an order, and does with each what the entries of the pqact.conf choose: with all
/// products, or until so many were acted on. Answers the number that the program ends with, and writes its line to the
/// log.
///
/// Where a state is kept, the products behind the one of its signature are asked for, and the signature of the last
/// product is written in its place once all that is queued was acted on; where an action failed, that of the product in
/// hand is written at the end. A state that is not there yet, or cannot be read, is of no product.
///
/// It receives into a queue of its own, and acts on what is queued after each piece that came; so where there is a
/// count, more products than these may be acted on. A product that was evicted before that is told by the line `gap
/// pqact COUNT FIRST LAST` of the log. It connects once. At the end it gives the link back, and then shuts all files,
/// and shuts the input of each program and waits for it. Where no queue has the sizes, nothing is asked. The clause
/// `ends` gives each status its cause: see `Pqacts`. The clause `completes` says what is known where neither the net, a
/// link, the store, the launcher nor the log failed: see `PqactCompletes`.
///
/// Where an action failed, the reason before the status tells the product that was in hand.
pub fn act_on_products<
    H: Wait,
    N: Dial + Reasons,
    F: Store + Reasons,
    L: Launcher + Reasons,
    E: Sink,
    C: Clock,
>(
    rt: &H,
    alloc: Global,
    net: &mut N,
    store: &mut F,
    launcher: &mut L,
    log: &mut E,
    clock: &mut C,
    order: &ActOrder<'_>,
) -> u8
    requires none_out { (N.tells net.old).links.out ≡ false }
    ensures ends { Pqacts F.tells L.tells result (order_view order.now.order) (paths_of order.now)
        (pqact_lent (N.tells net.old) store.old launcher.old (E.tells log.old) (C.tells clock.old))
        (pqact_lent (N.tells net.new) store.new launcher.new (E.tells log.new) (C.tells clock.new)) }
    ensures completes { PqactCompletes F.tells L.tells result (order_view order.now.order) (paths_of order.now)
        (pqact_lent (N.tells net.old) store.old launcher.old (E.tells log.old) (C.tells clock.old))
        (pqact_lent (N.tells net.new) store.new launcher.new (E.tells log.new) (C.tells clock.new)) }
    ensures none_out { (N.tells net.new).links.out ≡ false }
    ensures counts_kept { KeepsPqactCounts F.tells L.tells
        (pqact_lent (N.tells net.old) store.old launcher.old (E.tells log.old) (C.tells clock.old))
        (pqact_lent (N.tells net.new) store.new launcher.new (E.tells log.new) (C.tells clock.new)) }
{
    let it = pqact_by(rt, alloc, net, store, launcher, log, clock, order);
    report(it, store.reason(), net.reason(), launcher.reason(), log)
}

// Takes the entries, and then the state. Where it does not come to more, what is wrong with them is known.
fn pqact_by<H: Wait, N: Dial, F: Store, L: Launcher, E: Sink, C: Clock>(
    rt: &H,
    alloc: Global,
    net: &mut N,
    store: &mut F,
    launcher: &mut L,
    log: &mut E,
    clock: &mut C,
    order: &ActOrder<'_>,
) -> Ended
    requires none_out { (N.tells net.old).links.out ≡ false }
    ensures ends { PqactEnds F.tells L.tells result.end (order_view order.now.order) (paths_of order.now)
        (pqact_lent (N.tells net.old) store.old launcher.old (E.tells log.old) (C.tells clock.old))
        (pqact_lent (N.tells net.new) store.new launcher.new (E.tells log.new) (C.tells clock.new)) }
    ensures none_out { (N.tells net.new).links.out ≡ false }
    ensures counts_kept { KeepsPqactCounts F.tells L.tells
        (pqact_lent (N.tells net.old) store.old launcher.old (E.tells log.old) (C.tells clock.old))
        (pqact_lent (N.tells net.new) store.new launcher.new (E.tells log.new) (C.tells clock.new)) }
{
    let mut known = Reason::new();
    match take_entries(alloc, store, order.conf, &mut known) {
        Ok(entries) => {
            let asked = Asked {
                order: order.order,
                entries,
                state: order.state,
            };
            resume(rt, alloc, net, store, launcher, log, clock, asked)
        }
        Err(fault) => Ended {
            end: PqactEnd::NotTaken(fault),
            known,
        },
    }
}

// What is asked for, by which entries it is acted on, and the path of the state, where one is kept.
#[derive(Drop)]
struct Asked<'a> {
    order: Order<'a>,
    entries: Entries,
    state: Option<&'a str>,
}

// Takes the state, where one is kept, and asks for what comes behind it.
fn resume<H: Wait, N: Dial, F: Store, L: Launcher, E: Sink, C: Clock>(
    rt: &H,
    alloc: Global,
    net: &mut N,
    store: &mut F,
    launcher: &mut L,
    log: &mut E,
    clock: &mut C,
    asked: Asked<'_>,
) -> Ended
    requires none_out { (N.tells net.old).links.out ≡ false }
    ensures resumes { ResumesBy F.tells L.tells result.end (order_view asked.entry.order)
        (duty_of asked.entry.entries (option_copied asked.entry.state))
        (pqact_lent (N.tells net.old) store.old launcher.old (E.tells log.old) (C.tells clock.old))
        (pqact_lent (N.tells net.new) store.new launcher.new (E.tells log.new) (C.tells clock.new)) }
    ensures none_out { (N.tells net.new).links.out ≡ false }
    ensures counts_kept { KeepsPqactCounts F.tells L.tells
        (pqact_lent (N.tells net.old) store.old launcher.old (E.tells log.old) (C.tells clock.old))
        (pqact_lent (N.tells net.new) store.new launcher.new (E.tells log.new) (C.tells clock.new)) }
{
    let mut known = Reason::new();
    match take_state_if(alloc, store, asked.state, &mut known) {
        Ok(last) => {
            let Asked {
                order,
                entries,
                state,
            } = asked;
            match begin(rt, alloc, behind(order, last), entries, state) {
                Ok(begun) => act(rt, net, store, launcher, log, clock, begun),
                Err(fault) => Ended::at(PqactEnd::NotMade(fault)),
            }
        }
        Err(why) => Ended {
            end: PqactEnd::NotResumed(why),
            known,
        },
    }
}

// The state under the path, where one is kept.
fn take_state_if<F: Store>(
    alloc: Global,
    store: &mut F,
    path: Option<&str>,
    known: &mut Reason,
) -> Result<Option<Signature>, StateNotTaken>
    ensures takes { TakesStateIf result (option_copied path.entry) (F.tells store.old) (F.tells store.new) }
    ensures faults_kept { (F.tells store.old).faults ≤ (F.tells store.new).faults }
{
    match path {
        Some(path) => take_state(alloc, store, path, known),
        None => Ok(None),
    }
}

// The order of what comes behind the product of that signature, if there is one.
fn behind(order: Order<'_>, last: Option<Signature>) -> Order<'_>
    ensures { order_view result ≡ behind last (order_view order.entry) }
{
    match last {
        Some(signature) => {
            let mut order = order;
            order.last = Some(signature);
            order
        }
        None => order,
    }
}

// A queue of one's own with what receives into it, and what acts on its products.
#[derive(Drop)]
struct Begun<'a> {
    gatherer: Gatherer<'a>,
    acter: Acter,
    // Writes the last state.
    spare: Outputs,
}

fn begin<'a, H: Wait>(
    rt: &H,
    alloc: Global,
    order: Order<'a>,
    entries: Entries,
    state: Option<&str>,
) -> Result<Begun<'a>, CreateFault>
    ensures order { IfOk result (λ begun. begun.gatherer.order ≡ order.entry) }
    ensures open { IfOk result (λ begun. IsOpen begun.gatherer) }
    ensures opened { IfOk result
        (λ begun. Opens (order_view order.entry) begun.gatherer.reader.k begun.gatherer.pass) }
    ensures acter { IfOk result
        (λ begun. begun.acter
        ≡ acter_at begun.gatherer.reader.k order.entry.count (duty_of entries (option_copied state.entry))) }
    ensures keeps { IfOk result (λ begun. KeepsOfAny begun.acter.outputs) }
    ensures spare { IfOk result (λ begun. begun.spare ≡ no_outputs) }
    ensures spare_keeps { IfOk result (λ begun. KeepsOfAny begun.spare) }
    ensures faults { IfErr result
        (λ why. (why ≡ fault.OutOfMemory) ⊎ IsFaultOf order.entry.arena order.entry.slots PASSES why) }
{
    let Ok(parts) = parts_of(alloc, entries, state) else {
        return Err(CreateFault::OutOfMemory);
    };
    match Gatherer::open(rt, alloc, order) {
        Ok(gatherer) => {
            let Parts {
                pqact,
                state,
                spare,
            } = parts;
            let acter = Acter::create(gatherer.reader(), order.count, pqact, state);
            Ok(Begun {
                gatherer,
                acter,
                spare,
            })
        }
        Err(fault) => Err(fault),
    }
}

// What acts on products, the files of the state, where one is kept, and outputs for the last one.
#[derive(Drop)]
struct Parts {
    pqact: Pqact,
    state: Option<StateFiles>,
    spare: Outputs,
}

fn parts_of(alloc: Global, entries: Entries, state: Option<&str>) -> Result<Parts, OutOfMemory>
    ensures entries { IfOk result (λ parts. parts.pqact.entries ≡ entries) }
    ensures outputs { IfOk result (λ parts. parts.pqact.outputs ≡ no_outputs) }
    ensures none_given { IfOk result (λ parts. parts.pqact.last ≡ None) }
    ensures keeps { IfOk result (λ parts. KeepsOfAny parts.pqact.outputs) }
    ensures state { IfOk result (λ parts. parts.state ≡ option_map state_actions (option_copied state.entry)) }
    ensures spare { IfOk result (λ parts. parts.spare ≡ no_outputs) }
    ensures spare_keeps { IfOk result (λ parts. KeepsOfAny parts.spare) }
{
    let state = match state {
        Some(path) => Some(StateFiles::of(alloc, path)?),
        None => None,
    };
    Ok(Parts {
        pqact: Pqact::create(alloc, entries)?,
        state,
        spare: Outputs::create(alloc)?,
    })
}

// Connects, and acts on what is gathered.
fn act<H: Wait, N: Dial, F: Store, L: Launcher, E: Sink, C: Clock>(
    rt: &H,
    net: &mut N,
    store: &mut F,
    launcher: &mut L,
    log: &mut E,
    clock: &mut C,
    begun: Begun<'_>,
) -> Ended
    requires open { IsOpen begun.gatherer }
    requires cursor { begun.acter.k ≡ begun.gatherer.reader.k }
    requires may { ActBegins F.tells L.tells begun.acter store.old launcher.old }
    requires spare { begun.spare ≡ no_outputs }
    requires spare_keeps { KeepsOfAny begun.spare }
    requires none_out { (N.tells net.old).links.out ≡ false }
    ensures ran { Ran F.tells L.tells result.end (order_view begun.entry.gatherer.order)
        (here_of begun.entry.acter begun.entry.gatherer.pass
        (pqact_lent (N.tells net.old) store.old launcher.old (E.tells log.old) (C.tells clock.old)))
        (pqact_lent (N.tells net.new) store.new launcher.new (E.tells log.new) (C.tells clock.new)) }
    ensures none_out { (N.tells net.new).links.out ≡ false }
    ensures counts_kept { KeepsPqactCounts F.tells L.tells
        (pqact_lent (N.tells net.old) store.old launcher.old (E.tells log.old) (C.tells clock.old))
        (pqact_lent (N.tells net.new) store.new launcher.new (E.tells log.new) (C.tells clock.new)) }
{
    products_stay();
    let Begun {
        gatherer,
        acter,
        spare,
    } = begun;
    let mut acter = acter;
    let gathered = gatherer.gather(rt, net, log, clock, &mut acter, store, launcher);
    match gathered {
        Some(end) => close(end, acter, spare, store, launcher),
        None => Ended::at(PqactEnd::Unreached),
    }
}

// Closes the outputs behind a gathering that ended so, and writes the last state. The product in hand is known, if one
// was.
fn close<F: Store, L: Launcher>(
    end: GatherEnd,
    acter: Acter,
    spare: Outputs,
    store: &mut F,
    launcher: &mut L,
) -> Ended
    requires keeps { KeepsUnlessSpent (standing_in F.tells L.tells acter store.old launcher.old) }
    requires why { IfStopped end (IsSome acter.why) }
    requires spare { spare ≡ no_outputs }
    requires spare_keeps { KeepsOfAny spare }
    ensures closed { (closed : ClosesAll end acter (standing_in F.tells L.tells acter store.old launcher.old)
        (F.tells store.new) (L.tells launcher.new))
        × IsEndOf result.end end acter.why closed.answer }
{
    let mut acter = acter;
    let mut known = Reason::new();
    known.put(acter.in_hand());
    let why = acter.why();
    let closed = acter.close(store, launcher);
    keep_last(&end, &acter, spare, store, launcher);
    Ended {
        end: end_by(end, why, closed),
        known,
    }
}

// Writes the last state, where acting on products stopped.
fn keep_last<F: Store, L: Launcher>(
    end: &GatherEnd,
    acter: &Acter,
    spare: Outputs,
    store: &mut F,
    launcher: &mut L,
)
    requires { KeepsOfAny spare }
    ensures { KeepsLast end.now (state_deeds acter.now.state acter.now.last)
        (standing spare (F.tells store.old) (L.tells launcher.old)) (F.tells store.new) (L.tells launcher.new) }
{
    match end {
        GatherEnd::Stopped => acter.keep_last(spare, store, launcher),
        GatherEnd::Received(_) | GatherEnd::Enough => {}
    }
}
