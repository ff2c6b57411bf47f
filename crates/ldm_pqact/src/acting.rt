//! Acting on the products of a queue, until the gate says to stop.
ghost use Rattle.std.specs.Prelude.{◌≡◌, None};
ghost use Rattle.ldm_model.specs.declared.event.Reply.TheVariants as reply;
ghost use Rattle.ldm_shared.specs.Passes.{Grows, IsPassOf, IsSamePass, PassView};
ghost use Rattle.ldm_shared.specs.Reader.{HasCursor};
ghost use Rattle.ldm_actions.specs.Outputs.{KeepsUnlessSpent, no_outputs, standing};
ghost use Rattle.ldm_pqact.specs.Acted.{Acts, ActsOpened, KeepsActCounts, end_after, opening, situation_of};
ghost use Rattle.ldm_pqact.specs.Acting.{sight_of};
ghost use Rattle.ldm_pqact.specs.Complete.{ActCompletes};
ghost use Rattle.ldm_pqact.specs.Course.{Follows, gated_of};

use crate::end::ActEnd;
use crate::limits::EVERY_FEEDTYPE;
use crate::pqact::Pqact;
use ldm_actions::Done;
use ldm_model::Start;
use ldm_outside::{Gate, Go, Launcher, Sink, Store};
use ldm_pqact_conf::Entries;
use ldm_shared::{Opening, Pass, Reader, Shared, Turn, products_stay};
use ldm_types::Feed;
use std::alloc::Global;
use std::sync::Wait;

// A cursor, and what acts on its products.
#[derive(Drop)]
struct Follower {
    reader: Reader,
    pqact: Pqact,
}

impl Follower {
    // Acts on every product up to the end of the queue, and again, until the gate says to stop there.
    fn follow<H: Wait, F: Store, L: Launcher, E: Sink, G: Gate>(
        &mut self,
        rt: &H,
        shared: &Shared,
        pass: &mut Pass,
        log: &mut E,
        gate: &mut G,
        store: &mut F,
        launcher: &mut L,
    ) -> ActEnd
        requires of { IsPassOf shared.now pass.old }
        requires cursor { HasCursor pass.old self.old.reader.k None }
        requires keeps { KeepsUnlessSpent (standing self.old.pqact.outputs (F.tells store.old) (L.tells launcher.old)) }
        ensures kept { IsSamePass pass.old pass.new }
        ensures reader { self.new.reader ≡ self.old.reader }
        ensures keeps { KeepsUnlessSpent (standing self.new.pqact.outputs (F.tells store.new) (L.tells launcher.new)) }
        ensures follows { Follows result self.old.pqact.entries self.old.reader.k
            (gated_of (sight_of pass.old
            (standing self.old.pqact.outputs (F.tells store.old) (L.tells launcher.old)) (E.tells log.old))
            (G.tells gate.old))
            (gated_of (sight_of pass.new
            (standing self.new.pqact.outputs (F.tells store.new) (L.tells launcher.new)) (E.tells log.new))
            (G.tells gate.new)) }
    {
        products_stay();
        let reader = self.reader;
        for _ in rt.forever() {
            match self
                .pqact
                .pending(shared, rt, pass, &reader, store, launcher, log)
            {
                ActEnd::Stopped => match gate.idle() {
                    Go::On => {}
                    Go::Stop => return ActEnd::Stopped,
                },
                end => return end,
            }
        }
        unreachable!()
    }

    // Acts on the products of a cursor that was opened, and closes outputs and cursor.
    fn run<H: Wait, F: Store, L: Launcher, E: Sink, G: Gate>(
        &mut self,
        rt: &H,
        shared: &Shared,
        pass: &mut Pass,
        log: &mut E,
        gate: &mut G,
        store: &mut F,
        launcher: &mut L,
    ) -> ActEnd
        requires of { IsPassOf shared.now pass.old }
        requires cursor { HasCursor pass.old self.old.reader.k None }
        requires outputs { self.old.pqact.outputs ≡ no_outputs }
        requires keeps { KeepsUnlessSpent (standing self.old.pqact.outputs (F.tells store.old) (L.tells launcher.old)) }
        ensures acts { (first : PassView) → Grows first pass.old opening (reply.Opened self.old.reader.k)
            → ActsOpened result self.old.pqact.entries
            (situation_of first (F.tells store.old) (L.tells launcher.old) (E.tells log.old) (G.tells gate.old))
            (situation_of pass.new (F.tells store.new) (L.tells launcher.new) (E.tells log.new) (G.tells gate.new)) }
    {
        products_stay();
        let reader = self.reader;
        let ended = self.follow(rt, shared, pass, log, gate, store, launcher);
        let answer = self.pqact.close(store, launcher);
        if let ActEnd::Worn = ended {
            return ActEnd::Worn;
        }
        match reader.close(shared, rt, pass) {
            Turn::Done(()) => end_after(ended, answer),
            Turn::Worn { .. } => ActEnd::Worn,
        }
    }
}

// How it ends, by how acting on products ended and what the closing of the outputs answered.
fn end_after(ended: ActEnd, answer: Done) -> ActEnd
    ensures { result ≡ end_after ended answer }
{
    match ended {
        ActEnd::Stopped => match answer {
            Done::Ok => ActEnd::Stopped,
            Done::StoreFault => ActEnd::StoreFault,
            Done::LaunchFault => ActEnd::LaunchFault,
        },
        ended => ended,
    }
}

/// Opens a cursor for all feedtypes at the oldest product, and acts on every product up to the end of the queue. There
/// it asks the gate: where this says to go on, it acts on what came meanwhile, and where it says to stop, that is the
/// end. Then it shuts all files, shuts the input of each program and waits for it, and closes the cursor.
///
/// Outputs are closed at every end at which they are not spent, and the cursor at every end but [`ActEnd::Worn`]. Where
/// the actions ended well and a call of the store or the launcher failed when outputs were closed, that fault is the
/// end.
pub fn act<H: Wait, F: Store, L: Launcher, E: Sink, G: Gate>(
    rt: &H,
    alloc: Global,
    shared: &Shared,
    pass: &mut Pass,
    store: &mut F,
    launcher: &mut L,
    log: &mut E,
    gate: &mut G,
    entries: Entries,
) -> ActEnd
    requires of { IsPassOf shared.now pass.old }
    ensures kept { IsSamePass pass.old pass.new }
    ensures counts { KeepsActCounts
        (situation_of pass.old (F.tells store.old) (L.tells launcher.old) (E.tells log.old) (G.tells gate.old))
        (situation_of pass.new (F.tells store.new) (L.tells launcher.new) (E.tells log.new) (G.tells gate.new)) }
    ensures acts { Acts result entries
        (situation_of pass.old (F.tells store.old) (L.tells launcher.old) (E.tells log.old) (G.tells gate.old))
        (situation_of pass.new (F.tells store.new) (L.tells launcher.new) (E.tells log.new) (G.tells gate.new)) }
    // Where nothing hinders, all is done up to the end at which the gate said to stop; or all cursors are taken. But
    // memory may be wanting.
    ensures completes { ActCompletes result entries
        (situation_of pass.old (F.tells store.old) (L.tells launcher.old) (E.tells log.old) (G.tells gate.old))
        (situation_of pass.new (F.tells store.new) (L.tells launcher.new) (E.tells log.new) (G.tells gate.new)) }
{
    let Ok(pqact) = Pqact::create(alloc, entries) else {
        return ActEnd::OutOfMemory;
    };
    match Reader::open(shared, rt, pass, Feed(EVERY_FEEDTYPE), Start::Oldest) {
        Turn::Done(Opening::Opened(reader)) => {
            let mut follower = Follower { reader, pqact };
            follower.run(rt, shared, pass, log, gate, store, launcher)
        }
        Turn::Done(Opening::AllBusy) => ActEnd::AllBusy,
        Turn::Done(Opening::NotQueued) => unreachable!(),
        Turn::Worn { .. } => ActEnd::Worn,
    }
}
