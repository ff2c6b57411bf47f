//! What receives into a queue of its own.
ghost use Rattle.std.specs.Prelude.{◌≡◌, ◌<◌, ◌∷◌, [], false, true, None, IfErr, IfOk};
ghost use Rattle.std.specs.Vec.{vec_len};
ghost use Rattle.ldm_model.specs.declared.event.Reply.TheVariants as reply;
ghost use Rattle.ldm_intake.specs.Opening.{request_of};
ghost use Rattle.ldm_relay.specs.Spelling.{records_of};
ghost use Rattle.ldm_downstream.specs.ReceiverView.{before_stream};
ghost use Rattle.ldm_shared.specs.Reader.{HasCursor};
ghost use Rattle.ldm_shared.specs.Limits.{IsFaultOf};
ghost use Rattle.ldm_shared.specs.Passes.{IsSamePass, Makes, PassView, entry_of, new_pass};
ghost use Rattle.ldm_gather.specs.Orders.{asks_for, order_view};
ghost use Rattle.ldm_gather.specs.Queue.{IsNewQueue, IsOpen, Opens, opening};
ghost use Rattle.ldm_gather.specs.Runs.{Connects, CountsStand, situation_of};
ghost use Rattle.ldm_gather.specs.Scene.{scene_of};

use crate::end::GatherEnd;
use crate::handler::Handler;
use crate::limits::{EVERY_FEEDTYPE, LARGEST_HEREIS, PASSES};
use crate::order::Order;
use ldm_downstream::{LONGEST_PIECE, Receiver};
use ldm_model::Start;
use ldm_outside::{Clock, Dial, Dialled, Sink};
use ldm_shared::{CreateFault, Opening, Pass, Reader, Shared, Turn, one_pass};
use ldm_types::{Feed, OutOfMemory};
use std::alloc::Global;
use std::sync::Wait;

/// A queue of one's own, as large as an order says, with its only pass, a cursor for all feedtypes, and what receives
/// the products of the order into it.
#[derive(Drop)]
pub struct Gatherer<'a> {
    pub(crate) order: Order<'a>,
    pub(crate) shared: Shared,
    pub(crate) pass: Pass,
    pub(crate) reader: Reader,
    pub(crate) receiver: Receiver<'a>,
    pub(crate) buffers: Buffers,
}

// Memory for a piece, for what the peer is owed and for log lines.
#[derive(Drop)]
pub(crate) struct Buffers {
    pub(crate) piece: Vec<u8>,
    pub(crate) out: Vec<u8>,
    pub(crate) notes: Vec<u8>,
}

impl<'a> Gatherer<'a> {
    /// Makes the queue, and opens the cursor at its oldest product. All memory that a gathering takes is taken here,
    /// but for what records and products in hand need.
    pub fn open<H: Wait>(
        rt: &H,
        alloc: Global,
        order: Order<'a>,
    ) -> Result<Gatherer<'a>, CreateFault>
        ensures order { IfOk result (λ it. it.order ≡ order.entry) }
        ensures opened { IfOk result (λ it. Opens (order_view order.entry) it.reader.k it.pass) }
        ensures open { IfOk result IsOpen }
        ensures faults { IfErr result (IsFaultOf order.entry.arena order.entry.slots PASSES) }
    {
        let mut own = create(alloc, &order)?;
        let reader = open_cursor(rt, &order, &mut own);
        match begin(alloc, &order) {
            Ok(begun) => Ok(Gatherer {
                order,
                shared: own.shared,
                pass: own.pass,
                reader,
                receiver: begun.receiver,
                buffers: begun.buffers,
            }),
            Err(OutOfMemory) => Err(CreateFault::OutOfMemory),
        }
    }

    /// The cursor of the queue.
    pub fn reader(&self) -> Reader
        ensures { result ≡ self.now.reader }
    {
        self.reader
    }

    /// Connects to the peer of the order and asks it for the products, and receives what it feeds. After each piece
    /// that came it sends what the peer is owed, writes the log lines of the receiving, and has the handler handle what
    /// is queued by then. It connects once, and gives the link back. There is no end where no link was connected.
    pub fn gather<H: Wait, N: Dial, E: Sink, C: Clock, A, B, W: Handler<A, B>>(
        self,
        rt: &H,
        net: &mut N,
        log: &mut E,
        clock: &mut C,
        handler: &mut W,
        first: &mut A,
        second: &mut B,
    ) -> Option<GatherEnd>
        requires open { IsOpen self }
        requires cursor { W.cursor handler.old ≡ self.reader.k }
        requires may { W.begins handler.old first.old second.old }
        requires none_out { (N.tells net.old).links.out ≡ false }
        ensures connects { (last : PassView) × Connects W.handles result (order_view self.entry.order)
            (situation_of (scene_of handler.old first.old second.old self.entry.pass (E.tells log.old))
            (N.tells net.old) (C.tells clock.old))
            (situation_of (scene_of handler.new first.new second.new last (E.tells log.new)) (N.tells net.new)
            (C.tells clock.new)) }
        ensures none_out { (N.tells net.new).links.out ≡ false }
        ensures counts_kept { CountsStand
            (situation_of (scene_of handler.old first.old second.old self.entry.pass (E.tells log.old))
            (N.tells net.old) (C.tells clock.old))
            (situation_of (scene_of handler.new first.new second.new self.entry.pass (E.tells log.new))
            (N.tells net.new) (C.tells clock.new)) }
    {
        match net.connect(self.order.host, self.order.port) {
            Dialled::Linked(link) => {
                let mut link = link;
                let end = self.receive(rt, &mut link, log, clock, handler, first, second);
                net.give_back(link);
                Some(end)
            }
            Dialled::Failed => None,
        }
    }
}

// A queue with its only pass.
#[derive(Drop)]
struct Own {
    shared: Shared,
    pass: Pass,
}

fn create(alloc: Global, order: &Order<'_>) -> Result<Own, CreateFault>
    ensures made { IfOk result (λ own. IsNewQueue (order_view order.now) own.shared own.pass) }
    ensures limits { IfOk result (λ _. IsFaultOf order.now.arena order.now.slots PASSES CreateFault.OutOfMemory) }
    ensures faults { IfErr result (IsFaultOf order.now.arena order.now.slots PASSES) }
{
    match Shared::create(alloc, order.arena, order.slots, PASSES) {
        Ok((shared, passes)) => {
            let mut passes = passes;
            let Some(pass) = passes.pop() else {
                unreachable!()
            };
            Ok(Own { shared, pass })
        }
        Err(fault) => Err(fault),
    }
}

// Opens a cursor of a new queue, with its only pass: a place is free.
fn open_cursor<H: Wait>(rt: &H, order: &Order<'_>, own: &mut Own) -> Reader
    requires { IsNewQueue (order_view order.now) own.old.shared own.old.pass }
    ensures same { own.new ≡ record own.old { pass = own.new.pass } }
    ensures kept { IsSamePass own.old.pass own.new.pass }
    ensures opened { Makes (new_pass own.old.shared 0) own.new.pass
        (entry_of (new_pass own.old.shared 0) opening (reply.Opened result.k) ∷ []) }
    ensures cursor { HasCursor own.new.pass result.k None }
{
    one_pass();
    match Reader::open(
        &own.shared,
        rt,
        &mut own.pass,
        Feed(EVERY_FEEDTYPE),
        Start::Oldest,
    ) {
        Turn::Done(Opening::Opened(reader)) => reader,
        Turn::Done(Opening::AllBusy) => unreachable!(),
        Turn::Done(Opening::NotQueued) => unreachable!(),
        Turn::Worn { .. } => unreachable!(),
    }
}

// A receiver before the first byte of its stream, with the request that is owed in the buffer.
#[derive(Drop)]
struct Begun<'a> {
    receiver: Receiver<'a>,
    buffers: Buffers,
}

fn begin<'a>(alloc: Global, order: &Order<'a>) -> Result<Begun<'a>, OutOfMemory>
    ensures receiver { IfOk result
        (λ begun. begun.receiver ≡ before_stream (asks_for (order_view order.now)) false) }
    ensures owed { IfOk result
        (λ begun. begun.buffers.out.items ≡ records_of (request_of (asks_for (order_view order.now)))) }
    ensures no_notes { IfOk result (λ begun. begun.buffers.notes.items ≡ []) }
    ensures room { IfOk result (λ begun. 0 < vec_len begun.buffers.piece) }
{
    let mut receiver = Receiver::request(alloc, order.class, order.last, LARGEST_HEREIS)?;
    let mut out = Vec::new(alloc);
    receiver.begin(&mut out)?;
    Ok(Begun {
        receiver,
        buffers: Buffers {
            piece: vec![in alloc; 0u8; LONGEST_PIECE]?,
            out,
            notes: Vec::new(alloc),
        },
    })
}
