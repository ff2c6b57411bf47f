//! Feeding a node of a chain from the one before it.
ghost use Rattle.std.specs.Prelude.{◌≡◌, ◌≤◌, length, None, IfOk, IfNone, IfSome, MatchResult, OnErr, false};
ghost use Rattle.ldm_types.specs.declared.class.ClassSpec.{ClassSpec};
ghost use Rattle.ldm_class.specs.Access.{reduce};
ghost use Rattle.ldm_class.specs.Classes.{bad_place};
ghost use Rattle.ldm_class.specs.Rules.{rules_for};
ghost use Rattle.ldm_class.specs.declared.answers.Reduced.TheVariants as reduced;
ghost use Rattle.ldm_session.specs.declared.gaps.TheConstants.{LONGEST_NAME};
ghost use Rattle.ldm_shared.specs.Passes.{IsPassOf, IsSamePass};
ghost use Rattle.ldm_intake.specs.Opening.{request_of};
ghost use Rattle.ldm_relay.specs.Spelling.{records_of};
ghost use Rattle.ldm_downstream.specs.ReceiverView.{before_stream};
ghost use Rattle.ldm_downstream.specs.Receives.{at_first};
ghost use Rattle.ldm_chain.specs.Breaking.{Breaks, Came, CameRest, IsUnbuilt};
ghost use Rattle.ldm_chain.specs.Ending.{broken_off, by_feeder, by_receiver, ended_by};
ghost use Rattle.ldm_chain.specs.Linking.{Fed, Links, asked_by, asking};
ghost use Rattle.ldm_chain.specs.MirrorView.{MirrorView};
ghost use Rattle.ldm_chain.specs.Nodes.{IsNode, KeepsNode};

use crate::mirror::{Begun, Lent, Mirror, Returned};
use crate::node::{Break, ChainNode};
use crate::outside::{StillClock, StopGate};
use crate::writable::class_fits;
use ldm_class::{Class, ClassFault, Policy, Reduced};
use ldm_downstream::Receiver;
use ldm_intake::RecvEnd;
use ldm_outside::SureSink;
use ldm_relay::Feedme;
use ldm_shared::{Pass, Shared};
use ldm_types::{ClassSpec, Micros, OutOfMemory};
use ldm_upstream::{FeedEnd, feed};
use std::alloc::Global;
use std::marker::Brand;
use std::sync::Wait;

// What a node asks of the one before it, and at which moment: from its shared queue, as that host, under these rules.
#[derive(Drop)]
struct Feeding<'f> {
    shared: &'f Shared,
    policy: &'f Policy,
    host: &'f [u8],
    class: &'f Class,
    max_hereis: u32,
    moment: Micros,
}

// A receiver that asks, and the record of its request.
#[derive(Drop)]
struct Asker<'f> {
    receiver: Receiver<'f>,
    request: Vec<u8>,
}

// How a feeding ends a chain, if it does.
fn ended(end: FeedEnd) -> Option<Break>
    ensures { result ≡ ended_by end }
{
    match end {
        FeedEnd::Stopped => None,
        end => Some(Break::Feed(end)),
    }
}

// Builds the class that the receiver took over. It built the same one, so a pattern that means nothing has ended it
// before.
fn build_fewer(alloc: Global, fewer: &ClassSpec) -> Result<Class, Break>
    ensures { MatchResult result (λ class. (class ≡ fewer.now) × (bad_place fewer.now.specs.items ≡ None))
        (λ why. IsUnbuilt fewer.now why) }
{
    match Class::build(alloc, fewer) {
        Ok(class) => Ok(class),
        Err(ClassFault::BadPattern { .. }) => Err(Break::Receive(RecvEnd::BadFrame { at: 0 })),
        Err(ClassFault::OutOfMemory) => Err(Break::OutOfMemory),
    }
}

// How a feeder ends a chain whose receiver goes on. Then a mirror failed since it has no room for more.
fn broken_off(end: FeedEnd) -> Break
    ensures { result ≡ broken_off end }
{
    match end {
        FeedEnd::LinkFault => Break::OutOfMemory,
        end => Break::Feed(end),
    }
}

// How a feeder ends a chain, if it does, whose receiver goes on.
fn by_feeder(fed: Option<Break>) -> Option<Break>
    ensures { result ≡ by_feeder fed }
{
    match fed {
        Some(Break::Feed(end)) => Some(broken_off(end)),
        fed => fed,
    }
}

// How a node's feeding ends a chain, if it does: by the receiver, if that is over, however its feeder ended; else by
// the feeder.
fn by_receiver(over: Option<RecvEnd>, fed: Option<Break>) -> Option<Break>
    ensures { result ≡ by_receiver over fed }
{
    match over {
        None => by_feeder(fed),
        Some(RecvEnd::OutOfMemory) => Some(Break::OutOfMemory),
        Some(over) => Some(Break::Receive(over)),
    }
}

impl Feeding<'_> {
    // Feeds a class over a mirror, as the answer to the call of that number.
    fn feed_over<H: Wait, B: Begun>(
        &self,
        rt: &H,
        alloc: Global,
        pass: &mut Pass,
        mirror: &mut Mirror<'_, '_, H, B>,
        xid: u32,
        class: &Class,
    ) -> FeedEnd
        requires of { IsPassOf self.now.shared.now pass.old }
        requires name { length self.now.host.now ≤ LONGEST_NAME }
        requires open { mirror.old.closed ≡ false }
        ensures kept { IsSamePass pass.old pass.new }
        ensures fed { Fed result
            (asked_by self.now.host.now self.now.policy.now xid class.now self.now.max_hereis)
            pass.old pass.new mirror.old mirror.new }
    {
        let ask = Feedme {
            xid,
            class: class.spec().copy(),
            max_hereis: self.max_hereis,
        };
        let mut log = SureSink;
        let mut gate = StopGate { stops: 0 };
        let mut clock = StillClock(self.moment);
        feed(
            rt,
            alloc,
            self.shared,
            pass,
            mirror,
            &mut log,
            &mut gate,
            &mut clock,
            self.host,
            &ask,
            class,
            self.policy,
        )
    }

    // What is left of the class, where a part of it is left.
    fn fewer(&self, alloc: Global) -> Result<ClassSpec, OutOfMemory>
        requires { (fewer : ClassSpec)
            × (reduce (rules_for false self.now.policy.now) self.now.host.now self.now.class.now
            ≡ reduced.Fewer fewer) }
        ensures { IfOk result
            (λ fewer. reduce (rules_for false self.now.policy.now) self.now.host.now self.now.class.now
            ≡ reduced.Fewer fewer) }
    {
        match self
            .policy
            .reduce(alloc, self.host, self.class.spec(), false)?
        {
            Reduced::Fewer(fewer) => Ok(fewer),
            Reduced::Same => unreachable!(),
            Reduced::Nothing { .. } => unreachable!(),
        }
    }

    // Feeds what is left of the class. The receiver was told which part that is and asked for it: its request waits.
    fn feed_fewer<H: Wait, B: Begun>(
        &self,
        rt: &H,
        alloc: Global,
        pass: &mut Pass,
        mirror: &mut Mirror<'_, '_, H, B>,
    ) -> Option<Break>
        requires of { IsPassOf self.now.shared.now pass.old }
        requires name { length self.now.host.now ≤ LONGEST_NAME }
        requires open { mirror.old.closed ≡ false }
        requires left { (fewer : ClassSpec)
            × (reduce (rules_for false self.now.policy.now) self.now.host.now self.now.class.now
            ≡ reduced.Fewer fewer) }
        ensures kept { IsSamePass pass.old pass.new }
        ensures fed { CameRest result
            (asked_by self.now.host.now self.now.policy.now 1 self.now.class.now self.now.max_hereis)
            pass.old pass.new mirror.old mirror.new }
    {
        let fewer = match self.fewer(alloc) {
            Ok(fewer) => fewer,
            Err(_) => return Some(Break::OutOfMemory),
        };
        let built = match build_fewer(alloc, &fewer) {
            Ok(built) => built,
            Err(end) => return Some(end),
        };
        class_fits(&fewer);
        mirror.take_request();
        let end = self.feed_over(rt, alloc, pass, mirror, 2, &built);
        ended(end)
    }

    // Feeds the class, or what is left of it.
    fn feed_class<H: Wait, B: Begun>(
        &self,
        rt: &H,
        alloc: Global,
        pass: &mut Pass,
        mirror: &mut Mirror<'_, '_, H, B>,
    ) -> Option<Break>
        requires of { IsPassOf self.now.shared.now pass.old }
        requires name { length self.now.host.now ≤ LONGEST_NAME }
        requires open { mirror.old.closed ≡ false }
        ensures kept { IsSamePass pass.old pass.new }
        ensures fed { Came result B.begun
            (asked_by self.now.host.now self.now.policy.now 1 self.now.class.now self.now.max_hereis)
            pass.old pass.new mirror.old mirror.new }
    {
        let end = self.feed_over(rt, alloc, pass, mirror, 1, self.class);
        let FeedEnd::Reclassed = end else {
            return ended(end);
        };
        if mirror.is_over() {
            return Some(Break::Feed(end));
        }
        self.feed_fewer(rt, alloc, pass, mirror)
    }

    // Feeds a receiver that has asked by a first request, over a mirror. Tells how that ends the chain, if it does.
    fn reflect<'a, 'p, H: Wait, B: Begun>(
        &self,
        rt: &'a H,
        alloc: Global,
        pass: &mut Pass,
        next: &'a Shared,
        lent: Lent<'p>,
        asker: Asker<'a>,
        end: &mut Option<Break>,
    ) -> Lent<'p>
        requires of { IsPassOf self.now.shared.now pass.old }
        requires next { IsPassOf next.now lent.pass.now }
        requires name { length self.now.host.now ≤ LONGEST_NAME }
        requires before { asker.receiver ≡ before_stream (asking self.now.class.now self.now.max_hereis) false }
        requires asks { asker.request.items ≡ records_of (request_of (asking self.now.class.now self.now.max_hereis)) }
        requires first { B.begun.first ≡ at_first (asking self.now.class.now self.now.max_hereis) lent.pass.now }
        requires moment { B.begun.now ≡ self.now.moment }
        requires lender { B.begun.name ≡ lent.pass.ghost_name }
        ensures kept { IsSamePass pass.old pass.new }
        ensures lender { result.pass.ghost_name ≡ lent.entry.pass.ghost_name }
        ensures next { IsSamePass lent.entry.pass.now result.pass.now }
        ensures links { IfNone end.new
            (Links (asked_by self.now.host.now self.now.policy.now 1 self.now.class.now self.now.max_hereis)
            self.now.moment pass.old pass.new lent.entry.pass.now result.pass.now) }
        ensures broken { IfSome end.new
            (λ why. Breaks why
            (asked_by self.now.host.now self.now.policy.now 1 self.now.class.now self.now.max_hereis)
            pass.old pass.new lent.entry.pass.now result.pass.now) }
    {
        // The bound of the arena is known then, and that the class can be written.
        let _arena = self.shared.arena();
        class_fits(self.class.spec());
        let Asker { receiver, request } = asker;
        let mut mirror = Mirror::<'a, 'p, H, B>::over(
            rt,
            alloc,
            next,
            lent,
            receiver,
            request,
            self.moment,
        );
        mirror.take_request();
        let fed = self.feed_class(rt, alloc, pass, &mut mirror);
        let Returned { lent, end: over } = mirror.into_parts();
        *end = by_receiver(over, fed);
        lent
    }
}

// A receiver that asks for a class.
fn new_asker(alloc: Global, class: &Class, max_hereis: u32) -> Result<Asker<'_>, OutOfMemory>
    ensures { IfOk result
        (λ made. (made.receiver ≡ before_stream (asking class.now max_hereis) false)
        × (made.request.items ≡ records_of (request_of (asking class.now max_hereis)))) }
{
    let mut receiver = Receiver::request(alloc, class, None, max_hereis)?;
    let mut request = Vec::new(alloc);
    receiver.begin(&mut request)?;
    Ok(Asker { receiver, request })
}

/// Feeds a node from the one before it, at that moment. Answers how that ends the chain, if it does.
pub(crate) fn feed_next<H: Wait>(
    rt: &H,
    alloc: Global,
    from: &mut ChainNode,
    to: &mut ChainNode,
    policy: &Policy,
    host: &[u8],
    now: Micros,
) -> Option<Break>
    requires from { IsNode from.old }
    requires to { IsNode to.old }
    requires name { length host.now ≤ LONGEST_NAME }
    ensures from { KeepsNode from.old from.new }
    ensures to { KeepsNode to.old to.new }
    ensures links { IfNone result
        (Links (asked_by host.now policy.now 1 to.old.class to.old.max_hereis) now from.old.pass from.new.pass
        to.old.pass to.new.pass) }
    ensures broken { IfSome result
        (λ why. Breaks why (asked_by host.now policy.now 1 to.old.class to.old.max_hereis) from.old.pass from.new.pass
        to.old.pass to.new.pass) }
{
    let asker = match new_asker(alloc, &to.class, to.max_hereis) {
        Ok(asker) => asker,
        Err(_) => return Some(Break::OutOfMemory),
    };
    let feeding = Feeding {
        shared: &from.shared,
        policy,
        host,
        class: &to.class,
        max_hereis: to.max_hereis,
        moment: now,
    };
    let mut end = None;
    feeding.reflect::<H, Brand>(
        rt,
        alloc,
        &mut from.pass,
        &to.shared,
        Lent { pass: &mut to.pass },
        asker,
        &mut end,
    );
    end
}
