//! What takes the records of a stream into a queue, one after another.
ghost use Rattle.std.specs.Prelude.{◌≡◌, ◌++◌, IfOk, OnOk, OnErr};
ghost use Rattle.std.specs.Option.{option_map};
ghost use Rattle.ldm_intake.specs.Opening.{requesting, accepting, request_of};
ghost use Rattle.ldm_relay.specs.Spelling.{records_of};
ghost use Rattle.ldm_intake.specs.Settled.{is_feeding, is_settled};
ghost use Rattle.ldm_intake.specs.Turning.{HasClosed, HasKept};
ghost use Rattle.ldm_shared.specs.Passes.{IsPassOf, IsSamePass};
ghost use Rattle.ldm_shared.specs.Turns.{IfDone, IfWorn};

use crate::answered::number_of_request;
use crate::phase::{Pending, Phase};
use crate::replies::put_feedme;
use crate::wanting::Wanted;
use ldm_class::{Class, Policy, asked_class};
use ldm_shared::{Pass, Shared, Turn, calls_made};
use ldm_types::{Micros, OutOfMemory, Signature};
use std::alloc::Global;
use std::marker::Model;
use std::sync::Wait;

/// Takes the records of a stream into a queue, one after another: what is asked of the queue, what the peer is owed and
/// what is logged is that of `record_course`. The reply to a request, which may have a class, is taken by
/// `take_answer`, and each message of the feed by `take_message`.
#[derive(Drop)]
pub struct Intake<'a> {
    pub(crate) alloc: Global,
    pub(crate) wanted: Wanted<'a>,
    pub(crate) max_hereis: u32,
    pub(crate) phase: Phase,
    pub(crate) pending: Option<Pending>,
    pub(crate) last: Option<Signature>,
}

impl<'a> Model for Intake<'a> {
    ghost use Rattle.ldm_intake.specs.Receiving.{Receiving};

    ghost Value = { Receiving };

    ghost use Rattle.ldm_intake.specs.IntakeView.{receiving_of};

    ghost view = { receiving_of };
}

impl<'a> Intake<'a> {
    /// Asks for the products of a class, behind the last one that was received, if there is one. Products of more than
    /// `max_hereis` bytes are to come in blocks.
    pub fn request(
        alloc: Global,
        class: &'a Class,
        last: Option<Signature>,
        max_hereis: u32,
    ) -> Result<Intake<'a>, OutOfMemory>
        ensures { IfOk result
            (λ intake. intake ≡ requesting class.now (option_map (λ signature. signature.0) last) max_hereis) }
    {
        let lent = class.matcher(alloc)?;
        let asked = asked_class(class.spec(), last);
        Ok(Intake {
            alloc,
            wanted: Wanted::asked(lent),
            max_hereis,
            phase: Phase::Asked {
                class: asked,
                again: false,
            },
            pending: None,
            last,
        })
    }

    /// Lets a host push the products of a class, those that the ACCEPT rules let it push.
    pub fn accept(
        alloc: Global,
        class: &'a Class,
        policy: &'a Policy,
        host: &[u8],
    ) -> Result<Intake<'a>, OutOfMemory>
        ensures { IfOk result (λ intake. intake ≡ accepting class.now policy.now host.now) }
    {
        let lent = class.matcher(alloc)?;
        let rules = policy.for_host(alloc, host, true)?;
        Ok(Intake {
            alloc,
            wanted: Wanted::pushed(lent, rules),
            max_hereis: 0,
            phase: Phase::Feeding,
            pending: None,
            last: None,
        })
    }

    /// The signature of the last product that was offered to the queue or declined.
    pub fn last(&self) -> Option<Signature>
        ensures { option_map (λ signature. signature.0) result ≡ self.now.last }
    {
        self.last
    }

    /// Whether the feed has begun: no reply to a request is owed. Then `take_message` takes the next record, and else
    /// `take_answer`.
    pub fn is_feeding(&self) -> bool
        ensures { result ≡ is_feeding self.now.phase }
    {
        matches!(self.phase, Phase::Feeding)
    }

    /// Whether no product is pending and no reply to a request is owed.
    pub fn is_settled(&self) -> bool
        ensures { result ≡ is_settled self.now }
    {
        self.pending.is_none() && self.is_feeding()
    }

    /// Appends the record of the FEEDME whose reply is owed, where one is.
    pub fn put_request(&self, out: &mut Vec<u8>) -> Result<(), OutOfMemory>
        ensures ok { OnOk result (out.new.items ≡ out.old.items ++ records_of (request_of self.now)) }
        ensures err { OnErr result (out.new.items ≡ out.old.items) }
    {
        match &self.phase {
            Phase::Asked { class, again } => {
                put_feedme(out, number_of_request(*again), class, self.max_hereis)
            }
            Phase::Feeding => Ok(()),
        }
    }

    /// Gives up the reservation that is open, if one is, as the end of a receiving does.
    pub fn discard<H: Wait>(&mut self, shared: &Shared, rt: &H, pass: &mut Pass) -> Turn<()>
        requires { IsPassOf shared.now pass.old }
        ensures kept { IsSamePass pass.old pass.new }
        ensures done { IfDone result (λ _. HasClosed self.old self.new pass.old pass.new) }
        ensures closed { IfDone result (λ _. self.new ≡ record self.old { pending = None }) }
        ensures worn { IfWorn result (λ _. HasKept self.old self.new pass.old pass.new) }
    {
        calls_made();
        let Some(pending) = self.awaited() else {
            return Turn::Done(());
        };
        match shared.discard(rt, pass, pending.r) {
            Turn::Done(_) => {
                self.wait_for(None);
                Turn::Done(())
            }
            Turn::Worn { turns } => Turn::Worn { turns },
        }
    }
}
