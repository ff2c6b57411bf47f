//! How a receiver stands, and what a record changes of that.
ghost use Rattle.std.specs.Prelude.{◌≡◌, true, is_none, IfOk, MatchOption};
ghost use Rattle.ldm_intake.specs.declared.phase.Phase.TheVariants as phase;
ghost use Rattle.ldm_intake.specs.Receiving.{is_wanted, with_last};

use crate::intake::Intake;
use crate::phase::{Pending, Phase};
use ldm_class::Class;
use ldm_types::{ClassSpec, Info, OutOfMemory};

impl Intake<'_> {
    // The class that was asked for, and whether it was asked for by the second FEEDME, where the reply is owed.
    pub(crate) fn request_owed(&self) -> Option<(ClassSpec, bool)>
        ensures { MatchOption result (self.now.phase ≡ phase.Feeding)
            (λ asked. self.now.phase ≡ phase.Asked asked.0 asked.1) }
    {
        match &self.phase {
            Phase::Asked { class, again } => Some((class.copy(), *again)),
            Phase::Feeding => None,
        }
    }

    // The feed begins.
    pub(crate) fn feed(&mut self)
        ensures { self.new ≡ record self.old { phase = phase.Feeding } }
    {
        self.phase = Phase::Feeding;
    }

    // A narrower class was asked for, and is in force.
    pub(crate) fn narrow(&mut self, class: Class)
        ensures { self.new ≡ record
            self.old { wanting = record self.old.wanting { class = class }; phase = phase.Asked class true } }
    {
        let asked = class.spec().copy();
        self.wanted.offer(class);
        self.phase = Phase::Asked {
            class: asked,
            again: true,
        };
    }

    // Whether no blocks are to come.
    pub(crate) fn is_idle(&self) -> bool
        ensures { result ≡ is_none self.now.pending }
    {
        self.pending.is_none()
    }

    // The product whose blocks are to come.
    pub(crate) fn awaited(&self) -> Option<Pending>
        ensures { result ≡ self.now.pending }
    {
        match &self.pending {
            Some(pending) => Some(pending.copy()),
            None => None,
        }
    }

    // Blocks of this product are to come, or of none.
    pub(crate) fn wait_for(&mut self, pending: Option<Pending>)
        ensures { self.new ≡ record self.old { pending = pending } }
    {
        self.pending = pending;
    }

    // The product was offered to the queue or declined.
    pub(crate) fn pass_by(&mut self, info: &Info)
        ensures { self.new ≡ with_last self.old info.now }
    {
        self.pending = None;
        self.last = Some(info.signature());
    }

    // Whether a product is wanted.
    pub(crate) fn wants(&mut self, info: &Info) -> Result<bool, OutOfMemory>
        ensures wanted { IfOk result (λ wanted. wanted ≡ is_wanted self.old.wanting info.now) }
        ensures same { self.new ≡ self.old }
    {
        self.wanted.wants(self.alloc, info)
    }
}
