//! Which products are wanted.
ghost use Rattle.std.specs.Prelude.{◌≡◌, IfOk, Some, None};
ghost use Rattle.ldm_intake.specs.Receiving.{is_wanted, may_push};

use ldm_class::{Class, ClassMatcher, HostPolicy};
use ldm_types::{Info, OutOfMemory};
use std::alloc::Global;
use std::marker::Model;

/// Which products are wanted: the class in force wants them, and the peer may push them.
///
/// What the searches of the class that was lent need is kept. A class that the peer offered in its place is owned: each
/// of its searches takes memory and gives it back.
#[derive(Drop)]
pub struct Wanted<'a> {
    lent: ClassMatcher<'a>,
    offered: Option<Class>,
    policy: Option<HostPolicy<'a>>,
}

impl<'a> Model for Wanted<'a> {
    ghost use Rattle.ldm_intake.specs.Receiving.{Wanting};

    ghost Value = { Wanting };

    ghost use Rattle.ldm_intake.specs.WantingView.{wanting_of};

    ghost view = { wanting_of };
}

impl<'a> Wanted<'a> {
    /// Those of a class that are asked for.
    pub fn asked(lent: ClassMatcher<'a>) -> Wanted<'a>
        ensures { result ≡ record { class = lent.entry; policy = None } }
    {
        Wanted {
            lent,
            offered: None,
            policy: None,
        }
    }

    /// Those of a class that a host may push.
    pub fn pushed(lent: ClassMatcher<'a>, policy: HostPolicy<'a>) -> Wanted<'a>
        ensures { result ≡ record { class = lent.entry; policy = Some policy.entry } }
    {
        Wanted {
            lent,
            offered: None,
            policy: Some(policy),
        }
    }

    /// Another class is in force.
    pub fn offer(&mut self, class: Class)
        ensures { self.new ≡ record self.old { class = class } }
    {
        self.offered = Some(class);
    }

    /// Whether a product is wanted.
    pub fn wants(&mut self, alloc: Global, info: &Info) -> Result<bool, OutOfMemory>
        ensures wanted { IfOk result (λ wanted. wanted ≡ is_wanted self.old info.now) }
        ensures same { self.new ≡ self.old }
    {
        let by_class = match &self.offered {
            Some(class) => class.wants(alloc, info)?,
            None => self.lent.wants(info),
        };
        Ok(by_class && allows(&mut self.policy, info))
    }
}

// Whether the peer may push a product.
fn allows(policy: &mut Option<HostPolicy<'_>>, info: &Info) -> bool
    ensures allowed { result ≡ may_push policy.old info.now }
    ensures same { policy.new ≡ policy.old }
{
    match policy {
        Some(policy) => policy.verdict(info).is_yes(),
        None => true,
    }
}
