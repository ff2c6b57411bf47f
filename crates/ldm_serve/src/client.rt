//! Whom a connection serves.
ghost use Rattle.std.specs.Prelude.{◌≡◌, ℕ, IfOk};
ghost use Rattle.ldm_class.specs.Access.{reduce};
ghost use Rattle.ldm_class.specs.Rules.{rules_for};
ghost use Rattle.ldm_serve.specs.Access.{may_push};
ghost use Rattle.ldm_serve.specs.ClientView.{client_by};
ghost use Rattle.ldm_serve.specs.Respond.{front_answer};

use crate::front::extent;
use ldm_class::{HostPolicy, Policy, Reduced};
use ldm_relay::PutAnswer;
use ldm_types::{ClassSpec, Info, OutOfMemory};
use std::alloc::Global;
use std::marker::Model;

/// Whom a connection serves: a host, by the rules of a configuration, with a queue whose arena has that many bytes.
/// Contracts see the rules, the host and the arena.
#[derive(Drop)]
pub(crate) struct Client<'a> {
    alloc: Global,
    policy: &'a Policy,
    host: &'a [u8],
    arena: u64,
    // What is asked which products the host may push: made for the first one that it offers, and kept for the others.
    pushing: Option<HostPolicy<'a>>,
}

impl<'a> Model for Client<'a> {
    ghost use Rattle.ldm_serve.specs.ClientView.{ClientView};

    ghost Value = { ClientView };

    ghost use Rattle.ldm_serve.specs.ClientView.{client_of, KeepsRules};

    ghost view = { client_of };

    ghost invariant = { KeepsRules };
}

impl<'a> Client<'a> {
    /// A host that offered no product yet. It takes no memory.
    pub(crate) fn of(alloc: Global, policy: &'a Policy, host: &'a [u8], arena: u64) -> Client<'a>
        ensures { result ≡ record { rules = policy.now; host = host.now; arena = arena } }
    {
        Client {
            alloc,
            policy,
            host,
            arena,
            pushing: None,
        }
    }

    pub(crate) fn alloc(&self) -> Global {
        self.alloc
    }

    pub(crate) fn policy(&self) -> &Policy
        ensures { result.now ≡ self.now.rules }
    {
        self.policy
    }

    pub(crate) fn host(&self) -> &[u8]
        ensures { result.now ≡ self.now.host }
    {
        self.host
    }

    /// What the rules leave of a class that the host wants to push, by the ACCEPT rules, or else to be fed, by the
    /// ALLOW rules.
    pub(crate) fn left_of(&self, class: &ClassSpec, push: bool) -> Result<Reduced, OutOfMemory>
        ensures { IfOk result (λ left. left ≡ reduce (rules_for push self.now.rules) self.now.host class.now) }
    {
        self.policy.reduce(self.alloc, self.host, class, push)
    }

    /// Whether the host may push a product.
    pub(crate) fn may_push(&mut self, info: &Info) -> Result<bool, OutOfMemory>
        ensures may { IfOk result (λ may. may ≡ may_push self.old.rules self.old.host info.now) }
        ensures same { self.new ≡ self.old }
    {
        let mut pushing = match self.pushing.take() {
            Some(pushing) => pushing,
            None => self.policy.for_host(self.alloc, self.host, true)?,
        };
        let verdict = pushing.verdict(info);
        self.pushing = Some(pushing);
        Ok(verdict.is_yes())
    }

    /// What the metadata of a PUT decide by themselves: that the rules do not let the host push the product, or that
    /// the arena is smaller than it. None where the product is to be offered to the queue.
    pub(crate) fn front_answer(&mut self, info: &Info) -> Result<Option<PutAnswer>, OutOfMemory>
        ensures answer { IfOk result
            (λ answer. (actor : ℕ) → answer ≡ front_answer (client_by self.old actor) info.now) }
        ensures same { self.new ≡ self.old }
    {
        if !self.may_push(info)? {
            return Ok(Some(PutAnswer::Denied));
        }
        let need = extent(info);
        let arena = self.arena;
        if need > arena {
            return Ok(Some(PutAnswer::TooBig { need, arena }));
        }
        Ok(None)
    }
}
