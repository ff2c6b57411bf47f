//! Rules of access.
ghost use Rattle.std.specs.Prelude.{◌≡◌, [], ◌∷◌, ◌++◌, Ok, None, IfOk, MatchResult};
ghost use Rattle.std.specs.Option.{option_copied, option_to_list};
ghost use Rattle.ldm_class.specs.Access.{verdict, reduce};
ghost use Rattle.ldm_class.specs.Rules.{no_rules, open_rule, allow_rule, accept_rule};
ghost use Rattle.ldm_class.specs.Rules.{with_allow, with_accept, rules_for};
ghost use Rattle.ldm_class.specs.PolicyFaults.{IsFaultFrom, allow_patterns, bad_from};

use crate::answers::{Reduced, Verdict};
use crate::host_policy::HostPolicy;
use crate::reduce::reduction_of;
use crate::rule::Rule;
use crate::verdict::verdict_of;
use ldm_pattern::{Pattern, Refusal};
use ldm_types::{ClassSpec, Feed, Info, OutOfMemory};
use std::alloc::{AllocError, AllocFailed, Global};
use std::marker::Model;
use thiserror::Error;

/// Why a rule is not added.
#[derive(Clone, Copy, Debug, PartialEq, Eq, Error)]
pub enum PolicyFault {
    /// A pattern is not UTF-8, the grammar of `regex` reads no pattern in it, or it nests too deep.
    #[error("pattern {place} of the rule is no pattern")]
    BadPattern {
        /// The place of the first such pattern among those that the call gives, from 0.
        place: u32,
    },
    /// There is too little memory, or a pattern would take more than `regex` allows one.
    #[error("no memory")]
    OutOfMemory,
}

impl From<AllocError> for PolicyFault {
    ghost use Rattle.std.specs.Prelude.{◌≡◌};
    ghost use Rattle.ldm_class.specs.declared.policy.PolicyFault.TheVariants.{OutOfMemory};

    ghost from_gives = { λ _ fault. fault ≡ OutOfMemory };

    fn from(_error: AllocError) -> PolicyFault {
        PolicyFault::OutOfMemory
    }
}

impl<T: Drop> From<AllocFailed<T>> for PolicyFault {
    ghost use Rattle.std.specs.Prelude.{◌≡◌};
    ghost use Rattle.ldm_class.specs.declared.policy.PolicyFault.TheVariants.{OutOfMemory};

    ghost from_gives = { λ _ fault. fault ≡ OutOfMemory };

    fn from(_error: AllocFailed<T>) -> PolicyFault {
        PolicyFault::OutOfMemory
    }
}

/// Which host may be fed what, and which may push what. Contracts see its two lists of rules.
#[derive(Drop)]
pub struct Policy {
    allow: Vec<Rule>,
    accept: Vec<Rule>,
}

impl Model for Policy {
    ghost use Rattle.ldm_class.specs.Rules.{Rules};

    ghost Value = { Rules };

    ghost use Rattle.ldm_class.specs.PolicyView.{rules_of};

    ghost view = { rules_of };
}

impl Policy {
    /// A policy without rules: no host may be fed or push anything.
    pub fn create(alloc: Global) -> Result<Policy, OutOfMemory>
        ensures { result ≡ Ok no_rules }
    {
        Ok(Policy {
            allow: Vec::new(alloc),
            accept: Vec::new(alloc),
        })
    }

    /// A policy with one ALLOW rule, of feed ANY, that meets every host. No pattern is built for it.
    pub fn all(alloc: Global) -> Result<Policy, OutOfMemory>
        ensures { IfOk result (λ policy. policy ≡ with_allow no_rules open_rule) }
    {
        let mut policy = Policy::create(alloc)?;
        policy.allow.push(Rule {
            feed: Feed(u32::MAX),
            host: None,
            ok: None,
            not: None,
        })?;
        Ok(policy)
    }

    /// Adds the next ALLOW rule: a host in whose name `host` is found may be fed the products whose feedtypes meet
    /// `feed`, in whose ident `ok` is found, if it is given, and `not` is not found, if it is given.
    ///
    /// After a fault the policy is as before.
    pub fn add_allow(
        &mut self,
        alloc: Global,
        feed: Feed,
        host: &[u8],
        ok: Option<&[u8]>,
        not: Option<&[u8]>,
    ) -> Result<(), PolicyFault>
        ensures { let patterns = allow_patterns host.now (option_copied ok.entry)
            (option_copied not.entry) in MatchResult result
            (λ _. (self.new ≡ with_allow self.old
            (allow_rule feed.0 host.now (option_copied ok.entry) (option_copied not.entry)))
            × (bad_from 0 patterns ≡ None))
            (λ fault. (self.new ≡ self.old) × IsFaultFrom 0 patterns fault) }
    {
        self.allow.reserve(1)?;
        let rule = build_allow(alloc, feed, host, ok, not)?;
        self.allow.push(rule)?;
        Ok(())
    }

    /// Adds the next ACCEPT rule: a host in whose name `host` is found may push the products whose feedtypes meet
    /// `feed` and in whose ident `pattern` is found.
    ///
    /// After a fault the policy is as before.
    pub fn add_accept(
        &mut self,
        alloc: Global,
        feed: Feed,
        pattern: &[u8],
        host: &[u8],
    ) -> Result<(), PolicyFault>
        ensures { let patterns = pattern.now ∷ host.now ∷ [] in MatchResult result
            (λ _. (self.new ≡ with_accept self.old (accept_rule feed.0 pattern.now host.now))
            × (bad_from 0 patterns ≡ None))
            (λ fault. (self.new ≡ self.old) × IsFaultFrom 0 patterns fault) }
    {
        self.accept.reserve(1)?;
        let ok = build(alloc, pattern, 0)?;
        let host = build(alloc, host, 1)?;
        self.accept.push(Rule {
            feed,
            host: Some(host),
            ok: Some(ok),
            not: None,
        })?;
        Ok(())
    }

    /// What is asked which of many products a host may push, by the ACCEPT rules, or else be fed, by the ALLOW rules.
    pub fn for_host(
        &self,
        alloc: Global,
        host: &[u8],
        push: bool,
    ) -> Result<HostPolicy<'_>, OutOfMemory>
        ensures { IfOk result (λ policy. policy ≡ record { rules = rules_for push self.now; host = host.now }) }
    {
        HostPolicy::of(alloc, self.rules(push), host)
    }

    /// Whether a host may push a product, by the ACCEPT rules, or else be fed it, by the ALLOW rules.
    /// [`Policy::for_host`] is for many products.
    pub fn verdict(
        &self,
        alloc: Global,
        host: &[u8],
        info: &Info,
        push: bool,
    ) -> Result<Verdict, OutOfMemory>
        ensures { IfOk result (λ answer. answer ≡ verdict (rules_for push self.now) host.now info.now) }
    {
        verdict_of(alloc, self.rules(push), host, info)
    }

    /// What is left of a class that a host wants to push, by the ACCEPT rules, or else to be fed, by the ALLOW rules.
    ///
    /// The feedtypes of each specification are met with those of all rules that are about the host, and one that has
    /// none left is dropped. A specification of feed NONE with the pattern `SIG=` and 32 hexadecimal digits is kept,
    /// and does not count when nothing else is left.
    pub fn reduce(
        &self,
        alloc: Global,
        host: &[u8],
        class: &ClassSpec,
        push: bool,
    ) -> Result<Reduced, OutOfMemory>
        ensures { IfOk result (λ answer. answer ≡ reduce (rules_for push self.now) host.now class.now) }
    {
        reduction_of(alloc, self.rules(push), host, class)
    }

    fn rules(&self, push: bool) -> &[Rule]
        ensures { result.now ≡ rules_for push self.now }
    {
        if push {
            self.accept.as_slice()
        } else {
            self.allow.as_slice()
        }
    }
}

// The pattern at a place among those of a call.
fn build(alloc: Global, pattern: &[u8], place: u32) -> Result<Pattern, PolicyFault>
    ensures { MatchResult result
        (λ built. (built ≡ pattern.now) × (bad_from place (pattern.now ∷ []) ≡ None))
        (IsFaultFrom place (pattern.now ∷ [])) }
{
    match Pattern::build(alloc, pattern) {
        Ok(built) => Ok(built),
        Err(Refusal::Meaningless) => Err(PolicyFault::BadPattern { place }),
        Err(Refusal::OutOfMemory) => Err(PolicyFault::OutOfMemory),
    }
}

// The rule of an ALLOW line.
fn build_allow(
    alloc: Global,
    feed: Feed,
    host: &[u8],
    ok: Option<&[u8]>,
    not: Option<&[u8]>,
) -> Result<Rule, PolicyFault>
    ensures { let patterns = allow_patterns host.now (option_copied ok.entry)
        (option_copied not.entry) in MatchResult result
        (λ rule. (rule ≡ allow_rule feed.0 host.now (option_copied ok.entry) (option_copied not.entry))
        × (bad_from 0 patterns ≡ None))
        (IsFaultFrom 0 patterns) }
{
    let host = build(alloc, host, 0)?;
    let (ok, not) = build_both(alloc, ok, not)?;
    Ok(Rule {
        feed,
        host: Some(host),
        ok,
        not,
    })
}

// The patterns behind the first of a rule.
fn build_both(
    alloc: Global,
    ok: Option<&[u8]>,
    not: Option<&[u8]>,
) -> Result<(Option<Pattern>, Option<Pattern>), PolicyFault>
    ensures { let patterns = option_to_list (option_copied ok.entry) ++ option_to_list
        (option_copied not.entry) in MatchResult result
        (λ built. (built.0 ≡ option_copied ok.entry) × (built.1 ≡ option_copied not.entry)
        × (bad_from 1 patterns ≡ None))
        (IsFaultFrom 1 patterns) }
{
    let Some(ok) = ok else {
        return Ok((None, build_given(alloc, not, 1)?));
    };
    let ok = build(alloc, ok, 1)?;
    Ok((Some(ok), build_given(alloc, not, 2)?))
}

fn build_given(
    alloc: Global,
    pattern: Option<&[u8]>,
    place: u32,
) -> Result<Option<Pattern>, PolicyFault>
    ensures { let patterns = option_to_list (option_copied pattern.entry) in MatchResult result
        (λ built. (built ≡ option_copied pattern.entry) × (bad_from place patterns ≡ None))
        (IsFaultFrom place patterns) }
{
    match pattern {
        Some(pattern) => Ok(Some(build(alloc, pattern, place)?)),
        None => Ok(None),
    }
}
