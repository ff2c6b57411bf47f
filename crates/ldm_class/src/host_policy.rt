//! Rules of access for one host.
ghost use Rattle.std.specs.Prelude.{◌≡◌, IfOk};
ghost use Rattle.ldm_class.specs.Access.{found_or, verdict};
ghost use Rattle.ldm_class.specs.KeptRules.{kept_passes, kept_rule, kept_verdict, rules_about};

use crate::answers::Verdict;
use crate::rule::Rule;
use ldm_pattern::{Matcher, Pattern};
use ldm_types::{Feed, Info, OutOfMemory};
use std::alloc::Global;
use std::marker::Model;

/// What a policy says of one host, asked for many products. The rules that are about the host are found once, what
/// their searches need is kept for the next product, and no call fails. Contracts see the rules and the host.
#[derive(Drop)]
pub struct HostPolicy<'p> {
    rules: &'p [Rule],
    host: Vec<u8>,
    // The rules that are about the host, in order.
    kept: Vec<KeptRule<'p>>,
}

impl<'p> Model for HostPolicy<'p> {
    ghost use Rattle.ldm_class.specs.HostRules.{HostRules};

    ghost Value = { HostRules };

    ghost use Rattle.ldm_class.specs.HostPolicyView.{KeepsRules, host_rules_of};

    ghost view = { host_rules_of };

    ghost invariant = { KeepsRules };
}

impl<'p> HostPolicy<'p> {
    // That of these rules.
    pub(crate) fn of(
        alloc: Global,
        rules: &'p [Rule],
        host: &[u8],
    ) -> Result<HostPolicy<'p>, OutOfMemory>
        ensures { IfOk result (λ policy. policy ≡ record { rules = rules.now; host = host.now }) }
    {
        let name = host.to_vec(alloc)?;
        Ok(HostPolicy {
            rules,
            host: name,
            kept: kept_rules(alloc, rules, host)?,
        })
    }

    /// The host.
    pub fn host(&self) -> &[u8]
        ensures { result.now ≡ self.now.host }
    {
        self.host.as_slice()
    }

    /// Whether the host may push a product, or be fed it: the answer of [`Policy::verdict`](crate::Policy::verdict).
    pub fn verdict(&mut self, info: &Info) -> Verdict
        ensures answer { result ≡ verdict self.old.rules self.old.host info.now }
        ensures same { self.new ≡ self.old }
    {
        kept_verdict(self.kept.as_mut_slice(), info)
    }
}

// A rule that is about the host. Its host pattern is not asked again.
#[derive(Drop)]
struct KeptRule<'p> {
    // From 1, among all rules of its kind.
    number: u64,
    feed: Feed,
    ok: Option<Matcher<'p>>,
    not: Option<Matcher<'p>>,
}

impl KeptRule<'_> {
    // Whether a product passes that the rule meets.
    fn passes(&mut self, info: &Info) -> bool
        ensures passes { result ≡ kept_passes info.now self.old }
        ensures same { self.new ≡ self.old }
    {
        found_or(true, &mut self.ok, info.ident()) && !found_or(false, &mut self.not, info.ident())
    }
}

// Whether a pattern is found in a text, or what holds where there is no pattern.
fn found_or(otherwise: bool, matcher: &mut Option<Matcher<'_>>, text: &[u8]) -> bool
    ensures found { result ≡ found_or otherwise matcher.old text.now }
    ensures same { matcher.new ≡ matcher.old }
{
    match matcher {
        Some(matcher) => matcher.finds(text),
        None => otherwise,
    }
}

// The rules that are about a host, in order.
fn kept_rules<'p>(
    alloc: Global,
    rules: &'p [Rule],
    host: &[u8],
) -> Result<Vec<KeptRule<'p>>, OutOfMemory>
    ensures { IfOk result (λ kept. kept.items ≡ rules_about host.now 1 rules.now) }
{
    let mut kept = Vec::new(alloc);
    for (place, rule) in rules.iter().enumerate() {
        if rule.is_about(alloc, host)? {
            kept.push(kept_rule(alloc, place as u64 + 1, rule)?)?;
        }
    }
    Ok(kept)
}

fn kept_rule<'p>(alloc: Global, number: u64, rule: &'p Rule) -> Result<KeptRule<'p>, OutOfMemory>
    ensures { IfOk result (λ kept. kept ≡ kept_rule number rule.now) }
{
    Ok(KeptRule {
        number,
        feed: rule.feed,
        ok: matcher_of(alloc, &rule.ok)?,
        not: matcher_of(alloc, &rule.not)?,
    })
}

fn matcher_of<'p>(
    alloc: Global,
    pattern: &'p Option<Pattern>,
) -> Result<Option<Matcher<'p>>, OutOfMemory>
    ensures { IfOk result (λ matcher. matcher ≡ pattern.now) }
{
    match pattern {
        Some(pattern) => Ok(Some(pattern.matcher(alloc)?)),
        None => Ok(None),
    }
}

// The verdict of the rules that are about the host.
fn kept_verdict(kept: &mut [KeptRule<'_>], info: &Info) -> Verdict
    ensures answer { result ≡ kept_verdict kept.old info.now }
    ensures same { kept.new ≡ kept.old }
{
    let mut first_met = None;
    for rule in kept.iter_mut() {
        if rule.feed.meets(info.feed()) {
            if rule.passes(info) {
                return Verdict::Yes { rule: rule.number };
            }
            first_met = first_met.or(Some(rule.number));
        }
    }
    Verdict::No {
        rule: first_met.unwrap_or(0),
    }
}
