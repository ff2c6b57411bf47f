//! What rules leave of a class.
ghost use Rattle.std.specs.Prelude.{◌≡◌, ◌↔◌, ℕ, List, true, IfOk};
ghost use Rattle.std.specs.List.{list_any, list_all};
ghost use Rattle.ldm_types.specs.Feed.{feeds_meet};
ghost use Rattle.ldm_types.specs.declared.class.Spec.{Spec};
ghost use Rattle.ldm_class.specs.Access.{feeds_for, first_rule, is_about, is_within};
ghost use Rattle.ldm_class.specs.Access.{left_of, narrowed, or_none, reduce, reduced};

use crate::answers::Reduced;
use crate::rule::Rule;
use crate::search::resumption;
use arrayvec::ArrayVec;
use ldm_types::{ClassSpec, Feed, MOST_SPECS, OutOfMemory, Spec};
use std::alloc::Global;

/// What is left of a class that a host asks for, by these rules.
pub fn reduction_of(
    alloc: Global,
    rules: &[Rule],
    host: &[u8],
    class: &ClassSpec,
) -> Result<Reduced, OutOfMemory>
    ensures { IfOk result (λ answer. answer ≡ reduce rules.now host.now class.now) }
{
    let share = share_of(alloc, rules, host)?;
    Ok(reduced(share, class))
}

/// What rules say of a host.
#[derive(Clone, Copy)]
struct Share {
    // The feedtypes of all rules that are about it.
    feeds: Feed,
    // The number of the first such rule, from 1, or 0 for none.
    rule: u64,
}

fn share_of(alloc: Global, rules: &[Rule], host: &[u8]) -> Result<Share, OutOfMemory>
    ensures feeds { IfOk result (λ share. share.feeds.0 ≡ feeds_for host.now rules.now) }
    ensures rule { IfOk result (λ share. share.rule ≡ or_none (first_rule (is_about host.now) rules.now)) }
{
    let mut feeds = 0;
    let mut first = None;
    for (place, rule) in rules.iter().enumerate() {
        if rule.is_about(alloc, host)? {
            feeds |= rule.feed.0;
            first = first.or(Some(place as u64 + 1));
        }
    }
    Ok(Share {
        feeds: Feed(feeds),
        rule: first.unwrap_or(0),
    })
}

#[tactic(auto, using(crate::proofs::Left::only_names_left))]
fn reduced(share: Share, class: &ClassSpec) -> Reduced
    ensures { result ≡ reduced share.feeds.0 share.rule class.now }
{
    if !any_meets(class.specs.as_slice(), share.feeds) {
        return Reduced::Nothing { rule: share.rule };
    }
    if are_within(class.specs.as_slice(), share.feeds) {
        return Reduced::Same;
    }
    Reduced::Fewer(ClassSpec {
        from: class.from,
        to: class.to,
        specs: narrowed_specs(&class.specs, share.feeds),
    })
}

fn any_meets(specs: &[Spec], feeds: Feed) -> bool
    ensures { result ≡ list_any (λ spec. feeds_meet spec.feed.0 feeds.0) specs.now }
{
    specs.iter().any(|spec| spec.feed.meets(feeds))
}

// Whether each specification is left as it is.
fn are_within(specs: &[Spec], feeds: Feed) -> bool
    ensures { result ≡ list_all (is_within feeds.0) specs.now }
{
    specs.iter().all(|spec| is_within(spec, feeds))
}

// Whether a specification is left as it is.
fn is_within(spec: &Spec, feeds: Feed) -> bool
    ensures { result ≡ is_within feeds.0 spec.now }
{
    resumption(spec).is_some() || (spec.feed.meets(feeds) && spec.feed.0 & feeds.0 == spec.feed.0)
}

fn narrowed_specs(specs: &ArrayVec<Spec, MOST_SPECS>, feeds: Feed) -> ArrayVec<Spec, MOST_SPECS>
    ensures { result.items ≡ left_of feeds.0 specs.now.items }
{
    let mut left = ArrayVec::new();
    for spec in specs.as_slice() {
        if let Some(part) = narrowed(spec, feeds) {
            left.push(part);
        }
    }
    left
}

// What is left of a specification.
fn narrowed(spec: &Spec, feeds: Feed) -> Option<Spec>
    ensures { result ≡ narrowed feeds.0 spec.now }
{
    let mut part = spec.copy();
    if resumption(spec).is_none() {
        if !spec.feed.meets(feeds) {
            return None;
        }
        part.feed = Feed(spec.feed.0 & feeds.0);
    }
    Some(part)
}

/// What [`Policy::reduce`](crate::Policy::reduce) calls the same is what it leaves whole.
pub fn same_is_left_whole()
    ensures { (feeds : ℕ) (specs : List Spec)
        → (list_all (is_within feeds) specs ≡ true) ↔ (left_of feeds specs ≡ specs) }
{}
