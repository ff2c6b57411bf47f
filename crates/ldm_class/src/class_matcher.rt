//! Classes that are asked for many products.
ghost use Rattle.std.specs.Prelude.{◌≡◌, IfOk};
ghost use Rattle.std.specs.List.{filter_map, list_any};
ghost use Rattle.ldm_class.specs.Classes.{wants};
ghost use Rattle.ldm_class.specs.Searches.{search_of, search_wants};

use crate::search::Search;
use ldm_pattern::BoundedMatcher;
use ldm_types::{ClassSpec, Feed, Info, OutOfMemory};
use std::alloc::Global;
use std::marker::Model;

/// What the tables take in all by which the patterns of a class are searched for, in bytes, about and at the most. Each
/// pattern has an equal share.
pub const MATCHERS_MOST: usize = 4 << 20;

/// What a class wants, asked for many products: what its searches need is kept for the next product, and no call fails.
/// Contracts see the class.
#[derive(Drop)]
pub struct ClassMatcher<'c> {
    spec: &'c ClassSpec,
    // The specifications that are patterns, in order.
    searches: Vec<KeptSearch<'c>>,
}

impl<'c> Model for ClassMatcher<'c> {
    ghost use Rattle.ldm_types.specs.declared.class.ClassSpec.{ClassSpec};

    ghost Value = { ClassSpec };

    ghost use Rattle.ldm_class.specs.ClassMatcherView.{KeepsSearches};

    ghost view = { λ class. class.spec.now };

    ghost invariant = { KeepsSearches };
}

impl<'c> ClassMatcher<'c> {
    // That of a class with these searches.
    pub(crate) fn of(
        alloc: Global,
        spec: &'c ClassSpec,
        searches: &'c [Search],
    ) -> Result<ClassMatcher<'c>, OutOfMemory>
        requires { searches.now ≡ filter_map search_of spec.now.specs.items }
        ensures { IfOk result (λ class. class ≡ spec.now) }
    {
        Ok(ClassMatcher {
            spec,
            searches: kept_searches(alloc, searches)?,
        })
    }

    /// Whether the class wants a product: the answer of [`Class::wants`](crate::Class::wants).
    pub fn wants(&mut self, info: &Info) -> bool
        ensures wanted { result ≡ wants self.old info.now }
        ensures same { self.new ≡ self.old }
    {
        any_wants(self.searches.as_mut_slice(), info)
    }
}

// A search, with what it needs.
#[derive(Drop)]
struct KeptSearch<'c> {
    feed: Feed,
    matcher: BoundedMatcher<'c>,
}

impl<'c> Model for KeptSearch<'c> {
    ghost use Rattle.ldm_class.specs.declared.search.Search.{Search};

    ghost Value = { Search };

    ghost view = { λ search. record { feed = search.feed; pattern = search.matcher } };
}

impl KeptSearch<'_> {
    fn wants(&mut self, info: &Info) -> bool
        ensures wanted { result ≡ search_wants info.now self.old }
        ensures same { self.new ≡ self.old }
    {
        self.feed.meets(info.feed()) && self.matcher.finds(info.ident())
    }
}

fn kept_searches<'c>(
    alloc: Global,
    searches: &'c [Search],
) -> Result<Vec<KeptSearch<'c>>, OutOfMemory>
    ensures { IfOk result (λ kept. kept.items ≡ searches.now) }
{
    let mut kept = Vec::with_capacity(alloc, searches.len())?;
    let most = MATCHERS_MOST / searches.len().max(1);
    for search in searches {
        kept.push(KeptSearch {
            feed: search.feed,
            matcher: search.pattern.matcher(alloc, most)?,
        })?;
    }
    Ok(kept)
}

fn any_wants(searches: &mut [KeptSearch<'_>], info: &Info) -> bool
    ensures wanted { result ≡ list_any (search_wants info.now) searches.old }
    ensures same { searches.new ≡ searches.old }
{
    for search in searches.iter_mut() {
        if search.wants(info) {
            return true;
        }
    }
    false
}
