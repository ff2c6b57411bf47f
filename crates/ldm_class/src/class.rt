//! Classes that are built.
ghost use Rattle.std.specs.Prelude.{◌≡◌, ◌≤◌, length, IfOk, IsSome, None, MatchResult};
ghost use Rattle.std.specs.List.{filter_map};
ghost use Rattle.std.specs.Option.{option_map};
ghost use Rattle.ldm_class.specs.Classes.{bad_place, resumed, wants};
ghost use Rattle.ldm_class.specs.ClassFaults.{IsClassFaultOf, IsBuildFaultOf};
ghost use Rattle.ldm_pattern.specs.Patterns.{pattern_meaning};
ghost use Rattle.ldm_class.specs.Searches.{search_of};

use crate::class_matcher::ClassMatcher;
use crate::search::{Search, resumption};
use ldm_pattern::{BoundedPattern, Pattern, Refusal};
use ldm_types::{ClassSpec, Info, MOST_SPECS, OutOfMemory, Signature, Spec};
use std::alloc::{AllocError, AllocFailed, Global};
use std::marker::Model;
use thiserror::Error;

/// What the built patterns of a class take in all, in bytes, at the most. Each pattern has an equal share, which is what
/// `regex` counts of it: the tables that it searches by. A pattern that would take more is `OutOfMemory`.
pub const BUILT_MOST: usize = 4 << 20;

/// Why a class is not built, or its patterns are not all read.
#[derive(Clone, Copy, Debug, PartialEq, Eq, Error)]
pub enum ClassFault {
    /// A pattern is not UTF-8, the grammar of `regex` reads no pattern in it, or it nests too deep.
    #[error("the pattern of specification {spec} is no pattern")]
    BadPattern {
        /// The place of the first such specification, from 0.
        spec: u32,
    },
    /// There is too little memory, or a pattern that is to be built would take more than its share of [`BUILT_MOST`].
    #[error("no memory")]
    OutOfMemory,
}

impl From<AllocError> for ClassFault {
    ghost use Rattle.std.specs.Prelude.{◌≡◌};
    ghost use Rattle.ldm_class.specs.declared.class.ClassFault.TheVariants.{OutOfMemory};

    ghost from_gives = { λ _ fault. fault ≡ OutOfMemory };

    fn from(_error: AllocError) -> ClassFault {
        ClassFault::OutOfMemory
    }
}

impl<T: Drop> From<AllocFailed<T>> for ClassFault {
    ghost use Rattle.std.specs.Prelude.{◌≡◌};
    ghost use Rattle.ldm_class.specs.declared.class.ClassFault.TheVariants.{OutOfMemory};

    ghost from_gives = { λ _ fault. fault ≡ OutOfMemory };

    fn from(_error: AllocFailed<T>) -> ClassFault {
        ClassFault::OutOfMemory
    }
}

/// A class whose patterns are built. Contracts see what it was built of.
#[derive(Drop)]
pub struct Class {
    spec: ClassSpec,
    // The specifications that are patterns, in order.
    searches: Vec<Search>,
}

impl Model for Class {
    ghost use Rattle.ldm_types.specs.declared.class.ClassSpec.{ClassSpec};

    ghost Value = { ClassSpec };

    ghost use Rattle.ldm_class.specs.ClassView.{HasSearches};

    ghost view = { λ class. class.spec };

    ghost invariant = { HasSearches };
}

impl Class {
    /// Reads the patterns of a class, and builds nothing. A specification of feed NONE with the pattern `SIG=` and 32
    /// hexadecimal digits names a signature and is not read.
    ///
    /// `BadPattern` comes where it comes from [`Class::build`]. What passes here can be `OutOfMemory` there.
    pub fn check(alloc: Global, spec: &ClassSpec) -> Result<(), ClassFault>
        ensures { MatchResult result (λ _. bad_place spec.now.specs.items ≡ None)
            (IsClassFaultOf spec.now.specs.items) }
    {
        check_patterns(alloc, spec.specs.as_slice())
    }

    /// Builds the patterns of a class, each once. A specification of feed NONE with the pattern `SIG=` and 32
    /// hexadecimal digits names a signature and is not built.
    ///
    /// `BadPattern` comes only where a pattern is not UTF-8, the grammar of `regex` reads none in it, or it nests
    /// deeper than 250. A pattern that is read and would take more than its share of [`BUILT_MOST`] is `OutOfMemory`.
    pub fn build(alloc: Global, spec: &ClassSpec) -> Result<Class, ClassFault>
        ensures { MatchResult result (λ class. (class ≡ spec.now) × (bad_place spec.now.specs.items ≡ None))
            (IsClassFaultOf spec.now.specs.items) }
    {
        let searches = searches_of(alloc, spec.specs.as_slice())?;
        Ok(Class {
            spec: spec.copy(),
            searches,
        })
    }

    /// What the class was built of.
    pub fn spec(&self) -> &ClassSpec
        ensures { result.now ≡ self.now }
    {
        &self.spec
    }

    /// The signature of the product to go on behind: that of the first specification of feed NONE with the pattern
    /// `SIG=` and 32 hexadecimal digits of either case. `None` exactly where there is no such specification.
    pub fn resume(&self) -> Option<Signature>
        ensures { option_map (λ signature. signature.0) result ≡ resumed self.now.specs.items }
    {
        for spec in self.spec.specs.as_slice() {
            if let Some(signature) = resumption(spec) {
                return Some(signature);
            }
        }
        None
    }

    /// What is asked which of many products the class wants.
    pub fn matcher(&self, alloc: Global) -> Result<ClassMatcher<'_>, OutOfMemory>
        ensures { IfOk result (λ class. class ≡ self.now) }
    {
        ClassMatcher::of(alloc, &self.spec, self.searches.as_slice())
    }

    /// Whether the class wants a product: the feedtypes of some specification meet the product's, and its pattern is
    /// found in the ident. When the product was inserted is not asked. [`Class::matcher`] is for many products.
    pub fn wants(&self, alloc: Global, info: &Info) -> Result<bool, OutOfMemory>
        ensures { IfOk result (λ wanted. wanted ≡ wants self.now info.now) }
    {
        for search in self.searches.as_slice() {
            if search.feed.meets(info.feed()) && search.pattern.is_in(alloc, info.ident())? {
                return Ok(true);
            }
        }
        Ok(false)
    }
}

// Reads each pattern of these specifications, in order.
fn check_patterns(alloc: Global, specs: &[Spec]) -> Result<(), ClassFault>
    requires { length specs.now ≤ MOST_SPECS }
    ensures { MatchResult result (λ _. bad_place specs.now ≡ None) (IsClassFaultOf specs.now) }
{
    for (place, spec) in specs.iter().enumerate() {
        if resumption(spec).is_none() {
            check(alloc, spec.pattern.as_slice(), place as u32)?;
        }
    }
    Ok(())
}

// Reads the pattern of the specification at a place.
fn check(alloc: Global, pattern: &[u8], place: u32) -> Result<(), ClassFault>
    ensures { MatchResult result (λ _. IsSome (pattern_meaning pattern.now)) (IsBuildFaultOf pattern.now place) }
{
    match Pattern::check(alloc, pattern) {
        Ok(()) => Ok(()),
        Err(Refusal::Meaningless) => Err(ClassFault::BadPattern { spec: place }),
        Err(Refusal::OutOfMemory) => Err(ClassFault::OutOfMemory),
    }
}

// A search for each specification with a pattern, in order.
fn searches_of(alloc: Global, specs: &[Spec]) -> Result<Vec<Search>, ClassFault>
    requires { length specs.now ≤ MOST_SPECS }
    ensures { MatchResult result
        (λ searches. (searches.items ≡ filter_map search_of specs.now) × (bad_place specs.now ≡ None))
        (IsClassFaultOf specs.now) }
{
    let mut searches = Vec::with_capacity(alloc, specs.len())?;
    let most = BUILT_MOST / specs.len().max(1);
    for (place, spec) in specs.iter().enumerate() {
        if resumption(spec).is_none() {
            let pattern = build(alloc, spec.pattern.as_slice(), most, place as u32)?;
            searches.push(Search {
                feed: spec.feed,
                pattern,
            })?;
        }
    }
    Ok(searches)
}

// The pattern of the specification at a place, where it takes no more than that.
fn build(
    alloc: Global,
    pattern: &[u8],
    most: usize,
    place: u32,
) -> Result<BoundedPattern, ClassFault>
    ensures { MatchResult result
        (λ built. (built ≡ pattern.now) × IsSome (pattern_meaning pattern.now))
        (IsBuildFaultOf pattern.now place) }
{
    match BoundedPattern::build(alloc, pattern, most) {
        Ok(built) => Ok(built),
        Err(Refusal::Meaningless) => Err(ClassFault::BadPattern { spec: place }),
        Err(Refusal::OutOfMemory) => Err(ClassFault::OutOfMemory),
    }
}
