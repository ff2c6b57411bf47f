//! The gaps between regions, by how long they are and by where they begin.
ghost use Rattle.std.specs.Prelude.{◌≡◌, ℕ, ◌+◌, ◌-◌, ◌<◌, ◌≤◌, ◌^◌, IfOk, MatchOption, None, Some, false, true};
ghost use Rattle.std.specs.FinSet as set;
ghost use Rattle.ldm_freelist.specs.Pairs.{IsBest, IsGreatest, IsLastTo};
ghost use Rattle.ldm_regions.specs.Gaps.{by_extent, by_front, with_gap, without_gap, AreMatched, IsFound, IsLongest};

use ldm_freelist::{FreeSet, Steps};
use ldm_types::OutOfMemory;
use std::alloc::Global;
use std::marker::Brand;
use std::sync::ledger::{Blank, Ledger};

/// Positions from a start up to an end that no owner has, right behind the region of an owner.
#[derive(Clone, Copy)]
pub struct Gap {
    pub start: u64,
    pub end: u64,
    pub front: u32,
}

/// The gaps of an arena.
#[derive(Drop)]
pub struct Gaps {
    /// The extent of each gap, and where it begins.
    pub extents: FreeSet,
    /// Where each gap begins, and the owner of the region in front of it.
    pub fronts: FreeSet,
}

impl Gaps {
    /// No gap, with room for that many.
    pub fn create(alloc: Global, room: u32) -> Result<Gaps, OutOfMemory>
        ensures { IfOk result
            (λ gaps. gaps ≡ record {
              extents = record { room = room; members = set.empty };
              fronts
                  = record { room = room; members = set.empty };
            }) }
    {
        Ok(Gaps {
            extents: FreeSet::create(alloc, room)?,
            fronts: FreeSet::create(alloc, room)?,
        })
    }

    /// Puts a gap in, unless it is empty.
    pub fn add(&mut self, gap: Gap)
        requires extents { gap.start < gap.end → (set.contains self.old.extents.members (by_extent gap) ≡ false)
            × (set.len self.old.extents.members < self.old.extents.room) }
        requires fronts { gap.start < gap.end → (set.contains self.old.fronts.members (by_front gap) ≡ false)
            × (set.len self.old.fronts.members < self.old.fronts.room) }
        ensures extents { self.new.extents
            ≡ record self.old.extents { members = with_gap by_extent self.old.extents.members gap } }
        ensures fronts { self.new.fronts
            ≡ record self.old.fronts { members = with_gap by_front self.old.fronts.members gap } }
    {
        if gap.start < gap.end {
            self.extents.add(gap.end - gap.start, gap.start);
            self.fronts.add(gap.start, u64::from(gap.front));
        }
    }

    /// Takes a gap out, unless it is empty.
    pub fn remove(&mut self, gap: Gap)
        requires extents { gap.start < gap.end → set.contains self.old.extents.members (by_extent gap) ≡ true }
        requires fronts { gap.start < gap.end → set.contains self.old.fronts.members (by_front gap) ≡ true }
        ensures extents { self.new.extents
            ≡ record self.old.extents { members = without_gap by_extent self.old.extents.members gap } }
        ensures fronts { self.new.fronts
            ≡ record self.old.fronts { members = without_gap by_front self.old.fronts.members gap } }
    {
        if gap.start < gap.end {
            self.extents.remove(gap.end - gap.start, gap.start);
            self.fronts.remove(gap.start, u64::from(gap.front));
        }
    }

    /// The shortest gap of at least the extent that is needed, the lowest where several are equally short.
    pub fn best(&self, need: u64) -> Option<Gap>
        requires { AreMatched self.now.extents.members self.now.fronts.members }
        ensures { IsFound need self.now.extents.members self.now.fronts.members result }
    {
        let (extent, start) = first_from(&self.extents, need)?;
        let Some((_, front)) = first_from(&self.fronts, start) else {
            unreachable!()
        };
        Some(Gap {
            start,
            end: start + extent,
            front: front as u32,
        })
    }

    /// Of the gaps that begin at a position or in front of it, the last: where it begins, and the owner of the region
    /// in front of it.
    pub fn begun(&self, at: u64) -> Option<(u64, u32)>
        requires { AreMatched self.now.extents.members self.now.fronts.members }
        ensures { IsLastTo at self.now.fronts.members result }
    {
        let (start, front) = last_to(&self.fronts, at)?;
        Some((start, front as u32))
    }

    /// The extent of the longest gap, 0 where there is none.
    pub fn longest(&self) -> u64
        ensures { IsLongest self.now.extents.members result }
    {
        match last(&self.extents) {
            Some((extent, _)) => extent,
            None => 0,
        }
    }
}

/// The first pair whose first number is at least the one that is needed.
fn first_from(pairs: &FreeSet, need: u64) -> Option<(u64, u64)>
    ensures { IsBest need pairs.now.members result }
{
    best_of::<Brand>(pairs, need, Blank::new(1))
}

/// The last pair whose first number is at most the given one.
fn last_to(pairs: &FreeSet, most: u64) -> Option<(u64, u64)>
    ensures { IsLastTo most pairs.now.members result }
{
    last_to_of::<Brand>(pairs, most, Blank::new(1))
}

/// The last pair.
fn last(pairs: &FreeSet) -> Option<(u64, u64)>
    ensures { IsGreatest pairs.now.members result }
{
    greatest_of::<Brand>(pairs, Blank::new(1))
}

/// The same as [`first_from`], with a counter of steps that is opened for this one search.
fn best_of<L: Ledger>(pairs: &FreeSet, need: u64, blank: Blank) -> Option<(u64, u64)>
    requires name { blank.name ≡ L.name }
    requires parts { blank.parts ≡ L.parts }
    requires some { 0 < blank.parts }
    ensures { IsBest need pairs.now.members result }
{
    let mut steps = Steps::<L>::new(blank);
    pairs.best(need, &mut steps)
}

/// The same as [`last`], with a counter of steps that is opened for this one search.
fn greatest_of<L: Ledger>(pairs: &FreeSet, blank: Blank) -> Option<(u64, u64)>
    requires name { blank.name ≡ L.name }
    requires parts { blank.parts ≡ L.parts }
    requires some { 0 < blank.parts }
    ensures { IsGreatest pairs.now.members result }
{
    let mut steps = Steps::<L>::new(blank);
    pairs.greatest(&mut steps)
}

/// The same as [`last_to`], with a counter of steps that is opened for this one search.
fn last_to_of<L: Ledger>(pairs: &FreeSet, most: u64, blank: Blank) -> Option<(u64, u64)>
    requires name { blank.name ≡ L.name }
    requires parts { blank.parts ≡ L.parts }
    requires some { 0 < blank.parts }
    ensures { IsLastTo most pairs.now.members result }
{
    let mut steps = Steps::<L>::new(blank);
    pairs.last_to(most, &mut steps)
}
