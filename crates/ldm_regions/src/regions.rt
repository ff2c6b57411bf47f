//! The regions of an arena.
ghost use Rattle.std.specs.Prelude.{◌≡◌, ◌↔◌, ℕ, ◌%◌, ◌<◌, ◌≤◌, IfOk, None, IsSome, IsTrue, MatchOption};
ghost use Rattle.std.specs.Prelude.{length, [], true, if◌then◌else◌};
ghost use Rattle.std.specs.FinMap as map;
ghost use Rattle.ldm_types.specs.Arena.{gaps, fit, longest};
ghost use Rattle.ldm_regions.specs.Layout.{IsFree, Tiles, occupied, marked_only, with_region, without_owner};

use crate::gaps::{Gap, Gaps};
use crate::links;
use crate::links::Node;
use ldm_types::{MOST_SLOTS, OutOfMemory, SMALLEST_ARENA};
use std::alloc::Global;
use std::marker::Model;

/// Which owner, a number below a fixed number of slots, has which region of an arena.
///
/// A region is the positions from its start up to, but not with, start plus extent. What no owner has is free:
/// the free regions are the maximal gaps between the regions that are owned, so one that is given back joins the
/// free regions that it touches.
#[derive(Drop)]
pub struct Regions {
    arena: u64,
    slots: u32,
    // By owner, linked in the order in which they lie, and the wall behind the last of them.
    nodes: Vec<Node>,
    gaps: Gaps,
}

impl Model for Regions {
    ghost use Rattle.std.specs.Prelude.{map as each};
    ghost use Rattle.std.specs.FinMap as map;
    ghost use Rattle.ldm_regions.specs.Layout.{Layout, layout_code};
    ghost use Rattle.ldm_regions.specs.Order.{entry_of};
    ghost use Rattle.ldm_regions.specs.Links.{in_order};
    ghost use Rattle.ldm_regions.specs.Kept.{IsKept};

    ghost Value = { Layout };

    ghost coded = { layout_code };

    ghost view = { λ r. record {
      arena = r.arena;
      slots = r.slots;
      owned = map.from_entries
          (each entry_of (in_order r.nodes.items r.slots));
    } };

    ghost invariant = { λ r. IsKept r.nodes.items r.arena r.slots r.gaps.extents r.gaps.fronts };
}

impl Regions {
    /// An arena that is one free region, with memory for a region of each slot, which is all taken here.
    pub fn create(alloc: Global, arena: u64, slots: u32) -> Result<Regions, OutOfMemory>
        requires whole { arena % 8 ≡ 0 }
        requires least { SMALLEST_ARENA ≤ arena }
        requires slots { slots ≤ MOST_SLOTS }
        ensures empty { IfOk result (λ r. r ≡ record { arena = arena; slots = slots; owned = map.empty }) }
        ensures tiles { IfOk result Tiles }
    {
        let wall = Node {
            start: arena,
            end: 0,
            front: slots,
            behind: slots,
        };
        let nodes = vec![in alloc; wall; slots as usize + 1]?;
        let mut gaps = Gaps::create(alloc, slots + 1)?;
        gaps.add(Gap {
            start: 0,
            end: arena,
            front: slots,
        });
        Ok(Regions {
            arena,
            slots,
            nodes,
            gaps,
        })
    }

    /// Gives an owner a region at the start of the shortest free region that is long enough, the lowest where
    /// several are equally short, and answers where it begins. `None` exactly where no free region is long enough.
    pub fn take(&mut self, need: u64, owner: u32) -> Option<u64>
        requires need { 0 < need }
        requires owner { owner < self.old.slots }
        requires none { map.get self.old.owned owner ≡ None }
        ensures place { result ≡ fit need (occupied self.old.owned) self.old.arena }
        ensures owned { MatchOption result (self.new ≡ self.old)
            (λ start. self.new ≡ with_region self.old owner (record { start = start; extent = need })) }
        ensures tiles { Tiles self.new }
    {
        let gap = self.gaps.best(need)?;
        let end = gap.start + need;
        self.gaps.remove(gap);
        links::link(&mut self.nodes, owner, gap.start, end, gap.front);
        self.gaps.add(Gap {
            start: end,
            end: gap.end,
            front: owner,
        });
        Some(gap.start)
    }

    /// Gives an owner the region of that length at that offset, where all of it is free and within the arena, and
    /// answers whether it is; else nothing changes.
    pub fn place(&mut self, offset: u64, need: u64, owner: u32) -> bool
        requires need { 0 < need }
        requires owner { owner < self.old.slots }
        requires none { map.get self.old.owned owner ≡ None }
        ensures free { IsTrue result ↔ IsFree (record { start = offset; extent = need }) self.old }
        ensures owned { self.new ≡ (if result then with_region self.old owner (record { start = offset; extent = need })
            else self.old) }
        ensures tiles { Tiles self.new }
    {
        let Some((start, front)) = self.gaps.begun(offset) else {
            return false;
        };
        let behind = self.nodes[front as usize].behind;
        let end = self.nodes[behind as usize].start;
        let room = end.saturating_sub(offset);
        if room < need {
            return false;
        }
        self.gaps.remove(Gap { start, end, front });
        links::link(&mut self.nodes, owner, offset, offset + need, front);
        self.gaps.add(Gap {
            start: offset + need,
            end,
            front: owner,
        });
        self.gaps.add(Gap {
            start,
            end: offset,
            front,
        });
        true
    }

    /// Takes an owner's region back: it is free, and one with the free regions that it touches.
    pub fn give_back(&mut self, owner: u32)
        requires { IsSome (map.get self.old.owned owner) }
        ensures owned { self.new ≡ without_owner self.old owner }
        ensures tiles { Tiles self.new }
    {
        let node = self.nodes[owner as usize];
        let start = self.nodes[node.front as usize].end;
        let end = self.nodes[node.behind as usize].start;
        self.gaps.remove(Gap {
            start,
            end: node.start,
            front: node.front,
        });
        self.gaps.remove(Gap {
            start: node.end,
            end,
            front: owner,
        });
        links::unlink(&mut self.nodes, owner);
        self.gaps.add(Gap {
            start,
            end,
            front: node.front,
        });
    }

    /// The extent of the longest free region, 0 where there is none.
    pub fn largest(&self) -> u64
        ensures longest { result ≡ longest (gaps (occupied self.now.owned) self.now.arena) }
        ensures tiles { Tiles self.now }
    {
        self.gaps.longest()
    }

    /// The extent of the longest free region that there would be if every owner that is not marked gave its
    /// region back, 0 where there would be none.
    pub fn largest_if(&self, kept: &[bool]) -> u64
        requires { length kept.now ≡ self.now.slots }
        ensures longest { result ≡ longest (gaps (occupied (marked_only kept.now self.now.owned)) self.now.arena) }
        ensures tiles { Tiles self.now }
    {
        links::longest_space_if(&self.nodes, self.arena, kept)
    }
}
