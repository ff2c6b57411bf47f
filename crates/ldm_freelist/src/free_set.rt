//! A set of free regions.
ghost use Rattle.std.specs.Prelude.{◌≡◌, ◌+◌, ◌-◌, ◌^◌, ◌<◌, ◌≤◌, ◌≢◌, IfOk, IfSome, false, true};
ghost use Rattle.std.specs.FinSet as set;
ghost use Rattle.ldm_freelist.specs.Pairs.{IsBest, IsGreatest, IsLastTo};
ghost use Rattle.ldm_freelist.specs.Nodes.{height_at};
ghost use Rattle.ldm_freelist.specs.Tree.{Tree, IsAddable, Adds, IsLow, HasPair, Takes};

use crate::node_table::{NONE, NodeTable, Steps, number_before};
use crate::tree::{detach, first_from, insert, last, last_to};
use ldm_types::OutOfMemory;
use std::alloc::Global;
use std::marker::{Brand, Model};
use std::sync::ledger::{Blank, Ledger};

/// Pairs of an extent and an offset, each of them in the set once, with room for a fixed number.
///
/// A pair precedes another if its extent is smaller or, where the extents are equal, its offset.
///
/// The pairs stand in a balanced search tree, so each call takes time in the logarithm of their number.
#[derive(Drop)]
pub struct FreeSet {
    table: NodeTable,
    root: u32,
    free: u32,
}

impl Model for FreeSet {
    ghost use Rattle.std.specs.Prelude.{ℕ, List, length};
    ghost use Rattle.std.specs.FinSet as set;
    ghost use Rattle.ldm_freelist.specs.Pairs.{Pairs, pairs_code};

    ghost Value = { Pairs };

    ghost coded = { pairs_code };

    ghost use Rattle.ldm_freelist.specs.Tree.{Tree, pairs_of};
    ghost use Rattle.ldm_freelist.specs.Held.{tree_at, IsHeld};

    ghost view = { λ s. record { room = length s.table; members = set.from_list (pairs_of (tree_at s.table s.root)) } };

    ghost invariant = { λ s. (tree : Tree) × ((chain : List ℕ) × IsHeld s.table s.root s.free tree chain) };
}

impl FreeSet {
    /// An empty set with room for that many pairs, all of whose memory is taken here.
    pub fn create(alloc: Global, room: u32) -> Result<FreeSet, OutOfMemory>
        ensures { IfOk result (λ s. s ≡ record { room = room; members = set.empty }) }
    {
        Ok(FreeSet {
            table: NodeTable::create(alloc, room)?,
            root: NONE,
            free: number_before(room),
        })
    }

    /// Puts a pair in.
    pub fn add(&mut self, extent: u64, offset: u64)
        requires room { set.len self.old.members < self.old.room }
        requires new { set.contains self.old.members (extent, offset) ≡ false }
        ensures room { self.new.room ≡ self.old.room }
        ensures members { self.new.members ≡ set.insert self.old.members (extent, offset) }
    {
        let fresh = self.free;
        self.free = self.table.fill(fresh, extent, offset);
        let pair = (extent, offset);
        self.root = insert_alone::<Brand>(&mut self.table, self.root, fresh, pair, Blank::new(1));
    }

    /// Takes a pair out.
    pub fn remove(&mut self, extent: u64, offset: u64)
        requires { set.contains self.old.members (extent, offset) ≡ true }
        ensures room { self.new.room ≡ self.old.room }
        ensures members { self.new.members ≡ set.remove self.old.members (extent, offset) }
    {
        let pair = (extent, offset);
        let (root, node) = detach_alone::<Brand>(&mut self.table, self.root, pair, Blank::new(1));
        self.table.clear(node, self.free);
        self.root = root;
        self.free = node;
    }

    /// The first pair whose extent is at least the one that is needed. `None` exactly where there is none.
    ///
    /// A step is one comparison of pairs.
    pub fn best<L: Ledger>(&self, need: u64, steps: &mut Steps<L>) -> Option<(u64, u64)>
        requires { steps.old < 2 ^ 62 }
        ensures best { IsBest need self.now.members result }
        ensures steps { steps.old ≤ steps.new }
        ensures few { steps.new < 2 ^ 63 }
        ensures logarithm { 2 ^ (steps.new - steps.old) ≤ (set.len self.now.members + 1) ^ 2 }
        ensures counted { set.len self.now.members + 1 ≤ (2 ^ (steps.new - steps.old)) ^ 2 }
    {
        first_from(&self.table, self.root, need, None, steps)
    }

    /// The last pair whose extent is at most the given one. `None` exactly where there is none.
    ///
    /// A step is one comparison of pairs.
    pub fn last_to<L: Ledger>(&self, most: u64, steps: &mut Steps<L>) -> Option<(u64, u64)>
        requires { steps.old < 2 ^ 62 }
        ensures last { IsLastTo most self.now.members result }
        ensures steps { steps.old ≤ steps.new }
        ensures few { steps.new < 2 ^ 63 }
        ensures logarithm { 2 ^ (steps.new - steps.old) ≤ (set.len self.now.members + 1) ^ 2 }
        ensures counted { set.len self.now.members + 1 ≤ (2 ^ (steps.new - steps.old)) ^ 2 }
    {
        last_to(&self.table, self.root, most, None, steps)
    }

    /// The pair that no pair follows. `None` exactly where there is none.
    ///
    /// A step is one comparison of pairs.
    pub fn greatest<L: Ledger>(&self, steps: &mut Steps<L>) -> Option<(u64, u64)>
        requires { steps.old < 2 ^ 62 }
        ensures greatest { IsGreatest self.now.members result }
        ensures steps { steps.old ≤ steps.new }
        ensures few { steps.new < 2 ^ 63 }
        ensures logarithm { 2 ^ (steps.new - steps.old) ≤ (set.len self.now.members + 1) ^ 2 }
        ensures counted { IfSome result (λ _. steps.old < steps.new) }
    {
        if self.root == NONE {
            return None;
        }
        let node = last(&self.table, self.root);
        let (_, extent, offset) = self.table.compare(node, 0, 0, steps);
        Some((extent, offset))
    }
}

/// Inserts with a counter of its own.
fn insert_alone<L: Ledger>(
    table: &mut NodeTable,
    root: u32,
    fresh: u32,
    pair: (u64, u64),
    blank: Blank,
) -> u32
    requires name { blank.name ≡ L.name }
    requires parts { blank.parts ≡ L.parts }
    requires some { 0 < blank.parts }
    requires addable { (tree : Tree) × IsAddable table.old root fresh pair tree }
    requires low { height_at table.old root < 200 }
    ensures { Adds table.old table.new root fresh pair result }
{
    let mut steps = Steps::<L>::new(blank);
    insert(table, root, fresh, pair, &mut steps)
}

/// Detaches with a counter of its own.
fn detach_alone<L: Ledger>(
    table: &mut NodeTable,
    root: u32,
    pair: (u64, u64),
    blank: Blank,
) -> (u32, u32)
    requires name { blank.name ≡ L.name }
    requires parts { blank.parts ≡ L.parts }
    requires some { 0 < blank.parts }
    requires there { (tree : Tree) × IsLow table.old root tree × HasPair pair tree }
    requires low { height_at table.old root < 200 }
    ensures { Takes table.old table.new root pair result }
{
    let mut steps = Steps::<L>::new(blank);
    detach(table, root, pair, &mut steps)
}
