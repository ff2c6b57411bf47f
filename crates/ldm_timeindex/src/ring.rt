//! A ring of entries, with room for a fixed number.
ghost use Rattle.std.specs.Prelude.{◌≡◌, ◌+◌, ◌-◌, ◌<◌, ◌≤◌, ◌^◌, ◌++◌, ◌∷◌, [], length};
ghost use Rattle.std.specs.Prelude.{drop, take, remove, slice_get, Some, IfOk};
ghost use Rattle.ldm_timeindex.specs.Ring.{place_of, turned};

use crate::entry::Entry;
use ldm_types::{Micros, OutOfMemory};
use std::alloc::Global;
use std::marker::Model;

/// Entries in order. They stand one behind the other in a fixed table, and go on at its front where it ends.
#[derive(Drop)]
pub struct Ring {
    table: Vec<Entry>,
    /// Where the first entry stands.
    first: usize,
    count: usize,
}

impl Model for Ring {
    ghost use Rattle.std.specs.Prelude.{length, take};
    ghost use Rattle.ldm_timeindex.specs.Ring.{Held, turned, IsKept};

    ghost Value = { Held };

    ghost view = { λ ring.
        record { room = length ring.table.items; entries = take ring.count (turned ring.first ring.table.items) } };

    ghost invariant = { λ ring. IsKept (length ring.table.items) ring.first ring.count };
}

impl Ring {
    /// An empty ring with room for that many entries, all of whose memory is taken here.
    pub fn create(alloc: Global, room: u32) -> Result<Ring, OutOfMemory>
        ensures { IfOk result (λ ring. ring ≡ record { room = room; entries = [] }) }
    {
        let Some(time) = Micros::new(0) else {
            unreachable!()
        };
        let unused = Entry {
            n: 0,
            time,
            slot: 0,
        };
        let mut table = Vec::with_capacity(alloc, room as usize)?;
        table.resize(room as usize, unused)?;
        Ok(Ring {
            table,
            first: 0,
            count: 0,
        })
    }

    /// How many entries there are.
    pub fn len(&self) -> usize
        ensures len { result ≡ length self.now.entries }
        ensures within { result ≤ self.now.room }
        ensures small { self.now.room < 2 ^ 32 }
    {
        self.count
    }

    /// The entry that so many stand before.
    pub fn get(&self, index: usize) -> Entry
        requires { index < length self.now.entries }
        ensures { slice_get self.now.entries index ≡ Some result }
    {
        self.table[place(self.first, self.table.len(), index)]
    }

    /// Puts an entry in behind all others.
    pub fn push(&mut self, entry: Entry)
        requires { length self.old.entries < self.old.room }
        ensures { self.new ≡ record { room = self.old.room; entries = self.old.entries ++ entry ∷ [] } }
    {
        let at = place(self.first, self.table.len(), self.count);
        self.table[at] = entry;
        self.count += 1;
    }

    /// Takes the entry out that so many stand before, and closes the hole from its shorter side.
    pub fn remove(&mut self, index: usize)
        requires { index < length self.old.entries }
        ensures { self.new ≡ record { room = self.old.room; entries = remove self.old.entries index } }
    {
        if index < self.count / 2 {
            close_from_front(&mut self.table, self.first, index);
            self.first = place(self.first, self.table.len(), 1);
        } else {
            close_from_back(&mut self.table, self.first, self.count, index);
        }
        self.count -= 1;
    }
}

/// Where the entry stands that so many stand before, in a table of so many places.
fn place(first: usize, room: usize, index: usize) -> usize
    requires first { first ≤ room }
    requires index { index < room }
    requires room { room < 2 ^ 32 }
    ensures place { result ≡ place_of first room index }
    ensures within { result < room }
{
    let straight = first + index;
    if straight < room {
        straight
    } else {
        straight - room
    }
}

/// Moves the entries before one a place back, over it.
fn close_from_front(table: &mut [Entry], first: usize, index: usize)
    requires first { first ≤ length table.old }
    requires index { index < length table.old }
    requires room { length table.old < 2 ^ 32 }
    ensures { drop 1 (turned first table.new) ≡ remove (turned first table.old) index }
{
    let mut hole = index;
    while hole > 0 {
        table[place(first, table.len(), hole)] = table[place(first, table.len(), hole - 1)];
        hole -= 1;
    }
}

/// Moves the entries behind one, of so many, a place to the front, over it.
fn close_from_back(table: &mut [Entry], first: usize, count: usize, index: usize)
    requires first { first ≤ length table.old }
    requires count { count ≤ length table.old }
    requires index { index < count }
    requires room { length table.old < 2 ^ 32 }
    ensures { take (count - 1) (turned first table.new) ≡ remove (take count (turned first table.old)) index }
{
    for hole in index..count - 1 {
        table[place(first, table.len(), hole)] = table[place(first, table.len(), hole + 1)];
    }
}
