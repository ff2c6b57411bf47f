//! The slots of a queue, by signature.
ghost use Rattle.std.specs.Prelude.{◌≡◌, IfOk, IfSome, IsSome, None, Some, replicate, set, slice_get};
ghost use Rattle.ldm_sigindex.specs.Index.{IsOneToOne, slot_of};

use crate::entries::{self, END, Entry};
use ldm_types::{OutOfMemory, Signature};
use std::alloc::Global;
use std::marker::Model;

/// Which of a fixed number of slots has which signature.
///
/// A slot is a number from 0 up to, but not with, the number of slots. It has one signature or none, and no two
/// slots have the same one.
#[derive(Drop)]
pub struct SigIndex {
    /// What the hash of each signature begins with.
    key: u64,
    /// Where the slots' signatures are found.
    entries: Vec<Entry>,
    /// The signature of each slot that has one.
    slots: Vec<Option<Signature>>,
}

impl Model for SigIndex {
    ghost use Rattle.ldm_sigindex.specs.Index.{Table};
    ghost use Rattle.ldm_sigindex.specs.Entries.{table_of, IsKept};

    ghost Value = { Table };

    ghost view = { λ index. table_of index.slots.items };

    ghost invariant = { λ index. IsKept index.key index.entries.items (table_of index.slots.items) };
}

impl SigIndex {
    /// An index of slots that have no signature, all of whose memory is taken here. An error only where there is
    /// too little of it.
    pub fn create(alloc: Global, slots: u32) -> Result<SigIndex, OutOfMemory>
        ensures { IfOk result (λ index. index ≡ replicate slots None) }
    {
        SigIndex::create_keyed(alloc, slots, 0)
    }

    /// An index as `create` makes it, which hashes the key before each signature. Signatures that collide under one
    /// key hardly do under another, so a stranger who does not know the key cannot choose signatures whose searches are
    /// long. The key changes no answer.
    pub fn create_keyed(alloc: Global, slots: u32, key: u64) -> Result<SigIndex, OutOfMemory>
        ensures { IfOk result (λ index. index ≡ replicate slots None) }
    {
        let free = Entry { mark: 0, slot: END };
        let entries = vec![in alloc; free; (2 * slots as usize).next_power_of_two()]?;
        let slots = vec![in alloc; None; slots as usize]?;
        Ok(SigIndex {
            key,
            entries,
            slots,
        })
    }

    /// Gives a slot that has none a signature that no slot has.
    pub fn put(&mut self, s: Signature, slot: u32)
        requires absent { slot_of self.old s.0 ≡ None }
        requires free { slice_get self.old slot ≡ Some None }
        ensures put { self.new ≡ set self.old slot (Some s.0) }
        ensures one_to_one { IsOneToOne self.new }
    {
        let mark = entries::mark(self.key, &s);
        let home = entries::home(mark, self.entries.len());
        let place = entries::free_place(&self.entries, home);
        self.entries[place] = Entry { mark, slot };
        self.slots[slot as usize] = Some(s);
    }

    /// Takes a signature from the slot that has it.
    pub fn take_out(&mut self, s: &Signature)
        requires { IsSome (slot_of self.old s.now.0) }
        ensures taken { IfSome (slot_of self.old s.now.0) (λ slot. self.new ≡ set self.old slot None) }
        ensures one_to_one { IsOneToOne self.new }
    {
        if let Some(place) = entries::seek(self.key, &self.entries, &self.slots, s) {
            let slot = self.entries[place].slot;
            self.slots[slot as usize] = None;
            entries::close(&mut self.entries, place);
        }
    }

    /// The slot that has a signature. `None` exactly where no slot has it.
    pub fn find(&self, s: &Signature) -> Option<u32>
        ensures slot { result ≡ slot_of self.now s.now.0 }
        ensures one_to_one { IsOneToOne self.now }
    {
        let place = entries::seek(self.key, &self.entries, &self.slots, s)?;
        Some(self.entries[place].slot)
    }
}
