//! The table of entries: each stands at the home of its mark or behind it, with no free place between.
//!
//! An entry's home is told by its mark, so that a table is searched and closed up without the signatures: one is read
//! only where its mark is the one that is sought.
ghost use Rattle.std.specs.Prelude.{◌≡◌, ◌≢◌, ◌<◌, ℕ, length, set, IfSome, None, true, false};
ghost use Rattle.ldm_sigindex.specs.Index.{Table, has, slot_of};
ghost use Rattle.ldm_sigindex.specs.Entries.{IsEntry, IsFirstFree, IsKept, IsOnWay, after_of, bytes_of};
ghost use Rattle.ldm_sigindex.specs.Entries.{entry_at, free_of, home_of, mark_of, slot_at, table_of};

use ldm_types::Signature;
use std::hash::{DefaultHasher, Hasher};

/// The slot of a free entry. No slot has this number.
pub const END: u32 = u32::MAX;

/// An entry: half of the hash of the key and a signature, and the slot that has the signature.
#[derive(Clone, Copy)]
pub struct Entry {
    pub mark: u32,
    pub slot: u32,
}

/// What an entry keeps of the hash of the table's key and its signature: its upper half.
pub fn mark(key: u64, signature: &Signature) -> u32
    ensures { result ≡ mark_of key signature.now.0 }
{
    let mut hasher = DefaultHasher::new();
    hasher.write_u64(key);
    hasher.write(&signature.0);
    (hasher.finish() >> 32) as u32
}

/// Where the search for the entry of a mark begins, of so many places, a power of two.
pub fn home(mark: u32, places: usize) -> usize
    requires { 0 < places }
    ensures home { result ≡ home_of places mark }
    ensures within { result < places }
{
    mark as usize & (places - 1)
}

/// The place behind a place, going round.
fn after(place: usize, places: usize) -> usize
    requires { place < places }
    ensures { result ≡ after_of places place }
{
    if place + 1 == places { 0 } else { place + 1 }
}

/// Whether a search that begins at `home` comes to `place` before it comes to `at`.
fn is_on_way(home: usize, place: usize, at: usize) -> bool
    ensures on { result ≡ true → IsOnWay home place at }
    ensures off { result ≡ false → ¬ IsOnWay home place at }
{
    if home <= at {
        home <= place && place < at
    } else {
        home <= place || place < at
    }
}

/// The first free place from `home` on.
pub fn free_place(entries: &[Entry], home: usize) -> usize
    requires within { home < length entries.now }
    requires free { free_of entries.now < length entries.now }
    ensures { IsFirstFree entries.now home result }
{
    let mut at = home;
    while entries[at].slot != END {
        at = after(at, entries.len());
    }
    at
}

/// Whether a slot has a signature.
fn is_held(slot: &Option<Signature>, signature: &Signature) -> bool
    ensures { result ≡ has signature.now.0 (bytes_of slot.now) }
{
    match slot {
        Some(held) => *held == *signature,
        None => false,
    }
}

/// The place of the entry of a signature, if a slot has it, in a table that is kept with this key.
pub fn seek(
    key: u64,
    entries: &[Entry],
    slots: &[Option<Signature>],
    signature: &Signature,
) -> Option<usize>
    requires { IsKept key entries.now (table_of slots.now) }
    ensures found { IfSome result (λ place. IsEntry key (entry_at entries.now place) (table_of slots.now) signature.now.0) }
    ensures absent { result ≡ None → slot_of (table_of slots.now) signature.now.0 ≡ None }
{
    let mark = mark(key, signature);
    let mut at = home(mark, entries.len());
    while entries[at].slot != END {
        let entry = entries[at];
        if entry.mark == mark && is_held(&slots[entry.slot as usize], signature) {
            return Some(at);
        }
        at = after(at, entries.len());
    }
    None
}

/// Takes out the entry of a place. Those behind it that a search would no longer come to move forward, so that nothing
/// is left of an entry that was taken out.
pub fn close(entries: &mut [Entry], place: usize)
    requires taken { slot_at entries.old place ≢ END }
    requires free { free_of entries.old < length entries.old }
    ensures { (key : ℕ) (table : Table) → IsKept key entries.old table →
        IsKept key entries.new (set table (slot_at entries.old place) None) }
{
    let mut hole = place;
    let mut at = after(place, entries.len());
    while entries[at].slot != END {
        let entry = entries[at];
        if is_on_way(home(entry.mark, entries.len()), hole, at) {
            entries[hole] = entry;
            hole = at;
        }
        at = after(at, entries.len());
    }
    entries[hole] = Entry { mark: 0, slot: END };
}
