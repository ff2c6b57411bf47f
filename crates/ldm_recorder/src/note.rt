//! The note of a journal: which product each REQUEST line had last.
ghost use Rattle.std.specs.Prelude.{◌≡◌, ◌↔◌, ◌+◌, ◌≤◌, ◌++◌, IsTrue, drop, length, map, take};
ghost use Rattle.ldm_journal.specs.declared.places.TheConstants.{NOTE};
ghost use Rattle.ldm_journal.specs.Format.{number_at};
ghost use Rattle.ldm_journal.specs.Records.{eight};
ghost use Rattle.ldm_recorder.specs.Lines.{last_in, note_of, with_lasts, with_note};

use crate::line::{Line, MOST_LINES};
use byteorder::{BigEndian, ByteOrder};
use ldm_journal::NOTE;

// Bytes of a key.
const KEY: usize = 16;

// Bytes of an entry: a key and a number.
const ENTRY: usize = KEY + 8;

/// Gives each line the number that the note of a journal has of it, and 0 where the note has none.
pub fn take_note(lines: &mut [Line], note: &[u8; NOTE])
    ensures { lines.new ≡ map (with_note note.now) lines.old }
{
    for line in lines.iter_mut() {
        line.last = last_in(&line.key, note);
    }
}

// The number in the first entry of a note that has a key, and 0 where none has it.
fn last_in(key: &[u8; KEY], note: &[u8; NOTE]) -> u64
    ensures { result ≡ last_in key.now note.now }
{
    for i in 0..MOST_LINES {
        let (_, entries) = note.split_at(ENTRY * i);
        if has_key(entries, key) {
            return number_behind(entries);
        }
    }
    0
}

// Whether entries begin with a key.
fn has_key(entries: &[u8], key: &[u8; KEY]) -> bool
    requires { 24 ≤ length entries.now }
    ensures { IsTrue result ↔ (take 16 entries.now ≡ key.now) }
{
    let (first, _) = entries.split_at(KEY);
    first == key.as_slice()
}

// The number behind the key with which entries begin.
#[tactic(auto, unfolding(ldm_journal::specs::Format::number_at))]
fn number_behind(entries: &[u8]) -> u64
    requires { 24 ≤ length entries.now }
    ensures { result ≡ number_at 16 entries.now }
{
    BigEndian::read_u64(&entries[KEY..])
}

/// The note of lines with these numbers.
pub(crate) fn note_of(lines: &[Line], lasts: &[u64; MOST_LINES]) -> [u8; NOTE]
    ensures { result ≡ note_of (with_lasts lines.now lasts.now) }
{
    let mut note = [0; NOTE];
    for i in 0..MOST_LINES {
        let Some(line) = lines.get(i) else {
            return note;
        };
        write_entry(&mut note, ENTRY * i, &line.key, lasts[i]);
    }
    note
}

// Writes an entry at a place.
fn write_entry(note: &mut [u8; NOTE], at: usize, key: &[u8; KEY], last: u64)
    requires { at + 24 ≤ NOTE }
    ensures written { note.new ≡ take at note.old ++ (key.now ++ eight last) ++ drop (at + 24) note.old }
    ensures long { length key.now ≡ 16 }
{
    note[at..at + KEY].copy_from_slice(key);
    note[at + KEY..at + ENTRY].copy_from_slice(&last.to_be_bytes());
}
