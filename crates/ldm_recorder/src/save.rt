//! What is done to the journal.
ghost use Rattle.std.specs.Prelude.{◌≡◌, ◌+◌, ◌-◌, ◌<◌, ◌≤◌, ◌^◌, ◌∷◌, [], length, OnOk};
ghost use Rattle.ldm_disk.specs.Calls.{KeepsDisk};
ghost use Rattle.ldm_journal.specs.Records.{Kept};
ghost use Rattle.ldm_journal.specs.Appending.{record_len};
ghost use Rattle.ldm_journal.specs.Runs.{Append, Commit};
ghost use Rattle.ldm_recorder.specs.Saving.{AppendsBy, KeepsBy, ReplacesBy, SavesBy, kit_of};
ghost use Rattle.ldm_recorder.specs.Turns.{keep_events};

use crate::end::RecordEnd;
use ldm_disk::Disk;
use ldm_journal::{AppendEnd, CommitEnd, Journal, NOTE, record_bytes};
use ldm_types::{Info, Micros};

// Makes what was appended stay with a note, and leaves so many bytes of the ring free.
pub(crate) fn save<D: Disk>(
    journal: &mut Journal,
    disk: &mut D,
    gap: u64,
    note: &[u8; NOTE],
) -> Result<(), RecordEnd>
    requires { gap ≤ journal.old.marks.ring }
    ensures saved { SavesBy result (λ start. Commit (journal.old.marks.ring - gap) note.now ∷ [])
        (kit_of journal.old.marks (D.tells disk.old)) (kit_of journal.new.marks (D.tells disk.new)) }
    ensures free { OnOk result ((journal.new.marks.appended ≡ 0)
        × (journal.new.marks.used + gap ≤ journal.new.marks.ring)) }
    ensures ring { journal.new.marks.ring ≡ journal.old.marks.ring }
    ensures kept { KeepsDisk (D.tells disk.old) (D.tells disk.new) }
{
    match journal.commit(disk, gap, note) {
        CommitEnd::Committed => Ok(()),
        CommitEnd::NotAJournal => Err(RecordEnd::NotAJournal),
        CommitEnd::DiskFault => Err(RecordEnd::DiskFault),
    }
}

// Makes what was appended stay with the note that there is, and leaves so many bytes of the ring free.
fn save_on<D: Disk>(journal: &mut Journal, disk: &mut D, gap: u64) -> Result<(), RecordEnd>
    requires { gap ≤ journal.old.marks.ring }
    ensures saved { SavesBy result (λ start. Commit (journal.old.marks.ring - gap) start.note ∷ [])
        (kit_of journal.old.marks (D.tells disk.old)) (kit_of journal.new.marks (D.tells disk.new)) }
    ensures free { OnOk result ((journal.new.marks.appended ≡ 0)
        × (journal.new.marks.used + gap ≤ journal.new.marks.ring)) }
    ensures ring { journal.new.marks.ring ≡ journal.old.marks.ring }
    ensures kept { KeepsDisk (D.tells disk.old) (D.tells disk.new) }
{
    let note = *journal.note();
    save(journal, disk, gap, &note)
}

// Makes what was appended stay with the note that there is, where something was.
pub(crate) fn save_some<D: Disk>(journal: &mut Journal, disk: &mut D) -> Result<(), RecordEnd>
    ensures saved { SavesBy result (λ start. Commit (journal.old.marks.ring - 0) start.note ∷ [])
        (kit_of journal.old.marks (D.tells disk.old)) (kit_of journal.new.marks (D.tells disk.new)) }
    ensures none { journal.old.marks.appended ≡ 0 → D.tells disk.new ≡ D.tells disk.old }
    ensures ring { journal.new.marks.ring ≡ journal.old.marks.ring }
    ensures kept { KeepsDisk (D.tells disk.old) (D.tells disk.new) }
{
    if journal.appended() == 0 {
        return Ok(());
    }
    save_on(journal, disk, 0)
}

// Appends a product where the ring has been made free for its record.
fn append_where_free<D: Disk>(
    journal: &mut Journal,
    disk: &mut D,
    number: u64,
    time: Micros,
    info: &Info,
    body: &[u8],
) -> Result<(), RecordEnd>
    requires rises { journal.old.marks.next ≤ number }
    requires numbered { number < 2 ^ 64 - 1 }
    requires whole { length body.now ≡ info.now.size }
    requires free { journal.old.marks.used + journal.old.marks.appended
        + record_len (record { number = number; time = time; info = info.now; body = body.now })
        ≤ journal.old.marks.ring }
    ensures appended { AppendsBy result (record { number = number; time = time; info = info.now; body = body.now })
        (kit_of journal.old.marks (D.tells disk.old)) (kit_of journal.new.marks (D.tells disk.new)) }
    ensures ring { journal.new.marks.ring ≡ journal.old.marks.ring }
    ensures kept { KeepsDisk (D.tells disk.old) (D.tells disk.new) }
{
    match journal.append(disk, number, time, info, body) {
        AppendEnd::Appended => Ok(()),
        AppendEnd::Full => unreachable!(),
        AppendEnd::DiskFault => Err(RecordEnd::DiskFault),
    }
}

// Frees the ring for the record of a product, and appends it.
fn append_in_place<D: Disk>(
    journal: &mut Journal,
    disk: &mut D,
    number: u64,
    time: Micros,
    info: &Info,
    body: &[u8],
) -> Result<(), RecordEnd>
    requires rises { journal.old.marks.next ≤ number }
    requires numbered { number < 2 ^ 64 - 1 }
    requires whole { length body.now ≡ info.now.size }
    requires fits { record_len (record { number = number; time = time; info = info.now; body = body.now })
        ≤ journal.old.marks.ring }
    ensures appended { ReplacesBy result (record { number = number; time = time; info = info.now; body = body.now })
        (kit_of journal.old.marks (D.tells disk.old)) (kit_of journal.new.marks (D.tells disk.new)) }
    ensures ring { journal.new.marks.ring ≡ journal.old.marks.ring }
    ensures kept { KeepsDisk (D.tells disk.old) (D.tells disk.new) }
{
    match save_on(journal, disk, record_bytes(info)) {
        Ok(()) => append_where_free(journal, disk, number, time, info, body),
        Err(why) => Err(why),
    }
}

// Writes a product into the journal, and lets the oldest go as far as its record needs room. It answers whether the
// ring is large enough at all.
pub(crate) fn keep<D: Disk>(
    journal: &mut Journal,
    disk: &mut D,
    number: u64,
    time: Micros,
    info: &Info,
    body: &[u8],
) -> Result<bool, RecordEnd>
    requires rises { journal.old.marks.next ≤ number }
    requires numbered { number < 2 ^ 64 - 1 }
    requires whole { length body.now ≡ info.now.size }
    ensures written { let product : Kept = record { number = number; time = time; info = info.now; body = body.now } in
        KeepsBy result product (keep_events journal.old.marks.ring product)
        (kit_of journal.old.marks (D.tells disk.old)) (kit_of journal.new.marks (D.tells disk.new)) }
    ensures ring { journal.new.marks.ring ≡ journal.old.marks.ring }
    ensures kept { KeepsDisk (D.tells disk.old) (D.tells disk.new) }
{
    if record_bytes(info) > journal.ring() {
        return Ok(false);
    }
    match journal.append(disk, number, time, info, body) {
        AppendEnd::Appended => Ok(true),
        AppendEnd::Full => match append_in_place(journal, disk, number, time, info, body) {
            Ok(()) => Ok(true),
            Err(why) => Err(why),
        },
        AppendEnd::DiskFault => Err(RecordEnd::DiskFault),
    }
}
