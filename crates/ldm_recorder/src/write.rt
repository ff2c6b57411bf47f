//! A product that is written into the journal, or told of where the journal has no room for it at all.
ghost use Rattle.std.specs.Prelude.{◌≡◌, ◌+◌, ◌<◌, ◌≤◌, ◌^◌, ◌-◌, [], length, OnOk};
ghost use Rattle.ldm_disk.specs.Calls.{KeepsDisk};
ghost use Rattle.ldm_shared.specs.Passes.{PassView};
ghost use Rattle.ldm_recorder.specs.Recording.{sight_at};
ghost use Rattle.ldm_recorder.specs.Taking.{WorksBy, writing};
ghost use Rattle.ldm_recorder.specs.Turns.{Who};

use crate::end::RecordEnd;
use crate::save::keep;
use ldm_disk::Disk;
use ldm_journal::Journal;
use ldm_outside::Sink;
use ldm_session::write_gap;
use ldm_types::{Info, Micros};

/// Writes a product, which the queue has under the number `n`, into the journal. Where its record is larger than the
/// ring the log says so.
pub(crate) fn write<D: Disk, E: Sink>(
    journal: &mut Journal,
    disk: &mut D,
    log: &mut E,
    number: u64,
    n: u64,
    time: Micros,
    info: &Info,
    body: &[u8],
) -> Result<(), RecordEnd>
    requires rises { journal.old.marks.next ≤ number }
    requires numbered { number < 2 ^ 64 - 1 }
    requires whole { length body.now ≡ info.now.size }
    ensures ring { journal.new.marks.ring ≡ journal.old.marks.ring }
    ensures next { OnOk result (journal.new.marks.next ≤ number + 1) }
    ensures written { (who : Who) (pass : PassView) → who.ring ≡ journal.old.marks.ring → WorksBy result
        (writing who n (record { number = number; time = time; info = info.now; body = body.now })) []
        (sight_at pass journal.old.marks (D.tells disk.old) (E.tells log.old))
        (sight_at pass journal.new.marks (D.tells disk.new) (E.tells log.new)) }
    ensures kept { KeepsDisk (D.tells disk.old) (D.tells disk.new) }
{
    match keep(journal, disk, number, time, info, body) {
        Ok(true) => Ok(()),
        Ok(false) => match write_gap(log, b"ring", 1, n, n) {
            Ok(()) => Ok(()),
            Err(_) => Err(RecordEnd::LogFault),
        },
        Err(why) => Err(why),
    }
}
