//! Appending products to a journal.
ghost use Rattle.std.specs.Prelude.{◌≡◌, ◌+◌, ◌-◌, ◌<◌, ◌≤◌, ◌^◌, ◌++◌, length, OnOk};
ghost use Rattle.ldm_disk.specs.Calls.{FileChanges, KeepsDisk, Rises};
ghost use Rattle.md5.specs.Md5.{md5};
ghost use Rattle.ldm_journal.specs.Appending.{Appends, EndsAppending, NumbersAppending, record_len};
ghost use Rattle.ldm_journal.specs.Sound.{IsSound};
ghost use Rattle.ldm_journal.specs.Pushing.{Pushes, grown};

use crate::journal::Journal;
use crate::marks::Marks;
use crate::push::push;
use crate::record::{FRAME, head_of, sum_of};
use ldm_disk::Disk;
use ldm_outside::Failed;
use ldm_types::{Info, Micros};
use ldm_xdr::info_len;

/// How appending a product ended.
#[derive(Clone, Copy, Debug, PartialEq, Eq)]
pub enum AppendEnd {
    /// Its record stands behind what was appended. A crash loses it until it is committed.
    Appended,
    /// The ring has no room for its record, and the disk was not called.
    Full,
    /// The disk failed, and its count of faults rose. Attach the file and open the journal again.
    DiskFault,
}

impl Journal {
    /// Writes the record of a product behind what was appended.
    pub fn append<D: Disk>(
        &mut self,
        disk: &mut D,
        number: u64,
        time: Micros,
        info: &Info,
        body: &[u8],
    ) -> AppendEnd
        requires rises { self.old.marks.next ≤ number }
        requires numbered { number < 2 ^ 64 - 1 }
        requires whole { length body.now ≡ info.now.size }
        ensures appended { FileChanges
            (Appends result (record { number = number; time = time; info = info.now; body = body.now })
            self.old.marks self.new.marks) (D.tells disk.old).file (D.tells disk.new).file }
        ensures ended { EndsAppending result (record { number = number; time = time; info = info.now; body = body.now })
            self.old.marks (D.tells disk.old) (D.tells disk.new) }
        ensures ring { self.new.marks.ring ≡ self.old.marks.ring }
        ensures numbered { NumbersAppending result number self.old.marks self.new.marks }
        ensures note { self.new.marks.note ≡ self.old.marks.note }
        ensures kept { KeepsDisk (D.tells disk.old) (D.tells disk.new) }
    {
        let len = (FRAME + info_len(info) + body.len()) as u64;
        if len > self.marks.ring - self.marks.used - self.marks.appended {
            return AppendEnd::Full;
        }
        let head = head_of(number, time, info);
        match push_record(&mut self.marks, disk, &head, body) {
            Ok(()) => {
                self.marks.next = number + 1;
                AppendEnd::Appended
            }
            Err(_) => AppendEnd::DiskFault,
        }
    }
}

// Writes what stands in front of a body, the body, and the sum of both.
fn push_record<D: Disk>(
    marks: &mut Marks,
    disk: &mut D,
    head: &[u8],
    body: &[u8],
) -> Result<(), Failed>
    requires sound { IsSound marks.old }
    requires room { marks.old.used + marks.old.appended + length head.now + length body.now + 16 ≤ marks.old.ring }
    ensures pushed { FileChanges (Pushes result marks.old ((head.now ++ body.now) ++ md5 (head.now ++ body.now)))
        (D.tells disk.old).file (D.tells disk.new).file }
    ensures grown { OnOk result (marks.new ≡ grown (length head.now + length body.now + 16) marks.old) }
    ensures sound { IsSound marks.new }
    ensures ring { marks.new.ring ≡ marks.old.ring }
    ensures note { marks.new.note ≡ marks.old.note }
    ensures failed { Rises result (D.tells disk.old) (D.tells disk.new) }
    ensures kept { KeepsDisk (D.tells disk.old) (D.tells disk.new) }
{
    let sum = sum_of(head, body);
    match push_both(marks, disk, head, body) {
        Ok(()) => push(marks, disk, &sum),
        Err(failed) => Err(failed),
    }
}

// Writes two pieces behind what was appended.
fn push_both<D: Disk>(
    marks: &mut Marks,
    disk: &mut D,
    first: &[u8],
    rest: &[u8],
) -> Result<(), Failed>
    requires sound { IsSound marks.old }
    requires room { marks.old.used + marks.old.appended + length first.now + length rest.now ≤ marks.old.ring }
    ensures pushed { FileChanges (Pushes result marks.old (first.now ++ rest.now)) (D.tells disk.old).file
        (D.tells disk.new).file }
    ensures grown { OnOk result (marks.new ≡ grown (length first.now + length rest.now) marks.old) }
    ensures sound { IsSound marks.new }
    ensures ring { marks.new.ring ≡ marks.old.ring }
    ensures note { marks.new.note ≡ marks.old.note }
    ensures failed { Rises result (D.tells disk.old) (D.tells disk.new) }
    ensures kept { KeepsDisk (D.tells disk.old) (D.tells disk.new) }
{
    match push(marks, disk, first) {
        Ok(()) => push(marks, disk, rest),
        Err(failed) => Err(failed),
    }
}
