//! Putting back what a journal keeps.
ghost use Rattle.std.specs.Prelude.{◌≡◌, ◌≤◌, ◌<◌, ◌++◌, [], ◌∷◌, ℕ, List, None, length, replicate};
ghost use Rattle.ldm_disk.specs.Calls.{FileChanges, KeepsDisk, KeepsFile};
ghost use Rattle.ldm_shared.specs.Passes.{IsPassOf, IsSamePass};
ghost use Rattle.ldm_journal.specs.Reading.{FaultRose};
ghost use Rattle.ldm_journal.specs.Records.{Kept};
ghost use Rattle.ldm_recorder.specs.Restoring.{AnswersLast, AreFound, IfNotRead, PutsBy, Restores, source_of};

use crate::end::RestoreEnd;
use crate::line::Line;
use ldm_disk::Disk;
use ldm_journal::Journal;
use ldm_model::{ExpireReply, InsertReply};
use ldm_shared::{Pass, Shared, Turn};
use ldm_types::{Info, Micros, Signature};
use std::alloc::Global;
use std::sync::Wait;

/// Inserts the products that a journal keeps, in order, each at the moment at which it was inserted before.
///
/// Where the queue has its signature the older copy had been evicted before this one came: then the oldest products are
/// evicted until the signature is free, or no product can be evicted any more. What the queue answers changes nothing
/// else: a product that is larger than the arena is passed over, for one.
///
/// For each line, `lasts` has then the signature of the product that it had last, if that was put back.
pub fn restore<H: Wait, D: Disk>(
    rt: &H,
    alloc: Global,
    shared: &Shared,
    pass: &mut Pass,
    journal: &Journal,
    disk: &mut D,
    lines: &[Line],
    lasts: &mut [Option<Signature>],
) -> RestoreEnd
    requires of { IsPassOf shared.now pass.old }
    requires one_each { length lasts.old ≡ length lines.now }
    ensures kept { IsSamePass pass.old pass.new }
    ensures restored { Restores result (source_of journal.now.marks (D.tells disk.old).file lines.now) lasts.new
        pass.old pass.new }
    ensures failed { IfNotRead result (λ fault. FaultRose fault (D.tells disk.old) (D.tells disk.new)) }
    ensures file { FileChanges KeepsFile (D.tells disk.old).file (D.tells disk.new).file }
    ensures disk { KeepsDisk (D.tells disk.old) (D.tells disk.new) }
{
    clear(lasts);
    let mut buffer = Vec::new(alloc);
    let mut reader = journal.reader();
    let mut count: u64 = 0;
    for _ in rt.forever() {
        let entry = match reader.next(disk, &mut buffer) {
            Ok(Some(entry)) => entry,
            Ok(None) => return RestoreEnd::Restored { count },
            Err(fault) => return RestoreEnd::NotRead(fault),
        };
        let end = entry.body_at + entry.info.size() as usize;
        let body = &buffer[entry.body_at..end];
        match put_back(rt, shared, pass, entry.time, &entry.info, body) {
            Turn::Done(()) => {
                count += 1;
                find_last(lines, lasts, entry.number, entry.info.signature());
            }
            Turn::Worn { .. } => return RestoreEnd::Worn,
        }
    }
    unreachable!()
}

// Inserts a product, and evicts the oldest where one of its signature is queued, until it is not.
fn put_back<H: Wait>(
    rt: &H,
    shared: &Shared,
    pass: &mut Pass,
    time: Micros,
    info: &Info,
    body: &[u8],
) -> Turn<()>
    requires of { IsPassOf shared.now pass.old }
    requires size { length body.now ≡ info.now.size }
    ensures kept { IsSamePass pass.old pass.new }
    ensures puts { (number : ℕ)
        → PutsBy result (record { number = number; time = time; info = info.now; body = body.now }) pass.old pass.new }
{
    for _ in rt.forever() {
        let reply = match shared.insert(rt, pass, time, info, body) {
            Turn::Done(reply) => reply,
            Turn::Worn { turns } => return Turn::Worn { turns },
        };
        if is_last(reply) {
            return Turn::Done(());
        }
        match shared.expire(rt, pass) {
            Turn::Done(ExpireReply::Expired { .. }) => {}
            Turn::Done(ExpireReply::Nothing) => return Turn::Done(()),
            Turn::Worn { turns } => return Turn::Worn { turns },
        }
    }
    unreachable!()
}

// Whether an insertion was answered otherwise than that its signature is queued.
fn is_last(reply: InsertReply) -> bool
    ensures { AnswersLast result reply }
{
    !matches!(reply, InsertReply::Duplicate { .. })
}

// Finds no product yet.
fn clear(lasts: &mut [Option<Signature>])
    ensures { lasts.new ≡ replicate (length lasts.old) None }
{
    for last in lasts.iter_mut() {
        *last = None;
    }
}

// Finds the product of that number, for the lines that had it last.
fn find_last(lines: &[Line], lasts: &mut [Option<Signature>], number: u64, signature: Signature)
    requires { length lasts.old ≡ length lines.now }
    ensures { (k : Kept) (kept : List Kept) → k.number ≡ number → k.info.signature ≡ signature.0
        → AreFound lines.now kept lasts.old
        → AreFound lines.now (kept ++ k ∷ []) lasts.new }
{
    for (i, line) in lines.iter().enumerate() {
        if line.last > 0 && line.last - 1 == number {
            lasts[i] = Some(signature);
        }
    }
}
