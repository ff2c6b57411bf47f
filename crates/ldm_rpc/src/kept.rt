//! The content of the record in hand, of which a front may be all that is kept.
ghost use Rattle.std.specs.Prelude.{◌≡◌, ◌⊎◌, ◌^◌, ◌+◌, ◌-◌, ◌++◌, ◌<◌, ◌≤◌, OnOk, OnErr, length, take, min};
ghost use Rattle.std.specs.Prelude.{IfNone, IfSome, true, false, [], drop, vec_capacity, vec_len};
ghost use Rattle.ldm_rpc.specs.declared.kept.TheConstants.{LEAST_FRONT};
ghost use Rattle.ldm_rpc.specs.declared.records.TheConstants.{LARGEST_KEPT};

use crate::came::{Came, Coming};
use crate::filler::Filler;
use crate::records::LARGEST_KEPT;
use std::alloc::{AllocError, Global};
use std::marker::Model;

/// How many bytes at the front of a record's content are kept, at the least, of a record of which only a front is kept.
/// The longest class fits.
pub const LEAST_FRONT: usize = 10_240;

// The most bytes for which memory is taken before they come: a record with a product of 1 MiB fits. A longer one takes
// the rest as its bytes come.
const RESERVE_MOST: usize = 2_097_152;

/// The fewest bytes that are filled straight in: fewer are cheaper to copy than to ask for alone.
pub const LEAST_FILL: usize = 16_384;

// How many bytes are cleared at once for a filler to write: a record that does not come costs no more than these.
const CLEARED_AT_ONCE: usize = 262_144;

/// The content of the record in hand so far: the bytes that are kept, and how many came.
#[derive(Drop)]
pub(crate) struct Kept {
    // Those that are kept, and behind them bytes that may be anything: a filler writes there. They stay from record to
    // record, so that they are cleared once.
    bytes: Vec<u8>,
    filled: usize,
    // How many bytes came, those that are not kept too.
    len: u32,
    only_front: bool,
    came: Came,
}

impl Model for Kept {
    ghost use Rattle.ldm_rpc.specs.KeptView.{KeptView, kept_of, IsFrontKept};

    ghost Value = { KeptView };

    ghost view = { kept_of };

    ghost invariant = { IsFrontKept };
}

impl Kept {
    ghost use Rattle.ldm_rpc.specs.KeptView.{IsBounded, IsFrontOf};
    ghost use Rattle.ldm_rpc.specs.Filling.{grown};

    /// No byte yet, in no memory. All that come are kept.
    pub(crate) fn new(alloc: Global) -> Kept
        ensures { result ≡ record { content = []; kept = 0; only_front = false; memory = 0 } }
    {
        Kept {
            bytes: Vec::new(alloc),
            filled: 0,
            len: 0,
            only_front: false,
            came: Came::new(),
        }
    }

    /// How many bytes came.
    pub(crate) fn len(&self) -> u32
        ensures { result ≡ length self.now.content }
    {
        self.len
    }

    /// The bytes that are kept.
    pub(crate) fn front(&self) -> &[u8]
        ensures front { IsFrontOf self.now.content result.now }
        ensures len { length result.now ≡ self.now.kept }
    {
        &self.bytes[..self.filled]
    }

    /// More bytes come. Where only a front is kept, memory does not grow behind it.
    pub(crate) fn add(&mut self, piece: &[u8]) -> Result<(), AllocError>
        requires room { length self.old.content + length piece.now < 2 ^ 32 }
        ensures content { OnOk result (self.new.content ≡ self.old.content ++ piece.now) }
        ensures only_front { self.new.only_front ≡ self.old.only_front }
        ensures all { self.old.only_front ≡ false → OnOk result (self.new.kept ≡ self.old.kept + length piece.now) }
        ensures bounded { self.old.only_front ≡ true → IsBounded self.old self.new }
        ensures refused { OnErr result ((self.new.content ≡ self.old.content) × (self.new.kept ≡ self.old.kept)) }
    {
        let count = count_kept(self.only_front, self.filled, piece.len());
        put(&mut self.bytes, self.filled, &piece[..count])?;
        self.filled += count;
        self.len += piece.len() as u32;
        self.came = self.came.then(&Coming { bytes: piece });
        Ok(())
    }

    /// Takes memory ahead for so many bytes more, for [`RESERVE_MOST`] at most, so that it need not grow while they
    /// come. Where only a front is kept it takes none. Where there is no memory nothing changes, and it is no fault: the
    /// bytes themselves may find some.
    ///
    /// Memory that is taken and not written is not resident. So a record that is announced and does not come costs the
    /// bytes of it that came.
    pub(crate) fn reserve(&mut self, more: usize)
        ensures content { self.new.content ≡ self.old.content }
        ensures kept { self.new.kept ≡ self.old.kept }
        ensures only_front { self.new.only_front ≡ self.old.only_front }
        ensures bounded { self.old.only_front ≡ true → self.new.memory ≡ self.old.memory }
    {
        if self.only_front {
            return;
        }
        let wanted = self.filled.saturating_add(more.min(RESERVE_MOST));
        let _reserved = self
            .bytes
            .reserve_exact(wanted.saturating_sub(self.bytes.len()));
    }

    /// A filler puts more bytes, at most so many, straight behind those that came. `None` where bytes are kept no more,
    /// or there is no memory for more: then it was not asked.
    pub(crate) fn fill<S, F: Filler<S>>(
        &mut self,
        filler: &mut F,
        source: &mut S,
        most: usize,
    ) -> Option<usize>
        requires some { 0 < most }
        requires ready { F.can_fill source.old }
        requires room { length self.old.content + most < 2 ^ 32 }
        ensures none { IfNone result ((self.new.content ≡ self.old.content) × (filler.new ≡ filler.old)
            × (source.new ≡ source.old)) }
        ensures content { self.new.content ≡ self.old.content ++ grown self.old.content self.new.content }
        ensures count { IfSome result (λ n. (n ≡ length (grown self.old.content self.new.content)) × (n ≤ most)) }
        ensures gives { IfSome result
            (λ _. F.gives filler.old source.old (grown self.old.content self.new.content) filler.new source.new) }
        ensures only_front { self.new.only_front ≡ self.old.only_front }
        ensures kept { IfNone result (self.new.kept ≡ self.old.kept) }
        ensures all { IfSome result (λ n. self.new.kept ≡ self.old.kept + n) }
        ensures bounded { self.old.only_front ≡ true → self.new.memory ≡ self.old.memory }
    {
        if self.only_front {
            return None;
        }
        lengthen(&mut self.bytes, self.filled, most);
        let at = self.filled;
        let room = most.min(self.bytes.len() - at);
        if room == 0 {
            return None;
        }
        let count = fill_behind(filler, source, &mut self.bytes, at, room);
        self.came = self.came.then(&Coming {
            bytes: &self.bytes[at..at + count],
        });
        self.filled += count;
        self.len += count as u32;
        Some(count)
    }

    /// From here on bytes are kept up to the least front alone.
    pub(crate) fn keep_front(&mut self)
        ensures { self.new ≡ record self.old { only_front = true } }
    {
        self.only_front = true;
    }

    /// Forgets all, and keeps all that come from here on. A buffer of more than [`LARGEST_KEPT`] bytes is given back.
    pub(crate) fn clear(&mut self)
        ensures empty { self.new.content ≡ [] }
        ensures all { self.new.only_front ≡ false }
        ensures small { self.new.memory ≤ LARGEST_KEPT }
    {
        give_back(&mut self.bytes);
        self.filled = 0;
        self.len = 0;
        self.only_front = false;
        self.came = Came::new();
    }
}

// How many of so many bytes that come are kept, where so many are kept already.
fn count_kept(only_front: bool, kept: usize, coming: usize) -> usize
    ensures all { only_front ≡ false → result ≡ coming }
    ensures front { only_front ≡ true → result ≡ min coming (LEAST_FRONT - kept) }
{
    if only_front {
        coming.min(LEAST_FRONT.saturating_sub(kept))
    } else {
        coming
    }
}

// Puts bytes at a place of a buffer, over what stands there and behind it. No bytes take no memory.
fn put(buffer: &mut Vec<u8>, at: usize, bytes: &[u8]) -> Result<(), AllocError>
    requires { at ≤ vec_len buffer.old }
    ensures items { OnOk result (take (at + length bytes.now) buffer.new.items
        ≡ take at buffer.old.items ++ bytes.now) }
    ensures long { OnOk result (at + length bytes.now ≤ vec_len buffer.new) }
    ensures refused { OnErr result (take at buffer.new.items ≡ take at buffer.old.items) }
    ensures longer { OnErr result (at ≤ vec_len buffer.new) }
    ensures none { length bytes.now ≡ 0 → vec_capacity buffer.new ≡ vec_capacity buffer.old }
{
    if bytes.is_empty() {
        return Ok(());
    }
    let over = bytes.len().min(buffer.len() - at);
    buffer[at..at + over].copy_from_slice(&bytes[..over]);
    buffer.extend_from_slice(&bytes[over..])
}

// Makes room behind a place of a buffer, for so many bytes at most, where there is little and memory for more.
fn lengthen(buffer: &mut Vec<u8>, at: usize, most: usize)
    requires { at ≤ vec_len buffer.old }
    ensures front { take at buffer.new.items ≡ take at buffer.old.items }
    ensures longer { vec_len buffer.old ≤ vec_len buffer.new }
{
    let len = buffer.len();
    if len - at >= most.min(LEAST_FILL) {
        return;
    }
    let wanted = at.saturating_add(most.min(CLEARED_AT_ONCE)).max(len);
    let _grown = buffer.resize(wanted, 0);
}

// A filler puts bytes behind a place of a buffer, where there is that much room.
fn fill_behind<S, F: Filler<S>>(
    filler: &mut F,
    source: &mut S,
    buffer: &mut Vec<u8>,
    at: usize,
    room: usize,
) -> usize
    requires some { 0 < room }
    requires room { at + room ≤ vec_len buffer.old }
    requires ready { F.can_fill source.old }
    ensures front { take at buffer.new.items ≡ take at buffer.old.items }
    ensures len { vec_len buffer.new ≡ vec_len buffer.old }
    ensures within { result ≤ room }
    ensures gives { F.gives filler.old source.old (take result (drop at buffer.new.items)) filler.new source.new }
{
    filler.fill(source, &mut buffer[at..at + room])
}

// Gives a large buffer back.
fn give_back(buffer: &mut Vec<u8>)
    ensures { vec_capacity buffer.new ≤ LARGEST_KEPT }
{
    if buffer.capacity() > LARGEST_KEPT {
        *buffer = Vec::new(*buffer.allocator());
    }
}
