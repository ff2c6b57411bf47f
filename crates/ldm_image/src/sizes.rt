//! What stands in front of the rows of an image.
ghost use Rattle.std.specs.Prelude.{◌≡◌, ◌+◌, ◌<◌, ◌≤◌, ◌^◌, List, ℕ, take};
ghost use Rattle.ldm_types.specs.declared.limits.TheConstants.{GREATEST_INSTANT};
ghost use Rattle.ldm_book.specs.Restoring.{end_of_times};
ghost use Rattle.ldm_image.specs.Reading.{NumberIs};
ghost use Rattle.ldm_image.specs.Sizes.{JudgesOpening, JudgesSizes};

use crate::gate::CLEAN;
use crate::open::ImageFault;
use byteorder::{BigEndian, ByteOrder};
use ldm_types::{ARENA_UNIT, GREATEST_INSTANT, LARGEST_ARENA, MOST_SLOTS, Micros, SMALLEST_ARENA};

/// Bytes in front of the rows.
pub(crate) const HEAD: u64 = 48;

// The opening of an image that was written whole.
const OPENING: [u8; 8] = [76, 68, 77, 81, 1, 1, 0, 0];

// Where the field begins that each byte of it is of.
const FIELDS: [u64; 8] = [0, 0, 0, 0, 4, 5, 6, 6];

/// The numbers in front of the rows.
#[derive(Clone, Copy)]
pub(crate) struct Sizes {
    /// Bytes of the arena.
    pub(crate) arena: u64,
    pub(crate) slots: u32,
    pub(crate) admitted: u64,
    /// The last insertion time and one more, or 0.
    pub(crate) end: u64,
    /// The last insertion time.
    pub(crate) last: Option<Micros>,
    /// How many rows there are.
    pub(crate) count: u32,
}

/// The numbers in front of the rows, from the first bytes of the file: 48 of them, or all of a file that is shorter. An
/// error is the first that is not lawful.
pub(crate) fn read_sizes(head: &[u8]) -> Result<Sizes, ImageFault>
    ensures { (file : List ℕ) → head.now ≡ take 48 file → JudgesSizes result file }
{
    if let Some(fault) = opening_fault(head) {
        return Err(fault);
    }
    let Some(arena) = number_in(head, 8) else {
        return Err(ImageFault::BadImage { at: 8 });
    };
    if arena % ARENA_UNIT != 0 || arena < SMALLEST_ARENA || arena > LARGEST_ARENA {
        return Err(ImageFault::BadImage { at: 8 });
    }
    let Some(slots) = number_in(head, 16) else {
        return Err(ImageFault::BadImage { at: 16 });
    };
    if slots == 0 || slots > u64::from(MOST_SLOTS) {
        return Err(ImageFault::BadImage { at: 16 });
    }
    let Some(admitted) = number_in(head, 24) else {
        return Err(ImageFault::BadImage { at: 24 });
    };
    let Some(end) = number_in(head, 32) else {
        return Err(ImageFault::BadImage { at: 32 });
    };
    if end > GREATEST_INSTANT + 1 || admitted > end || admitted < end.min(1) {
        return Err(ImageFault::BadImage { at: 32 });
    }
    let Some(count) = number_in(head, 40) else {
        return Err(ImageFault::BadImage { at: 40 });
    };
    if count > slots {
        return Err(ImageFault::BadImage { at: 40 });
    }
    Ok(Sizes {
        arena,
        slots: slots as u32,
        admitted,
        end,
        last: last_of(end),
        count: count as u32,
    })
}

// The last insertion time, by the time behind it.
fn last_of(end: u64) -> Option<Micros>
    requires { end ≤ GREATEST_INSTANT + 1 }
    ensures { end_of_times result ≡ end }
{
    if end == 0 { None } else { Micros::new(end - 1) }
}

// What keeps the opening from being that of an image, if anything does.
fn opening_fault(head: &[u8]) -> Option<ImageFault>
    ensures { (file : List ℕ) → head.now ≡ take 48 file → JudgesOpening result file }
{
    if head.len() > 5 && head[5] != CLEAN {
        return Some(ImageFault::Unclean { gate: head[5] });
    }
    let mut i = 0;
    while i < 8 {
        if head.len() <= i || head[i] != OPENING[i] {
            return Some(ImageFault::BadImage { at: FIELDS[i] });
        }
        i += 1;
    }
    None
}

/// The number in the eight bytes at a place. `None` where they are not all there.
pub(crate) fn number_in(bytes: &[u8], at: usize) -> Option<u64>
    requires { at < 2 ^ 40 }
    ensures { NumberIs result at bytes.now }
{
    if bytes.len() < at + 8 {
        return None;
    }
    Some(BigEndian::read_u64(&bytes[at..]))
}
