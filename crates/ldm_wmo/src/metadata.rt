//! The metadata of the product of a bulletin.
ghost use Rattle.std.specs.Prelude.{◌≡◌, ◌≤◌, None, length};
ghost use Rattle.ldm_types.specs.Info.{texts_fault};
ghost use Rattle.ldm_relay.specs.Writable.{IsShortProduct};
ghost use Rattle.ldm_wmo.specs.declared.stage.TheConstants.{LARGEST_BULLETIN};
ghost use Rattle.ldm_wmo.specs.Ingesting.{from_heading, ingesting, metadata_of};

use crate::ingestion::Ingestion;
use ldm_signature::sign;
use ldm_text::place_of;
use ldm_types::{Info, Micros};

// The bytes of a bulletin before its number, and those behind the number's line.
const BEFORE_NUMBER: usize = 4;

const BEHIND_NUMBER: usize = 3;

/// The metadata of the product of a bulletin with that number and heading, which was complete at that instant.
pub(crate) fn metadata_of(
    ingestion: &Ingestion<'_>,
    seqno: u32,
    heading: &[u8],
    bytes: &[u8],
    arrival: Micros,
) -> Info
    requires named { texts_fault ingestion.now.origin.now heading.now ≡ None }
    requires short { length bytes.now ≤ LARGEST_BULLETIN }
    ensures value { result ≡ metadata_of (ingesting ingestion.now)
        (record { seqno = seqno; heading = heading.now; bytes = bytes.now }) arrival }
    ensures short { IsShortProduct result (length bytes.now) }
{
    match Info::new(
        arrival,
        sign(from_heading(bytes)),
        ingestion.origin,
        ingestion.feed,
        seqno,
        heading,
        bytes.len() as u32,
    ) {
        Ok(info) => info,
        Err(_) => unreachable!(),
    }
}

// The bytes of a bulletin from its heading on.
fn from_heading(bytes: &[u8]) -> &[u8]
    ensures { result.now ≡ from_heading bytes.now }
{
    let number = &bytes[BEFORE_NUMBER.min(bytes.len())..];
    let start = BEFORE_NUMBER + place_of(b'\r', number) + BEHIND_NUMBER;
    &bytes[start.min(bytes.len())..]
}
