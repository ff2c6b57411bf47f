//! The metadata of the product of a file.
ghost use Rattle.std.specs.Prelude.{◌≡◌, ◌≤◌, length};
ghost use Rattle.ldm_relay.specs.Writable.{IsShortProduct};
ghost use Rattle.ldm_tools.specs.declared.limits.TheConstants.{LARGEST_FILE};
ghost use Rattle.ldm_tools.specs.Inserting.{IsNamed, ident_of, inserting, metadata_of};

use crate::insertion::Insertion;
use ldm_signature::sign;
use ldm_types::{Info, Micros};

/// The metadata of the product of a file, the one of that number, with this body, which was read at that instant.
pub(crate) fn metadata_of(
    insertion: &Insertion<'_>,
    number: u32,
    path: &str,
    body: &[u8],
    arrival: Micros,
) -> Info
    requires named { IsNamed (inserting insertion.now) path.now }
    requires short { length body.now ≤ LARGEST_FILE }
    ensures value { result ≡ metadata_of (inserting insertion.now)
        (record { number = number; path = path.now }) body.now arrival }
    ensures short { IsShortProduct result (length body.now) }
{
    let ident = ident_of(insertion, path);
    let signature = sign(if insertion.sign_ident { ident } else { body });
    match Info::new(
        arrival,
        signature,
        insertion.origin,
        insertion.feed,
        number,
        ident,
        body.len() as u32,
    ) {
        Ok(info) => info,
        Err(_) => unreachable!(),
    }
}

// The ident that is given, or the path.
fn ident_of<'a>(insertion: &Insertion<'a>, path: &'a str) -> &'a [u8]
    ensures { result.now ≡ ident_of (inserting insertion.now) path.now }
{
    match insertion.ident {
        Some(ident) => ident,
        None => path.as_bytes(),
    }
}
