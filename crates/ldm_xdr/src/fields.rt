//! The fields of a record, one behind another.
ghost use Rattle.std.specs.Prelude.{◌≡◌, ◌≤◌, ◌<◌, ◌^◌, ℕ, List, MatchResult, IfOk};
ghost use Rattle.std.specs.Prelude.{Ok, Err, length, take, nat_lt, position};
ghost use Rattle.std.specs.Int.{w32, w64};
ghost use Rattle.ldm_types.specs.Info.{pad4};
ghost use Rattle.ldm_xdr.specs.Fields.{number_in, up_to_in, exactly_in, padded_in};
ghost use Rattle.ldm_xdr.specs.Fields.{fixed_in, opaque_in, passed_in, no_more};
ghost use Rattle.ldm_xdr.specs.FieldReads.{Gives};
ghost use Rattle.ldm_xdr.specs.Reading.{place_of, info_in};
ghost use Rattle.ldm_xdr.specs.Spelling.{Fits as InfoFits};

use crate::fault::XdrFault;
use crate::length::padded;
use crate::reading::read_metadata;
use byteorder::{BigEndian, ByteOrder};
use ldm_types::Info;
use std::marker::Model;

/// What is left of a record, as fields one behind another.
///
/// Where a field cannot be read, the error is how many bytes there are from it to the end of the record.
#[derive(Drop)]
pub struct Fields<'a> {
    rest: &'a [u8],
}

impl<'a> Model for Fields<'a> {
    ghost use Rattle.std.specs.Prelude.{ℕ, List};

    ghost Value = { List ℕ };

    ghost use Rattle.ldm_xdr.specs.FieldsView.{left_of};

    ghost view = { left_of };
}

impl<'a> Fields<'a> {
    /// The fields of a record.
    pub fn of(bytes: &'a [u8]) -> Fields<'a>
        ensures { result ≡ bytes.now }
    {
        Fields { rest: bytes }
    }

    /// The same fields once more.
    pub fn again(&self) -> Fields<'a>
        ensures { result ≡ self.now }
    {
        Fields { rest: self.rest }
    }

    /// How many bytes are left.
    pub fn left(&self) -> usize
        ensures { result ≡ length self.now }
    {
        self.rest.len()
    }

    /// The bytes that are left.
    pub(crate) fn rest(&self) -> &'a [u8]
        ensures { result.now ≡ self.now }
    {
        self.rest
    }

    /// An unsigned number of four bytes.
    #[tactic(auto, unfolding(crate::specs::Fields::number_in))]
    pub fn unsigned(&mut self) -> Result<u32, usize>
        ensures { Gives (λ n. n) result (number_in w32 self.old) self.new }
    {
        let rest = self.rest;
        if rest.len() < 4 {
            return Err(rest.len());
        }
        let (front, behind) = rest.split_at(4);
        self.rest = behind;
        Ok(BigEndian::read_u32(front))
    }

    /// An unsigned number of eight bytes.
    #[tactic(auto, unfolding(crate::specs::Fields::number_in))]
    pub fn hyper(&mut self) -> Result<u64, usize>
        ensures { Gives (λ n. n) result (number_in w64 self.old) self.new }
    {
        let rest = self.rest;
        if rest.len() < 8 {
            return Err(rest.len());
        }
        let (front, behind) = rest.split_at(8);
        self.rest = behind;
        Ok(BigEndian::read_u64(front))
    }

    /// A number of four bytes, at most `most`.
    #[tactic(auto, unfolding(crate::specs::Fields::up_to_in))]
    pub fn up_to(&mut self, most: u32) -> Result<u32, usize>
        ensures field { Gives (λ n. n) result (up_to_in most self.old) self.new }
        ensures bound { IfOk result (λ n. n ≤ most) }
    {
        let left = self.left();
        let number = self.unsigned()?;
        if number > most {
            return Err(left);
        }
        Ok(number)
    }

    /// The number `given`, of four bytes.
    #[tactic(auto, unfolding(crate::specs::Fields::exactly_in))]
    pub fn exactly(&mut self, given: u32) -> Result<u32, usize>
        ensures { Gives (λ n. n) result (exactly_in given self.old) self.new }
    {
        let left = self.left();
        let number = self.unsigned()?;
        if number != given {
            return Err(left);
        }
        Ok(number)
    }

    /// So many bytes, and zero bytes up to a multiple of four. `field` is what was left at the field that they end.
    #[tactic(auto, unfolding(crate::specs::Fields::padded_in))]
    pub(crate) fn padded(&mut self, field: usize, count: u32) -> Result<&'a [u8], usize>
        ensures field { Gives (λ bytes. bytes.now) result (padded_in field count self.old) self.new }
        ensures front { IfOk result (λ bytes. bytes.now ≡ take count self.old) }
        ensures len { IfOk result (λ bytes. length bytes.now ≡ count) }
    {
        let rest = self.rest;
        let count = count as usize;
        let whole = padded(count);
        if rest.len() < whole {
            return Err(field);
        }
        let (front, behind) = rest.split_at(whole);
        let (bytes, padding) = front.split_at(count);
        if let Some(place) = other_byte(padding) {
            return Err(rest.len() - count - place);
        }
        self.rest = behind;
        Ok(bytes)
    }

    /// A fixed opaque of so many bytes.
    pub fn fixed(&mut self, count: u32) -> Result<&'a [u8], usize>
        ensures field { Gives (λ bytes. bytes.now) result (fixed_in count self.old) self.new }
        ensures len { IfOk result (λ bytes. length bytes.now ≡ count) }
    {
        let left = self.left();
        self.padded(left, count)
    }

    /// An opaque of at most `most` bytes.
    #[tactic(auto, unfolding(crate::specs::Fields::opaque_in))]
    pub fn opaque(&mut self, most: u32) -> Result<&'a [u8], usize>
        ensures field { Gives (λ bytes. bytes.now) result (opaque_in most self.old) self.new }
        ensures bound { IfOk result (λ bytes. length bytes.now ≤ most) }
    {
        let left = self.left();
        let count = self.up_to(most)?;
        self.padded(left, count)
    }

    /// Goes past an opaque of at most `most` bytes, whatever they are.
    #[tactic(auto, unfolding(crate::specs::Fields::passed_in))]
    pub fn pass(&mut self, most: u32) -> Result<(), usize>
        ensures { MatchResult result (λ _. passed_in most self.old ≡ Ok self.new)
            (λ bad. passed_in most self.old ≡ Err bad) }
    {
        let left = self.left();
        let count = self.up_to(most)? as usize;
        let whole = padded(count);
        let rest = self.rest;
        if rest.len() < whole {
            return Err(left);
        }
        self.rest = &rest[whole..];
        Ok(())
    }

    /// The metadata of a product.
    #[tactic(auto, unfolding(crate::specs::Reading::info_in))]
    pub fn info(&mut self) -> Result<Info, usize>
        ensures field { Gives (λ info. info) result (info_in self.old) self.new }
        ensures fits { IfOk result (λ info. InfoFits info) }
    {
        let left = self.left();
        match read_metadata(left, self) {
            Ok(info) => Ok(info),
            Err(fault) => Err(left.saturating_sub(place_in(fault))),
        }
    }

    /// Nothing may be left.
    pub fn end(&self) -> Result<(), usize>
        ensures { result ≡ no_more self.now }
    {
        if self.rest.is_empty() {
            Ok(())
        } else {
            Err(self.rest.len())
        }
    }
}

// The place, within metadata, that a fault names.
fn place_in(fault: XdrFault) -> usize
    ensures { result ≡ place_of fault }
{
    match fault {
        XdrFault::Short { at }
        | XdrFault::TooLong { at }
        | XdrFault::Padding { at }
        | XdrFault::Micros { at }
        | XdrFault::Nul { at } => at,
    }
}

// The place of the first byte that is not zero.
fn other_byte(bytes: &[u8]) -> Option<usize>
    ensures { result ≡ position (λ byte. nat_lt 0 byte) bytes.now }
{
    bytes.iter().position(|byte| *byte > 0)
}
