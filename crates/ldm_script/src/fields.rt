//! The fields of a line, one after another.
ghost use Rattle.std.specs.Prelude.{◌≡◌, ◌≤◌, ◌<◌, ◌==◌, false, IfOk, MatchResult, length, None};
ghost use Rattle.std.specs.List.{list_any};
ghost use Rattle.std.specs.Option.{option_map};
ghost use Rattle.ldm_signature.specs.HexSignature.{hex_signature};
ghost use Rattle.ldm_answers.specs.Number.{number_up_to, number_below, four_bytes as four_bytes_of, instant_of};
ghost use Rattle.ldm_script.specs.Grammar.{word_of_text, start_word_of_text, signature_of, feed_of, place_of, reserve_place_of};
ghost use Rattle.ldm_answers.specs.Texts.{text_up_to};
ghost use Rattle.ldm_script.specs.Bodies.{body_of};
ghost use Rattle.ldm_script.specs.OrderView.{bytes_of, IsBody};
ghost use Rattle.ldm_answers.specs.TextReads.{IsText, text_of};
ghost use Rattle.ldm_script.specs.Fields.{field, no_more};
ghost use Rattle.ldm_script.specs.FieldReads.{TakesField, Gives};
ghost use Rattle.ldm_script.specs.declared.line.TheConstants.{LONGEST_LINE};

use crate::body::{Body, read_body};
use crate::order::{Place, ReservePlace};
use crate::split::split_first;
use crate::word::{LineWord, StartWord};
use ldm_answers::{Spelled, read_number, read_number_below, read_text};
use ldm_feedtype::read_feed;
use ldm_model::ReserveNo;
use ldm_signature::read_hex;
use ldm_types::{CursorNo, Feed, LONGEST_IDENT, Micros, Signature};
use std::marker::Model;

// The last place of a cursor, and of a reservation.
const LAST_PLACE: u64 = 63;

/// A field: its text, and how many bytes there are from its first one to the end of the line.
#[derive(Clone, Copy)]
pub(crate) struct Field<'a> {
    pub text: &'a [u8],
    pub left: usize,
}

/// What is left of a line, as fields one blank apart.
///
/// Where a field cannot be read, or is missing, the error is how many bytes there are from that place to the end of
/// the line.
#[derive(Drop)]
pub(crate) struct Fields<'a> {
    rest: Option<&'a [u8]>,
}

impl<'a> Model for Fields<'a> {
    ghost use Rattle.ldm_script.specs.Fields.{Left};

    ghost Value = { Left };

    ghost use Rattle.ldm_script.specs.FieldsView.{left_of, IsShort};

    ghost view = { left_of };

    ghost invariant = { λ fields. IsShort (left_of fields) };
}

#[tactic(auto, using(crate::proofs::Taking::field_reads, crate::proofs::Taking::field_refuses, crate::proofs::Taking::field_missing))]
impl<'a> Fields<'a> {
    /// The fields of a line.
    pub fn of(line: &'a [u8]) -> Fields<'a>
        requires { length line.now ≤ LONGEST_LINE }
        ensures { result ≡ Some line.now }
    {
        Fields { rest: Some(line) }
    }

    /// The next field.
    pub fn next(&mut self) -> Result<Field<'a>, usize>
        ensures field { MatchResult result (λ found. TakesField self.old found.text.now found.left self.new)
            (λ bad. (self.old ≡ None) × (bad ≡ 0)) }
        ensures short { IfOk result (λ found. length found.text.now ≤ LONGEST_LINE) }
    {
        let Some(rest) = self.rest else {
            return Err(0);
        };
        let left = rest.len();
        let (text, behind) = split_first(rest, b' ');
        self.rest = behind;
        Ok(Field { text, left })
    }

    /// Nothing may be left.
    pub fn end(&self) -> Result<(), usize>
        ensures { result ≡ no_more self.now }
    {
        match self.rest {
            None => Ok(()),
            Some(rest) => Err(rest.len() + 1),
        }
    }

    /// A number, at most `most`.
    pub fn number(&mut self, most: u64) -> Result<u64, usize>
        ensures field { Gives (λ n. n) result (field (number_up_to most) self.old) self.new }
        ensures bound { IfOk result (λ n. n ≤ most) }
    {
        let field = self.next()?;
        read_number(field.text, most).ok_or(field.left)
    }

    /// A number below `limit`.
    pub fn number_below(&mut self, limit: u32) -> Result<u32, usize>
        ensures field { Gives (λ n. n) result (field (number_below limit) self.old) self.new }
        ensures bound { IfOk result (λ n. n < limit) }
    {
        let field = self.next()?;
        read_number_below(field.text, limit).ok_or(field.left)
    }

    /// An instant.
    pub fn instant(&mut self) -> Result<Micros, usize>
        ensures { Gives (λ n. n) result (field instant_of self.old) self.new }
    {
        let Some(instant) = Micros::new(self.number(Micros::MAX)?) else {
            unreachable!();
        };
        Ok(instant)
    }

    /// A number of four bytes.
    pub fn four_bytes(&mut self) -> Result<u32, usize>
        ensures { Gives (λ n. n) result (field four_bytes_of self.old) self.new }
    {
        Ok(self.number(u64::from(u32::MAX))? as u32)
    }

    /// A signature.
    pub fn signature(&mut self) -> Result<Signature, usize>
        ensures { Gives (λ s. s.0) result (field hex_signature self.old) self.new }
    {
        let field = self.next()?;
        read_hex(field.text).ok_or(field.left)
    }

    /// A signature, or none for `md5`.
    pub fn signature_or_md5(&mut self) -> Result<Option<Signature>, usize>
        ensures { Gives (option_map (λ s. s.0)) result (field signature_of self.old) self.new }
    {
        let field = self.next()?;
        if field.text == b"md5".as_slice() {
            return Ok(None);
        }
        match read_hex(field.text) {
            Some(signature) => Ok(Some(signature)),
            None => Err(field.left),
        }
    }

    /// The feedtypes that an expression without blanks means.
    pub fn feed(&mut self) -> Result<Feed, usize>
        ensures { Gives (λ feed. feed.0) result (field feed_of self.old) self.new }
    {
        let field = self.next()?;
        if field.text.contains(&b'\t') {
            return Err(field.left);
        }
        match read_feed(field.text) {
            Ok(feed) => Ok(feed),
            Err(_) => Err(field.left),
        }
    }

    /// The place of a cursor, or `.` for the one last opened.
    pub fn place(&mut self) -> Result<Place, usize>
        ensures { Gives (λ k. k) result (field place_of self.old) self.new }
    {
        let field = self.next()?;
        if field.text == b".".as_slice() {
            return Ok(Place::Last);
        }
        let number = read_number(field.text, LAST_PLACE).ok_or(field.left)?;
        let Some(k) = CursorNo::new(number as u32) else {
            unreachable!();
        };
        Ok(Place::At(k))
    }

    /// The place of a reservation, or `.` for the one last made.
    pub fn reserve_place(&mut self) -> Result<ReservePlace, usize>
        ensures { Gives (λ r. r) result (field reserve_place_of self.old) self.new }
    {
        let field = self.next()?;
        if field.text == b".".as_slice() {
            return Ok(ReservePlace::Last);
        }
        let number = read_number(field.text, LAST_PLACE).ok_or(field.left)?;
        let Some(r) = ReserveNo::new(number as u32) else {
            unreachable!();
        };
        Ok(ReservePlace::At(r))
    }

    /// A word of script lines.
    pub fn word(&mut self) -> Result<LineWord, usize>
        ensures { Gives (λ word. word) result (field word_of_text self.old) self.new }
    {
        let field = self.next()?;
        LineWord::of_text(field.text).ok_or(field.left)
    }

    /// A word that says where a cursor begins.
    pub fn start_word(&mut self) -> Result<StartWord, usize>
        ensures { Gives (λ word. word) result (field start_word_of_text self.old) self.new }
    {
        let field = self.next()?;
        StartWord::of_text(field.text).ok_or(field.left)
    }

    /// A text of at most `most` bytes, none of which is zero.
    pub fn text(&mut self, most: usize) -> Result<Spelled<'a>, usize>
        requires { most ≤ LONGEST_IDENT }
        ensures field { Gives (text_of most) result (field (text_up_to most) self.old) self.new }
        ensures text { IfOk result (IsText most) }
        ensures short { IfOk result (λ text. length (text_of most text) ≤ most) }
        ensures no_nul { IfOk result (λ text. list_any (λ byte. byte == 0) (text_of most text) ≡ false) }
    {
        let field = self.next()?;
        read_text(field.text, most).ok_or(field.left)
    }

    /// A body.
    pub fn body(&mut self) -> Result<Body<'a>, usize>
        ensures field { Gives bytes_of result (field body_of self.old) self.new }
        ensures body { IfOk result IsBody }
    {
        let field = self.next()?;
        read_body(field.text).ok_or(field.left)
    }
}
