//! What a word becomes.
ghost use Rattle.std.specs.Prelude.{◌≡◌, ◌∷◌, ◌++◌, [], IfOk, decimal, MatchOption, IfSome, true, false, string_bytes};
ghost use Rattle.std.specs.Str.{is_utf8};
ghost use Rattle.ldm_pqact_match.specs.Substitution.{last_digits};

use itoa::Buffer;
use ldm_types::OutOfMemory;
use std::alloc::Global;
use std::marker::Model;

/// What a word becomes. Contracts see its bytes.
#[derive(Drop)]
pub struct Text {
    bytes: Vec<u8>,
}

impl Model for Text {
    ghost use Rattle.std.specs.Prelude.{ℕ, List};

    ghost Value = { List ℕ };

    ghost view = { λ text. text.bytes.items };
}

impl Text {
    pub fn new(alloc: Global) -> Text
        ensures { result ≡ [] }
    {
        Text {
            bytes: Vec::new(alloc),
        }
    }

    pub fn push(&mut self, byte: u8) -> Result<(), OutOfMemory>
        ensures { IfOk result (λ _. self.new ≡ self.old ++ byte ∷ []) }
    {
        Ok(self.bytes.push(byte)?)
    }

    pub fn push_bytes(&mut self, bytes: &[u8]) -> Result<(), OutOfMemory>
        ensures { IfOk result (λ _. self.new ≡ self.old ++ bytes.now) }
    {
        Ok(self.bytes.extend_from_slice(bytes)?)
    }

    /// A number in decimal digits.
    pub fn push_number(&mut self, number: u32) -> Result<(), OutOfMemory>
        ensures { IfOk result (λ _. self.new ≡ self.old ++ decimal number) }
    {
        let mut buffer = Buffer::new();
        self.push_bytes(buffer.format(number).as_bytes())
    }

    /// The last so many decimal digits of a number.
    pub fn push_digits(&mut self, count: u32, number: u32) -> Result<(), OutOfMemory>
        ensures { IfOk result (λ _. self.new ≡ self.old ++ last_digits count number) }
    {
        if count == 0 {
            return Ok(());
        }
        self.push_digits(count - 1, number / 10)?;
        self.push(b'0' + (number % 10) as u8)
    }

    /// The word of an action that it is, if it is UTF-8.
    pub fn into_word(self) -> Option<String>
        ensures value { MatchOption result (is_utf8 self ≡ false) (λ word. string_bytes word ≡ self) }
        ensures text { IfSome result (λ _. is_utf8 self ≡ true) }
    {
        match String::from_utf8(self.bytes) {
            Ok(text) => Some(text),
            Err(_) => None,
        }
    }
}
