//! A case with its answer.

use crate::bytes::{bytes_in, text_in};
use std::alloc::Global;
use std::fmt::{Debug, Display};

/// A line of standard input, of which some words were taken, and its answer as far as it is told. A word that does not
/// read refuses the case, and is the least value of its type: the answer is then `bad case` and the first reason,
/// whatever is told.
#[derive(Drop)]
pub struct Trial<'a> {
    alloc: Global,
    rest: &'a str,
    told: String,
    is_refused: bool,
    is_out_of_memory: bool,
}

impl<'a> Trial<'a> {
    /// The trial of that line, before its first word.
    pub fn of(alloc: Global, line: &'a str) -> Trial<'a> {
        Trial {
            alloc,
            rest: line,
            told: String::new(alloc),
            is_refused: false,
            is_out_of_memory: false,
        }
    }

    /// The memory that values of the case are made in.
    pub fn alloc(&self) -> Global {
        self.alloc
    }

    // Whether the line is neither empty nor a comment.
    pub(crate) fn is_case(&self) -> bool {
        !self.rest.is_empty() && !self.rest.starts_with('#')
    }

    // Adds all that is left of the line.
    pub(crate) fn copy_line(&mut self) {
        let rest = self.rest();
        self.tell(rest);
    }

    // Refuses the case where words are left.
    pub(crate) fn end(&mut self) {
        if !self.is_done() {
            self.refuse("words are left");
        }
    }

    /// Whether all words were taken.
    pub fn is_done(&self) -> bool {
        self.rest.is_empty()
    }

    /// Whether the case was refused.
    pub fn is_refused(&self) -> bool {
        self.is_refused
    }

    /// Refuses the case, for a reason that is told where it is the first.
    pub fn refuse(&mut self, reason: &str) {
        if !self.is_refused {
            self.told.clear();
            self.tell("bad case: ");
            self.tell(reason);
            self.is_refused = true;
        }
    }

    /// Refuses the case for want of memory.
    pub fn lack_memory(&mut self) {
        self.is_out_of_memory = true;
    }

    /// The answer.
    pub fn answer(&self) -> &str {
        if self.is_out_of_memory {
            "bad case: no memory"
        } else {
            self.told.as_str()
        }
    }

    /// The next word.
    pub fn word(&mut self) -> &'a str {
        let (word, rest) = self.rest.split_once(' ').unwrap_or((self.rest, ""));
        if word.is_empty() {
            self.refuse("a word is missing");
        }
        self.rest = rest;
        word
    }

    /// All that is left of the line.
    pub fn rest(&mut self) -> &'a str {
        let rest = self.rest;
        self.rest = "";
        rest
    }

    /// The next word, which is a number.
    pub fn number(&mut self) -> u64 {
        match self.word().parse::<u64>() {
            Ok(number) => number,
            Err(_) => {
                self.refuse("a word is no number");
                0
            }
        }
    }

    /// The next word, which is a number below 2^32.
    pub fn small(&mut self) -> u32 {
        match self.word().parse::<u32>() {
            Ok(number) => number,
            Err(_) => {
                self.refuse("a word is no small number");
                0
            }
        }
    }

    /// The next word, which is bytes in the form of [`Trial::bytes_in`].
    pub fn bytes(&mut self) -> Vec<u8> {
        let word = self.word();
        self.bytes_in(word)
    }

    /// All that is left of the line, which is text in the form of [`Trial::text_in`].
    pub fn text(&mut self) -> Vec<u8> {
        let rest = self.rest();
        self.text_in(rest)
    }

    /// The next word, which is text; `-` is no bytes.
    pub fn word_text(&mut self) -> Vec<u8> {
        let word = self.word();
        self.text_in(if word == "-" { "" } else { word })
    }

    /// The bytes of a word in hexadecimal digits. `-` is no bytes. A word may be parts with `_` between them, and a
    /// part may say how often its bytes stand there: `80_16x00` is 17 bytes.
    pub fn bytes_in(&mut self, word: &str) -> Vec<u8> {
        match bytes_in(self.alloc, word) {
            Some(bytes) => bytes,
            None => {
                self.refuse("a word is no bytes");
                Vec::new(self.alloc)
            }
        }
    }

    /// The bytes of text in which `\n`, `\r`, `\t`, `\0` and `\\` stand for one byte each, and `\xHH` for the byte of
    /// these two hexadecimal digits.
    pub fn text_in(&mut self, text: &str) -> Vec<u8> {
        match text_in(self.alloc, text) {
            Some(bytes) => bytes,
            None => {
                self.refuse("a backslash with another letter");
                Vec::new(self.alloc)
            }
        }
    }

    /// Adds a text to the answer.
    pub fn tell(&mut self, text: &str) {
        if !self.is_refused && self.told.push_str(text).is_err() {
            self.lack_memory();
        }
    }

    /// Adds a number.
    pub fn tell_number(&mut self, number: u64) {
        self.tell_value(&number);
    }

    /// Adds a value as it is printed.
    pub fn tell_value<D: Display>(&mut self, value: &D) {
        if !self.is_refused && write!(self.told, "{value}").is_err() {
            self.lack_memory();
        }
    }

    /// Adds a value as it is shown for debugging.
    pub fn tell_debug<D: Debug>(&mut self, value: &D) {
        if !self.is_refused && write!(self.told, "{value:?}").is_err() {
            self.lack_memory();
        }
    }

    /// Adds bytes in hexadecimal digits, `-` for none.
    pub fn tell_digits(&mut self, bytes: &[u8]) {
        if bytes.is_empty() {
            return self.tell("-");
        }
        match hex::encode(self.alloc, bytes) {
            Ok(digits) => self.tell(digits.as_str()),
            Err(_) => self.lack_memory(),
        }
    }

    /// Adds bytes as Rust writes a text, with quotes and escapes. Bytes that are no text are `x` and their hexadecimal
    /// digits.
    pub fn tell_shown(&mut self, bytes: &[u8]) {
        match str::from_utf8(bytes) {
            Ok(text) => self.tell_debug(&text),
            Err(_) => {
                self.tell("x");
                self.tell_digits(bytes);
            }
        }
    }

    /// Adds bytes as text.
    pub fn tell_text(&mut self, bytes: &[u8]) {
        match str::from_utf8(bytes) {
            Ok(text) => self.tell(text),
            Err(_) => self.refuse("no text"),
        }
    }
}
