//! The words of a case, and those of its answer.

use crate::Trial;
use std::fmt::Debug;

/// The bytes of a word as they stand there. `-` is no bytes.
pub fn bytes_in(word: &str) -> &[u8] {
    if word == "-" { b"" } else { word.as_bytes() }
}

/// The next word, which is numbers in the form of [`numbers_in`].
pub fn numbers(trial: &mut Trial) -> Vec<u64> {
    let word = trial.word();
    numbers_in(trial, word)
}

/// The numbers of a word, with a comma between two. `-` is no numbers.
pub fn numbers_in(trial: &mut Trial, word: &str) -> Vec<u64> {
    let mut numbers = Vec::new(trial.alloc());
    if word == "-" {
        return numbers;
    }
    for part in word.split(',') {
        match part.parse::<u64>() {
            Ok(number) => push(trial, &mut numbers, number),
            Err(_) => trial.refuse("a word is no list of numbers"),
        }
    }
    numbers
}

/// The rest of a case, which is text, or its next word, which is bytes.
pub fn text_or_bytes(trial: &mut Trial, is_text: bool) -> Vec<u8> {
    if is_text { trial.text() } else { trial.bytes() }
}

/// Adds an item to a list.
pub fn push<T: Drop>(trial: &mut Trial, items: &mut Vec<T>, item: T) {
    if items.push(item).is_err() {
        trial.lack_memory();
    }
}

/// Adds bytes to others.
pub fn extend(trial: &mut Trial, bytes: &mut Vec<u8>, more: &[u8]) {
    if bytes.extend_from_slice(more).is_err() {
        trial.lack_memory();
    }
}

/// A list of these items.
pub fn copied<T: Copy>(trial: &mut Trial, items: &[T]) -> Vec<T> {
    let alloc = trial.alloc();
    match items.to_vec(alloc) {
        Ok(items) => items,
        Err(_) => {
            trial.lack_memory();
            Vec::new(alloc)
        }
    }
}

/// A text of its own.
pub fn text_copied(trial: &mut Trial, text: &str) -> String {
    let alloc = trial.alloc();
    match String::from_str(alloc, text) {
        Ok(text) => text,
        Err(_) => {
            trial.lack_memory();
            String::new(alloc)
        }
    }
}

/// Adds a word to the answer, with a blank before it where it is not the first.
pub fn tell_word(trial: &mut Trial, word: &str) {
    if !trial.answer().is_empty() {
        trial.tell(" ");
    }
    trial.tell(word);
}

/// Adds a number.
pub fn tell_number(trial: &mut Trial, number: u64) {
    tell_word(trial, "");
    trial.tell_number(number);
}

/// Adds bytes as text; `-` for none, and `?` where they are none.
pub fn tell_bytes(trial: &mut Trial, bytes: &[u8]) {
    let word = if bytes.is_empty() {
        "-"
    } else {
        str::from_utf8(bytes).unwrap_or("?")
    };
    tell_word(trial, word);
}

/// Adds a name and a number.
pub fn tell_count(trial: &mut Trial, name: &str, number: u64) {
    tell_word(trial, name);
    tell_number(trial, number);
}

/// Adds a fault of a text: its line, its number and its name.
pub fn tell_fault<D: Debug>(trial: &mut Trial, line: u32, number: u8, kind: &D) {
    trial.tell("line ");
    trial.tell_value(&line);
    trial.tell(": ");
    trial.tell_value(&number);
    trial.tell(" ");
    trial.tell_debug(kind);
}
