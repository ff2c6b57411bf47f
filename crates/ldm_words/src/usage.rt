//! What is wrong with words that are no form of their command.

use crate::fault::WordsFault;
use crate::limits::MOST_HOURS;
use crate::values::{is_name, read_class, read_peer};
use arrayvec::ArrayVec;
use ldm_answers::read_number;
use ldm_conf::read_port;
use ldm_feedtype::read_feed;
use ldm_outside::Reason;
use std::alloc::Global;

// The most bytes of a word in a reason.
const LONGEST_SHOWN: usize = 80;

// How many options are looked at for one that comes twice.
const MOST_SEEN: usize = 32;

// What an option or a word stands for.
#[derive(Clone, Copy, Debug, PartialEq, Eq)]
enum Kind {
    // nothing: the option has no value
    Flag,
    // a number of 64 bits
    Long,
    // a number of 32 bits
    Short,
    Port,
    // a count of products
    Count,
    // how long it is to the next asking
    Seconds,
    Hours,
    Feed,
    Pattern,
    // `HOST:PORT`
    Peer,
    Origin,
    Ident,
    // the path of a file
    Path,
}

/// What is wrong with the words behind the name of a command that takes options or names a file, such as `node: -a: 1G
/// is no number` or `pqinsert: no file is named`: the first fault from the left, and then what is missing. It is empty
/// where no more can be said.
pub fn why_usage(alloc: Global, command: &[u8], words: &[String]) -> Reason {
    let mut telling = Telling {
        command,
        why: Reason::new(),
    };
    telling.look(alloc, words);
    telling.why
}

// The words of a command, and what is wrong with them.
#[derive(Drop)]
struct Telling<'a> {
    command: &'a [u8],
    why: Reason,
}

// What a word is, and whether the next one belongs to it.
#[derive(Clone, Copy, Debug, PartialEq, Eq)]
enum Looked {
    // something is wrong with it, and was told
    Faulty,
    Alone,
    WithNext,
}

impl Telling<'_> {
    // Looks at all words, up to the first that is wrong.
    fn look(&mut self, alloc: Global, words: &[String]) {
        let mut seen = ArrayVec::new();
        let mut places = 0;
        let mut no_options = false;
        let mut skip = false;
        let mut odd = None;
        for at in 0..words.len() {
            let word = words[at].as_bytes();
            if skip {
                skip = false;
            } else if !no_options && word == b"--".as_slice() {
                no_options = true;
            } else if !no_options && is_option(word) {
                match self.look_at_option(alloc, word, word_at(words, at + 1), &mut seen) {
                    Looked::Faulty => return,
                    Looked::Alone => {}
                    Looked::WithNext => skip = true,
                }
            } else {
                if !self.look_at_place(alloc, places, word) {
                    return;
                }
                if odd.is_none() && !is_name(b"", word) {
                    odd = Some(at);
                }
                places = places.saturating_add(1);
            }
        }
        let named = if may_repeat(self.command) {
            places.saturating_add(seen.len())
        } else {
            places
        };
        if let Some(missing) = missing_at(self.command, named) {
            self.name();
            self.why.put(missing);
        } else if self.command == b"pqinsert".as_slice() && !seen.contains(&b'p') {
            self.refuse_path(words, odd);
        }
    }

    // A path is the ident of its product where no ident is named: this one cannot be.
    fn refuse_path(&mut self, words: &[String], at: Option<usize>) {
        let Some(at) = at else {
            return;
        };
        if let Some(path) = word_at(words, at) {
            self.name();
            self.show(path);
            self.why.put(b" is no ident: name one by -p");
        }
    }

    // Looks at a word that begins with a minus sign, and at the one behind it, where that is its value.
    fn look_at_option(
        &mut self,
        alloc: Global,
        word: &[u8],
        next: Option<&[u8]>,
        seen: &mut ArrayVec<u8, MOST_SEEN>,
    ) -> Looked {
        for at in 1..word.len() {
            let letter = word[at];
            let Some(kind) = kind_of(self.command, letter) else {
                self.refuse(word, b"no such option");
                return Looked::Faulty;
            };
            if seen.contains(&letter) && !may_repeat(self.command) {
                self.refuse_option(letter, b"given twice");
                return Looked::Faulty;
            }
            let _ = seen.try_push(letter);
            if kind != Kind::Flag {
                return self.look_at_value(alloc, letter, kind, &word[at + 1..], next);
            }
        }
        Looked::Alone
    }

    // Looks at the value of an option: the rest of its word, or the next word.
    fn look_at_value(
        &mut self,
        alloc: Global,
        letter: u8,
        kind: Kind,
        rest: &[u8],
        next: Option<&[u8]>,
    ) -> Looked {
        if let [first, others @ ..] = rest {
            let value = if *first == b'=' { others } else { rest };
            return self.look_at(alloc, letter, kind, value, Looked::Alone);
        }
        match next {
            Some(value) if !is_option(value) => {
                self.look_at(alloc, letter, kind, value, Looked::WithNext)
            }
            _ => {
                self.refuse_option(letter, b"has no value");
                Looked::Faulty
            }
        }
    }

    // Whether a value is one of that kind: what is answered then, or else it is told.
    fn look_at(
        &mut self,
        alloc: Global,
        letter: u8,
        kind: Kind,
        value: &[u8],
        then: Looked,
    ) -> Looked {
        if is_of_kind(alloc, kind, value) {
            return then;
        }
        self.name_option(letter);
        self.show(value);
        self.why.put(words_of(kind));
        Looked::Faulty
    }

    // Whether a word that is no option is right at its place. Else it is told.
    fn look_at_place(&mut self, alloc: Global, place: usize, word: &[u8]) -> bool {
        let Some(kind) = kind_at(self.command, place) else {
            self.refuse(word, b"one word too many");
            return false;
        };
        if is_of_kind(alloc, kind, word) {
            return true;
        }
        self.name();
        self.show(word);
        self.why.put(words_of(kind));
        false
    }

    // Puts the name of the command.
    fn name(&mut self) {
        self.why.put(self.command);
        self.why.put(b": ");
    }

    // Puts it with an option.
    fn name_option(&mut self, letter: u8) {
        self.name();
        self.why.put(&[b'-', letter]);
        self.why.put(b": ");
    }

    // Puts the front of a word.
    fn show(&mut self, word: &[u8]) {
        self.why.put(&word[..word.len().min(LONGEST_SHOWN)]);
    }

    fn refuse(&mut self, word: &[u8], words: &[u8]) {
        self.name();
        self.show(word);
        self.why.put(b": ");
        self.why.put(words);
    }

    fn refuse_option(&mut self, letter: u8, words: &[u8]) {
        self.name_option(letter);
        self.why.put(words);
    }
}

// Whether an option of the command may come more than once. Each names a file, as the words do.
fn may_repeat(command: &[u8]) -> bool {
    command == b"check".as_slice()
}

// Whether a word is read as options.
fn is_option(word: &[u8]) -> bool {
    word.len() > 1 && word[0] == b'-'
}

// The word at a place, if there is one.
fn word_at(words: &[String], at: usize) -> Option<&[u8]> {
    if at < words.len() {
        Some(words[at].as_bytes())
    } else {
        None
    }
}

// What the value of a command's option is, if it has one of this letter.
fn kind_of(command: &[u8], letter: u8) -> Option<Kind> {
    match command {
        b"node" => kind_of_node(letter),
        b"pqact" => match letter {
            b'q' => None,
            b's' => Some(Kind::Path),
            _ => kind_of_queueing(letter),
        },
        b"pqinsert" => kind_of_pqinsert(letter),
        b"pqcat" => kind_of_queueing(letter),
        b"notifyme" => match letter {
            b't' => Some(Kind::Flag),
            _ => kind_of_receiving(letter),
        },
        b"pqmon" => match letter {
            b'i' => Some(Kind::Seconds),
            b'q' => Some(Kind::Peer),
            _ => None,
        },
        b"check" => match letter {
            b'p' => Some(Kind::Path),
            _ => None,
        },
        b"wmo" => match letter {
            b'f' => Some(Kind::Feed),
            b'o' => Some(Kind::Origin),
            b's' => Some(Kind::Flag),
            b'q' => Some(Kind::Peer),
            _ => None,
        },
        b"pqstats" => match letter {
            b'w' => Some(Kind::Hours),
            b's' => Some(Kind::Flag),
            _ => kind_of_receiving(letter),
        },
        _ => None,
    }
}

fn kind_of_node(letter: u8) -> Option<Kind> {
    match letter {
        b'a' => Some(Kind::Long),
        b'S' => Some(Kind::Short),
        b'p' => Some(Kind::Port),
        b'w' => Some(Kind::Short),
        b'n' => Some(Kind::Short),
        b'x' => Some(Kind::Short),
        b'q' => Some(Kind::Path),
        b'e' => Some(Kind::Flag),
        _ => None,
    }
}

// Of a command that receives into a queue whose sizes are given.
fn kind_of_queueing(letter: u8) -> Option<Kind> {
    match letter {
        b'a' => Some(Kind::Long),
        b'S' => Some(Kind::Short),
        _ => kind_of_receiving(letter),
    }
}

fn kind_of_receiving(letter: u8) -> Option<Kind> {
    match letter {
        b'f' => Some(Kind::Feed),
        b'p' => Some(Kind::Pattern),
        b'c' => Some(Kind::Count),
        b'q' => Some(Kind::Peer),
        _ => None,
    }
}

fn kind_of_pqinsert(letter: u8) -> Option<Kind> {
    match letter {
        b'f' => Some(Kind::Feed),
        b'p' => Some(Kind::Ident),
        b'o' => Some(Kind::Origin),
        b'i' => Some(Kind::Flag),
        b'q' => Some(Kind::Peer),
        _ => None,
    }
}

// What a command's word at a place, from 0, is, if it has one there.
fn kind_at(command: &[u8], place: usize) -> Option<Kind> {
    match command {
        b"pqinsert" => Some(Kind::Path),
        b"check" => Some(Kind::Path),
        b"pqact" => match place {
            0 => Some(Kind::Path),
            1 => Some(Kind::Peer),
            _ => None,
        },
        b"save" => match place {
            0 => Some(Kind::Path),
            1 => Some(Kind::Long),
            2 => Some(Kind::Short),
            _ => None,
        },
        b"node" => one_path(place),
        b"resume" => one_path(place),
        b"pqcheck" => one_path(place),
        _ => None,
    }
}

fn one_path(place: usize) -> Option<Kind> {
    if place == 0 { Some(Kind::Path) } else { None }
}

// What is missing of a command that has so many words besides its options.
fn missing_at(command: &[u8], places: usize) -> Option<&'static [u8]> {
    match command {
        b"node" => missing_first(places, b"no configuration is named"),
        b"pqinsert" => missing_first(places, b"no file is named"),
        b"check" => missing_first(places, b"no file is named"),
        b"resume" => missing_first(places, b"no file is named"),
        b"pqcheck" => missing_first(places, b"no file is named"),
        b"pqact" => match places {
            0 => Some(b"no pqact.conf is named".as_slice()),
            1 => Some(b"no HOST:PORT is named".as_slice()),
            _ => None,
        },
        b"save" => match places {
            0 => Some(b"no file is named".as_slice()),
            1 => Some(b"no size of the arena is named".as_slice()),
            2 => Some(b"no number of slots is named".as_slice()),
            _ => None,
        },
        _ => None,
    }
}

fn missing_first(places: usize, words: &'static [u8]) -> Option<&'static [u8]> {
    if places == 0 { Some(words) } else { None }
}

// Whether a value is of a kind. Where there is no memory to see, it is taken for one.
fn is_of_kind(alloc: Global, kind: Kind, value: &[u8]) -> bool {
    match kind {
        Kind::Flag => true,
        Kind::Long => read_number(value, u64::MAX).is_some(),
        Kind::Short => read_number(value, u64::from(u32::MAX)).is_some(),
        Kind::Port => read_port(value).is_some(),
        Kind::Count => is_positive(value, u64::MAX),
        Kind::Seconds => is_positive(value, u64::from(u32::MAX)),
        Kind::Hours => is_positive(value, u64::from(MOST_HOURS)),
        Kind::Feed => read_feed(value).is_ok(),
        Kind::Pattern => is_pattern(alloc, value),
        Kind::Peer => read_peer(value).is_some(),
        Kind::Origin => is_name(value, b""),
        Kind::Ident => is_name(b"", value),
        Kind::Path => true,
    }
}

fn is_positive(value: &[u8], most: u64) -> bool {
    match read_number(value, most) {
        Some(n) => n > 0,
        None => false,
    }
}

fn is_pattern(alloc: Global, value: &[u8]) -> bool {
    match read_class(alloc, b"ANY", value) {
        Ok(_) => true,
        Err(WordsFault::OutOfMemory) => true,
        Err(WordsFault::Usage) => false,
    }
}

// What a word is that is none of a kind.
fn words_of(kind: Kind) -> &'static [u8] {
    match kind {
        Kind::Flag => b" is no flag",
        Kind::Long => b" is no number",
        Kind::Short => b" is no number below 4294967296",
        Kind::Port => b" is no port",
        Kind::Count => b" is no count of at least 1",
        Kind::Seconds => b" is no number from 1 to 4294967295",
        Kind::Hours => b" is no number from 1 to 8760",
        Kind::Feed => b" is no feedtype",
        Kind::Pattern => b" is no pattern",
        Kind::Peer => b" is no HOST:PORT",
        Kind::Origin => b" is no origin",
        Kind::Ident => b" is no ident",
        Kind::Path => b" is no path",
    }
}
