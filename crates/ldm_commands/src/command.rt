//! The words of the program as a command.
ghost use Rattle.std.specs.Prelude.{◌≡◌, true, IfSome, MatchOption, MatchResult, None, Some, map, string_bytes};
ghost use Rattle.ldm_commands.specs.Command.{command_of, crowd_of, exercise_of, has_file, has_options};
ghost use Rattle.ldm_commands.specs.Command.{take_memory, play_of, with_file, with_options};
ghost use Rattle.ldm_commands.specs.Doing.{IsUnread};
ghost use Rattle.ldm_commands.specs.Views.{IsWithin, form_of};

use ldm_answers::read_number;
use ldm_exercise::MOST_DRAWN;
use ldm_words::{
    ActWords, CatWords, ChainWords, CheckWords, InsertWords, MonWords, NodeWords, NoticesWords,
    SaveWords, StatsWords, WmoWords, WordsFault, read_chain, read_check, read_file, read_node,
    read_notifyme, read_pqact, read_pqcat, read_pqinsert, read_pqmon, read_pqstats, read_save,
    read_wmo,
};
use std::alloc::Global;

/// What the words of the program ask for.
#[derive(Drop)]
pub enum Command<'a> {
    /// `play ARENA SLOTS`: to play a script over a queue whose arena has so many bytes, and which has so many slots.
    Play {
        arena: u64,
        slots: u32,
    },
    /// `crowd ARENA SLOTS WORKERS`: to play a script over such a queue, each actor's lines on one of so many workers.
    Crowd {
        arena: u64,
        slots: u32,
        workers: u32,
    },
    /// `exercise NUMBER COUNT`: to play so many orders that are drawn from a number, and sum the answers up.
    Exercise {
        number: u64,
        count: u32,
    },
    /// `chain ..`: to feed a chain of queues from a script.
    Chain(ChainWords<'a>),
    /// `node ..`: to run a node.
    Node(NodeWords<'a>),
    /// `pqact ..`: to act on the products of a node.
    Pqact(ActWords<'a>),
    /// `pqinsert ..`: to put files into the queue of a node.
    Pqinsert(InsertWords<'a>),
    /// `pqcat ..`: to write the bodies of the products of a node.
    Pqcat(CatWords),
    /// `notifyme ..`: to write a line for each product of a node.
    Notifyme(NoticesWords),
    /// `pqmon ..`: to write the figures of a node's queue, once or again and again.
    Pqmon(MonWords),
    /// `wmo ..`: to put the bulletins of a stream into the queue of a node.
    Wmo(WmoWords<'a>),
    /// `pqstats ..`: to write how much of the products of a node came in each hour.
    Pqstats(StatsWords),
    /// `save FILE ARENA SLOTS`: to play a script over a queue, and save the queue in a file.
    Save(SaveWords<'a>),
    /// `resume FILE`: to open the queue in a file, play a script over it, and save it there.
    Resume(&'a str),
    /// `pqcheck FILE`: to write the figures of the queue in a file.
    Pqcheck(&'a str),
    /// `check ..`: to write what is wrong with configuration files.
    Check(CheckWords<'a>),
}

/// Reads the words behind the program's name. [`WordsFault::Usage`] comes exactly where they are no form of a command,
/// and [`WordsFault::OutOfMemory`] only at the words of a chain and of a command that has options.
pub fn read_command<'a>(alloc: Global, words: &'a [String]) -> Result<Command<'a>, WordsFault>
    ensures { let said = map string_bytes words.entry.now in let form = command_of said in
        MatchResult result (λ command. (form ≡ Some (form_of command)) × IsWithin (form_of command))
        (IsUnread form (take_memory said)) }
{
    let [first, others @ ..] = words else {
        return Err(WordsFault::Usage);
    };
    let word = first.as_bytes();
    if word == b"play".as_slice() {
        read_play(others).ok_or(WordsFault::Usage)
    } else if word == b"crowd".as_slice() {
        read_crowd(others).ok_or(WordsFault::Usage)
    } else if word == b"exercise".as_slice() {
        read_exercise(others).ok_or(WordsFault::Usage)
    } else if word == b"chain".as_slice() {
        Ok(Command::Chain(read_chain(alloc, others)?))
    } else {
        read_with_options(alloc, word, others)
    }
}

// Reads the words behind that of a command with options.
fn read_with_options<'a>(
    alloc: Global,
    word: &[u8],
    words: &'a [String],
) -> Result<Command<'a>, WordsFault>
    ensures { let form = with_options word.now (map string_bytes words.entry.now) in
        MatchResult result (λ command. (form ≡ Some (form_of command)) × IsWithin (form_of command))
        (IsUnread form (has_options word.now)) }
{
    if word == b"node".as_slice() {
        Ok(Command::Node(read_node(alloc, words)?))
    } else if word == b"pqact".as_slice() {
        Ok(Command::Pqact(read_pqact(alloc, words)?))
    } else if word == b"pqinsert".as_slice() {
        Ok(Command::Pqinsert(read_pqinsert(alloc, words)?))
    } else if word == b"pqcat".as_slice() {
        Ok(Command::Pqcat(read_pqcat(alloc, words)?))
    } else if word == b"notifyme".as_slice() {
        Ok(Command::Notifyme(read_notifyme(alloc, words)?))
    } else if word == b"pqmon".as_slice() {
        Ok(Command::Pqmon(read_pqmon(alloc, words)?))
    } else if word == b"wmo".as_slice() {
        Ok(Command::Wmo(read_wmo(alloc, words)?))
    } else if word == b"pqstats".as_slice() {
        Ok(Command::Pqstats(read_pqstats(alloc, words)?))
    } else {
        read_with_file(alloc, word, words)
    }
}

// Reads the words behind that of a command about files.
fn read_with_file<'a>(
    alloc: Global,
    word: &[u8],
    words: &'a [String],
) -> Result<Command<'a>, WordsFault>
    ensures { let form = with_file word.now (map string_bytes words.entry.now) in
        MatchResult result (λ command. (form ≡ Some (form_of command)) × IsWithin (form_of command))
        (IsUnread form (has_file word.now)) }
{
    if word == b"save".as_slice() {
        Ok(Command::Save(read_save(alloc, words)?))
    } else if word == b"resume".as_slice() {
        Ok(Command::Resume(read_file(alloc, words)?))
    } else if word == b"pqcheck".as_slice() {
        Ok(Command::Pqcheck(read_file(alloc, words)?))
    } else if word == b"check".as_slice() {
        Ok(Command::Check(read_check(alloc, words)?))
    } else {
        Err(WordsFault::Usage)
    }
}

// Reads the words behind `play`.
fn read_play<'a>(words: &[String]) -> Option<Command<'a>>
    ensures { let form = play_of (map string_bytes words.now) in
        MatchOption result (form ≡ None) (λ command. (form ≡ Some (form_of command)) × IsWithin (form_of command)) }
{
    let [arena, slots] = words else {
        return None;
    };
    let arena = read_number(arena.as_bytes(), u64::MAX)?;
    let slots = read_number(slots.as_bytes(), u64::from(u32::MAX))?;
    Some(Command::Play {
        arena,
        slots: slots as u32,
    })
}

// Reads the words behind `crowd`.
fn read_crowd<'a>(words: &[String]) -> Option<Command<'a>>
    ensures { let form = crowd_of (map string_bytes words.now) in
        MatchOption result (form ≡ None) (λ command. (form ≡ Some (form_of command)) × IsWithin (form_of command)) }
{
    let [arena, slots, workers] = words else {
        return None;
    };
    let arena = read_number(arena.as_bytes(), u64::MAX)?;
    let slots = read_number(slots.as_bytes(), u64::from(u32::MAX))?;
    let workers = read_number(workers.as_bytes(), u64::from(u32::MAX))?;
    Some(Command::Crowd {
        arena,
        slots: slots as u32,
        workers: workers as u32,
    })
}

// Reads the words behind `exercise`.
fn read_exercise<'a>(words: &[String]) -> Option<Command<'a>>
    ensures { let form = exercise_of (map string_bytes words.now) in
        MatchOption result (form ≡ None) (λ command. (form ≡ Some (form_of command)) × IsWithin (form_of command)) }
{
    let [number, count] = words else {
        return None;
    };
    let number = read_number(number.as_bytes(), u64::MAX)?;
    let count = read_number(count.as_bytes(), u64::from(MOST_DRAWN))?;
    Some(Command::Exercise {
        number,
        count: count as u32,
    })
}
