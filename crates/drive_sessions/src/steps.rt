//! A step of a case: an action and its body.

use ldm_actions::{Action, FileOptions, PipeOptions, Program};
use ldm_drive::{Trial, push, text_copied};

/// An action, the pieces of its body with a comma between two, and whether it is left unfinished.
#[derive(Drop)]
pub struct Step<'a> {
    pub action: Action,
    pub pieces: &'a str,
    pub is_left: bool,
}

// The program of these words, which have a plus sign between two, but for want of memory.
fn program(trial: &mut Trial, text: &str) -> Option<Program> {
    let mut words = Vec::new(trial.alloc());
    for word in text.split('+') {
        let word = text_copied(trial, word);
        push(trial, &mut words, word);
    }
    if words.is_empty() {
        return None;
    }
    Some(Program::new(words))
}

fn file_options(letters: &str) -> FileOptions {
    FileOptions {
        overwrite: letters.contains('o'),
        close: letters.contains('c'),
        flush: letters.contains('f'),
        strip: letters.contains('s'),
    }
}

fn pipe_options(letters: &str) -> PipeOptions {
    PipeOptions {
        close: letters.contains('c'),
        strip: letters.contains('s'),
    }
}

// The action of a name, on what is named, with options of one letter each.
fn action(trial: &mut Trial, name: &str, on: &str, letters: &str) -> Option<Action> {
    match name {
        "file" => Some(Action::ToFile {
            path: text_copied(trial, on),
            options: file_options(letters),
        }),
        "pipe" => Some(Action::ToProgram {
            program: program(trial, on)?,
            options: pipe_options(letters),
        }),
        "exec" => Some(Action::Start {
            program: program(trial, on)?,
            wait: letters.contains('w'),
        }),
        "noop" => Some(Action::Nothing),
        _ => None,
    }
}

/// The step that a word is: an action, what it is on, its options and the pieces, with a colon between two.
pub fn step_in<'a>(trial: &mut Trial, word: &'a str) -> Option<Step<'a>> {
    let (name, rest) = word.split_once(':')?;
    let (on, rest) = rest.split_once(':')?;
    let (options, pieces) = rest.split_once(':')?;
    Some(Step {
        action: action(trial, name, on, options)?,
        pieces,
        is_left: options.contains('h'),
    })
}
