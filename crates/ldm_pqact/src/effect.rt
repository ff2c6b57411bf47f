//! From an action that is chosen to one that is carried out.
ghost use Rattle.std.specs.Prelude.{◌≡◌, length, map, string_bytes};
ghost use Rattle.ldm_actions.specs.Hands.{action_of};
ghost use Rattle.ldm_pqact.specs.Effect.{effect_of, file_options, first_word, pipe_options};

use ldm_actions::{Action, FileOptions, PipeOptions, Program};
use ldm_pqact_conf::{ActionKind, Options};
use ldm_pqact_match::Action as ChosenAction;

/// What a chosen action does. Its words are moved.
pub fn output_of(action: ChosenAction) -> Action
    ensures { action_of result ≡ effect_of action }
{
    let options = action.options();
    match action.kind() {
        ActionKind::File | ActionKind::StdioFile => Action::ToFile {
            path: only_word(action.into_words()),
            options: options_of_file(options),
        },
        ActionKind::Pipe => Action::ToProgram {
            program: Program::new(action.into_words()),
            options: options_of_pipe(options),
        },
        ActionKind::Exec => Action::Start {
            program: Program::new(action.into_words()),
            wait: options.wait,
        },
        ActionKind::Noop => Action::Nothing,
    }
}

// The word of a list of one.
fn only_word(words: Vec<String>) -> String
    requires { length words.items ≡ 1 }
    ensures { string_bytes result ≡ first_word (map string_bytes words.items) }
{
    let mut words = words;
    match words.pop() {
        Some(word) => word,
        None => unreachable!(),
    }
}

fn options_of_file(options: Options) -> FileOptions
    ensures { result ≡ file_options options }
{
    FileOptions {
        overwrite: options.overwrite,
        close: options.close,
        flush: options.flush,
        strip: options.strip,
    }
}

fn options_of_pipe(options: Options) -> PipeOptions
    ensures { result ≡ pipe_options options }
{
    PipeOptions {
        close: options.close,
        strip: options.strip,
    }
}
