//! Cases of values and of what is written of them, of configuration files, of the tables of a queue and of its image.
#![tactic(auto)]

mod configuration;
mod images;
mod metadata;
mod queue;
mod records;
mod totals;
mod values;

use configuration::Kept;
use ldm_drive::{Trial, drive};
use metadata::{read_metadata, write_metadata};
use queue::Tables;
use records::messages::{
    head, made_message, read_as_call, read_as_refusal, read_as_reply, refusal_owed, with_room,
};
use records::mutated::{Sample, add_sample, mutate};
use records::pieces::{cuts, random_pieces};
use records::places::places;
use records::steps;
use std::alloc::Global;
use std::io;
use totals::report::tell_hour;
use totals::split::tell_split;
use totals::tell_steps;
use values::{
    actor, class_spec, copied_info, cursor, instant, made_info, memory, read_signature, sets_meet,
    sign_body,
};

// What earlier cases left.
#[derive(Drop)]
struct State {
    samples: Vec<Sample>,
    tables: Tables,
    configuration: Kept,
}

impl State {
    fn create(alloc: Global) -> Option<State> {
        Some(State {
            samples: Vec::new(alloc),
            tables: Tables::create(alloc)?,
            configuration: Kept::create(alloc)?,
        })
    }
}

// What the public calls that a case names answer.
fn answer(state: &mut State, trial: &mut Trial) {
    let name = trial.word();
    match name {
        "instant" => instant(trial),
        "actor" => actor(trial),
        "cursor" => cursor(trial),
        "meets" => sets_meet(trial),
        "info" => made_info(trial),
        "copy" => copied_info(trial),
        "class_spec" => class_spec(trial),
        "memory" => memory(trial),
        "sign" => sign_body(trial),
        "read_hex" => read_signature(trial),
        "write_info" => write_metadata(trial),
        "read_info" => read_metadata(trial),
        "hour" => tell_hour(trial),
        "table" => tell_steps(trial),
        "split" => tell_split(trial),
        "gaps" | "regions" | "signatures" | "times" | "cursors" => state.tables.answer(name, trial),
        "image" => images::answer(trial),
        _ => answer_of_records(name, state, trial),
    }
}

// The same of records and messages, and of configuration files.
fn answer_of_records(name: &str, state: &mut State, trial: &mut Trial) {
    match name {
        "records" => steps(trial),
        "cuts" => cuts(trial),
        "places" => places(trial),
        "random_pieces" => random_pieces(trial),
        "call" => read_as_call(trial),
        "reply" => read_as_reply(trial),
        "refusal" => read_as_refusal(trial),
        "made" => made_message(trial),
        "room" => with_room(trial),
        "head" => head(trial),
        "owed" => refusal_owed(trial),
        "sample" => add_sample(&mut state.samples, trial),
        "mutate" => mutate(&mut state.samples, trial),
        _ => state.configuration.answer(name, trial),
    }
}

fn main(rt: HostRuntime) -> io::Result<()> {
    let Some(mut state) = State::create(rt.alloc()) else {
        println!(rt; "no memory")?;
        return Ok(());
    };
    drive(&rt, |trial| answer(&mut state, trial))
}
