//! Cases of the outside. The forms of the system: streams, files, programs, the clock, the gate and links over TCP;
//! and, behind the word `memory`, those in memory.
#![tactic(auto)]

mod desks;
mod disk;
mod doors;
mod file;
mod files;
mod gates;
mod links;
mod memory_gates;
mod memory_streams;
mod nets;
mod programs;
mod streams;
mod system;
mod tcp;

use ldm_drive::{Trial, drive};
use std::io;
use std::rt::HostRuntime;

// What the form that a case names answers.
fn answer(rt: HostRuntime, trial: &mut Trial) {
    match trial.word() {
        "source" => streams::source(trial),
        "sink" => streams::sink(trial, false),
        "gathered" => streams::sink(trial, true),
        "disk" => disk::disk(rt, trial),
        "file" => file::file(rt, trial),
        "desk" => desks::desk(rt, trial),
        "shell" => system::run_shell(rt, trial),
        "missing" => system::missing(rt, trial),
        "late" => system::late(rt, trial),
        "ended" => system::ended(rt, trial),
        "kept" => system::kept(rt, trial),
        "detached" => system::detached(rt, trial),
        "beside" => system::beside(rt, trial),
        "tcp" => tcp::tcp(rt, trial),
        "time" => gates::time(rt, trial),
        "rest" => gates::rest(rt, trial),
        "memory" => in_memory(trial),
        _ => trial.refuse("no such word"),
    }
}

// What the form in memory that a case names answers.
fn in_memory(trial: &mut Trial) {
    match trial.word() {
        "source" => memory_streams::source(trial),
        "sure_source" => memory_streams::sure_source(trial),
        "sink" => memory_streams::sink(trial),
        "write_all" => memory_streams::write_wholes(trial),
        "sure_sink" => memory_streams::sure_sink(trial),
        "recv" => links::recv(trial),
        "send" => links::send(trial),
        "close" => links::close(trial),
        "rewrite" => files::rewrite_file(trial),
        "read" => files::read_files(trial),
        "append" => files::append_piece(trial),
        "turns" => files::turn_file(trial),
        "run" => programs::run(trial),
        "unpiped" => programs::unpiped(trial),
        "detached" => programs::detached(trial),
        "clock" => memory_gates::clock(trial),
        "gate" => memory_gates::gate(trial),
        "open_gate" => memory_gates::open_gate(trial),
        "door" => doors::door(trial),
        "dial" => doors::dial(trial),
        "net" => nets::net(trial),
        "net_dial" => nets::net_dial(trial),
        "site" => desks::site(trial),
        _ => trial.refuse("no such word"),
    }
}

fn main(rt: HostRuntime) -> io::Result<()> {
    drive(&rt, |trial| answer(rt, trial))
}
