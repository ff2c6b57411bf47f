//! Whole runs of the program over a world in memory, and lines of scripts: a driver, whose cases are in `stdin`.
#![tactic(auto)]

mod lines;
mod parts;
mod play;
mod scene;
mod streams;
mod telling;

use crate::lines::{coded_line, ident, line, stays};
use crate::play::{Play, begin_script, count, more, rounds, run};
use crate::scene::Scene;
use ldm_drive::{Trial, drive};
use std::io;
use std::sync::Wait;
use std::thread::Threads;

// What is said to a case.
fn answer<H: Threads + Wait + Sync>(rt: &H, play: &mut Play, scene: &mut Scene, trial: &mut Trial) {
    match trial.word() {
        "world" => *scene = Scene::new(trial.alloc()),
        "file" => scene.file(trial),
        "peer" => scene.peer(trial),
        "station" => scene.station(trial),
        "comes" => scene.comes(trial),
        "dials" => scene.dials(trial),
        "dial_fails" => scene.dial_fails(trial),
        "clock" => scene.clock(trial),
        "statuses" => scene.statuses(trial),
        "script" => scene.script(trial),
        "disk" => scene.disk(trial),
        "fails" => scene.fails(trial),
        "with" => scene.with(trial),
        "begin" => begin_script(scene, trial),
        "more" => more(scene, trial),
        "rounds" => rounds(scene, trial),
        "run" => run(rt, scene, trial),
        "count" => count(rt, scene, trial),
        "queue" => play.begin(rt, scene, trial),
        ">" => play.line(rt, scene, trial),
        "line" => line(trial),
        "coded" => coded_line(trial),
        "stays" => stays(trial),
        "ident" => ident(trial),
        _ => trial.refuse("no such word"),
    }
}

fn main(rt: HostRuntime) -> io::Result<()> {
    let mut play = Play::new(rt.alloc());
    let mut scene = Scene::new(rt.alloc());
    drive(&rt, |trial| answer(&rt, &mut play, &mut scene, trial))
}
