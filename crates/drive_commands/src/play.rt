//! Scripts that grow from case to case, and the runs over them.

use crate::parts::{add_words, words_in};
use crate::scene::{Ran, Scene};
use crate::telling::tell_run;
use ldm_drive::Trial;
use std::alloc::Global;
use std::str::from_utf8;
use std::sync::Wait;
use std::thread::Threads;

/// A play that is begun: its words, and how many bytes of answers there were to the lines before.
#[derive(Drop)]
pub struct Play {
    words: Vec<String>,
    told: usize,
}

impl Play {
    pub fn new(alloc: Global) -> Play {
        Play {
            words: Vec::new(alloc),
            told: 0,
        }
    }

    /// `queue ARENA SLOTS`: begins a script of `ldm play ARENA SLOTS`, in a new world.
    pub fn begin<H: Threads + Wait + Sync>(
        &mut self,
        rt: &H,
        scene: &mut Scene,
        trial: &mut Trial,
    ) {
        *scene = Scene::new(trial.alloc());
        *self = Play::new(trial.alloc());
        add_words(trial, &mut self.words, "play");
        let line = trial.rest();
        add_words(trial, &mut self.words, line);
        self.tell(rt, scene, trial);
    }

    /// `> LINE`: one line more. The answer is what the play of all lines so far writes behind what it wrote before.
    pub fn line<H: Threads + Wait + Sync>(&mut self, rt: &H, scene: &mut Scene, trial: &mut Trial) {
        let line = trial.rest();
        scene.extend_script(trial, line.as_bytes());
        scene.extend_script(trial, b"\n");
        self.tell(rt, scene, trial);
    }

    // What is new of what is written, `-` for nothing, and where the status is another than 0, this and the log.
    fn tell<H: Threads + Wait + Sync>(&mut self, rt: &H, scene: &Scene, trial: &mut Trial) {
        let ran = scene.run(rt, trial, &self.words);
        let written = ran.world.streams.sink.written();
        match written.get(self.told..) {
            Some(fresh) => tell_fresh(trial, &ran, fresh),
            None => trial.refuse("an answer is gone"),
        }
        self.told = written.len();
    }
}

// Text without the newlines at its end.
fn trimmed(bytes: &[u8]) -> &str {
    match from_utf8(bytes) {
        Ok(text) => text.trim_end_matches('\n'),
        Err(_) => "no text",
    }
}

fn tell_fresh(trial: &mut Trial, ran: &Ran, fresh: &[u8]) {
    let text = trimmed(fresh);
    trial.tell(if text.is_empty() { "-" } else { text });
    if ran.status != 0 {
        trial.tell(" status ");
        trial.tell_value(&ran.status);
        trial.tell(" ");
        trial.tell(trimmed(ran.world.streams.log.written()));
    }
}

/// `begin TEXT`: the source of a new world gives this text. The answer is how many bytes it has.
pub fn begin_script(scene: &mut Scene, trial: &mut Trial) {
    *scene = Scene::new(trial.alloc());
    scene.script(trial);
    scene.tell_size(trial);
}

/// `more COUNT TEXT`: this text is added so many times.
pub fn more(scene: &mut Scene, trial: &mut Trial) {
    let count = trial.small();
    let text = trial.text();
    for _ in 0..count {
        scene.extend_script(trial, &text);
    }
    scene.tell_size(trial);
}

/// `rounds COUNT ACTORS TEXT`: so many times a line of each actor is added.
pub fn rounds(scene: &mut Scene, trial: &mut Trial) {
    let count = trial.small();
    let actors = trial.small();
    let text = trial.rest();
    for _ in 0..count {
        for actor in 0..actors {
            match format!(in trial.alloc(); "{actor} {text}\n") {
                Ok(line) => scene.extend_script(trial, line.as_bytes()),
                Err(_) => trial.lack_memory(),
            }
        }
    }
    scene.tell_size(trial);
}

/// `run WORD ..`: a run with these words, and all that it touched.
pub fn run<H: Threads + Wait + Sync>(rt: &H, scene: &Scene, trial: &mut Trial) {
    let words = words_in(trial);
    let ran = scene.run(rt, trial, &words);
    tell_run(trial, &ran);
}

/// `count WORD ..`: the status and what was written, of which equal lines in a row are told once, with their number.
pub fn count<H: Threads + Wait + Sync>(rt: &H, scene: &Scene, trial: &mut Trial) {
    let words = words_in(trial);
    let ran = scene.run(rt, trial, &words);
    trial.tell_value(&ran.status);
    match from_utf8(ran.world.streams.sink.written()) {
        Ok(text) => tell_lines(trial, text),
        Err(_) => trial.refuse("no text"),
    }
}

fn tell_lines(trial: &mut Trial, text: &str) {
    let mut last = "";
    let mut times = 0u64;
    for line in text.split('\n') {
        if line == last {
            times = times.saturating_add(1);
        } else {
            tell_times(trial, last, times);
            last = line;
            times = 1;
        }
    }
    tell_times(trial, last, times);
}

fn tell_times(trial: &mut Trial, line: &str, times: u64) {
    if !line.is_empty() {
        trial.tell(", ");
        trial.tell_value(&times);
        trial.tell(" of ");
        trial.tell(line);
    }
}
