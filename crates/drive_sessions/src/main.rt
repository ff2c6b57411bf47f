//! Cases of sessions over links in memory: what a feeder sends and logs, and what a receiver takes, answers and logs;
//! what one who tells of products sends and logs, what one who watches sends and writes, what a server responds to
//! records, and what it does with a connection. And cases of pqact.conf: the entries of a text, what they do with a
//! product, actions that are carried out, and entries that act on the products of a queue.
#![tactic(auto)]

mod acting;
mod choice;
mod crowd;
mod entries;
mod feeding;
mod mutated;
mod notices;
mod outputs;
mod receiving;
mod responding;
mod serving;
mod steps;
mod watching;

use ldm_drive::{Trial, drive};
use ldm_pqact_conf::Entries;
use ldm_watch::NoticeForm;
use std::io;
use std::sync::Wait;
use std::thread::Threads;

// What the session or the entries that a case names come to.
fn answer<H: Threads + Wait + Sync>(rt: &H, kept: &mut Option<Entries>, trial: &mut Trial) {
    let name = trial.word();
    match name {
        "feed" => feeding::feed_case(rt, trial),
        "mutated" => mutated::mutated(rt, trial),
        "crowd" => crowd::crowd(rt, trial),
        "receive" => receiving::receive_case(rt, trial),
        "notify" => notices::notify_case(rt, trial),
        "watch" => watching::watch_case(trial, NoticeForm::Numbers),
        "watch_text" => watching::watch_case(trial, NoticeForm::Names),
        "respond" => responding::respond_case(rt, trial),
        "serve" => serving::serve_case(rt, trial),
        "pqact" | "pqact_of" => entries::read(name, kept, trial),
        "entry" => entries::entry(kept, trial),
        "found" => entries::found(kept, trial),
        "acts" => choice::acts(trial),
        "count" => choice::count(trial),
        "outputs" => outputs::outputs(trial),
        "every_store" => outputs::every(trial, false),
        "every_launch" => outputs::every(trial, true),
        "act" => acting::act_case(rt, trial),
        "every_act" => acting::every_act(rt, trial),
        _ => trial.refuse("no such word"),
    }
}

fn main(rt: HostRuntime) -> io::Result<()> {
    let mut kept = None;
    drive(&rt, |trial| answer(&rt, &mut kept, trial))
}
