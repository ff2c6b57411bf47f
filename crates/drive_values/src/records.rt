//! Records: a reader of records, a call at a time.

pub mod messages;
pub mod mutated;
pub mod pieces;
pub mod places;

use ldm_drive::Trial;
use ldm_rpc::Records;

/// `records LIMIT STEP ..`: what a reader of records of at most that many bytes answers to each step. A step is
/// `whole`, `next`, `pending`, or the bytes of a piece that is pushed.
pub fn steps(trial: &mut Trial) {
    let limit = trial.small();
    let mut records = Records::create(trial.alloc(), limit);
    for (place, step) in trial.rest().split(' ').enumerate() {
        if place > 0 {
            trial.tell(", ");
        }
        take(trial, &mut records, step);
    }
}

fn take(trial: &mut Trial, records: &mut Records, step: &str) {
    match step {
        "whole" => tell_content(trial, records),
        "next" => {
            records.next();
            trial.tell("next");
        }
        "pending" => trial.tell_value(&records.pending()),
        piece => push(trial, records, piece),
    }
}

fn tell_content(trial: &mut Trial, records: &Records) {
    match records.whole() {
        Some(content) => trial.tell_digits(content),
        None => trial.tell("None"),
    }
}

fn push(trial: &mut Trial, records: &mut Records, piece: &str) {
    let piece = trial.bytes_in(piece);
    if records.whole().is_some() {
        return trial.tell("a record is in hand");
    }
    trial.tell_debug(&records.push(&piece));
}
