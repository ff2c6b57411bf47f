//! Images of queues, on a disk in memory.

mod answers;
mod files;
mod savings;

use crate::images::files::{
    bytes_of_case, changed_at, cut_at_each, each_byte, each_gate, open_case, with_surplus,
};
use crate::images::savings::{each_fault, each_stop};
use ldm_drive::Trial;

/// What is answered of the file of a queue that a case names.
pub fn answer(trial: &mut Trial) {
    match trial.word() {
        "open" => open_case(trial),
        "bytes" => bytes_of_case(trial),
        "cuts" => cut_at_each(trial),
        "gates" => each_gate(trial),
        "changes" => each_byte(trial),
        "surplus" => with_surplus(trial),
        "at" => changed_at(trial),
        "stops" => each_stop(trial),
        "faults" => each_fault(trial),
        _ => trial.refuse("no such word"),
    }
}
