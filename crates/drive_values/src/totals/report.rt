//! What a table answers.

use ldm_drive::Trial;
use ldm_signature::{sign, write_hex};
use ldm_stats::{LAST_HOUR, Stats, hour_text};
use ldm_types::OutOfMemory;

// The most bytes of a report that is told whole.
const LONGEST_TOLD: usize = 4000;

// What the buffer of a report has before.
const BEFORE: &[u8] = b"before\n";

/// `hour N`: the text of that hour, counted from the beginning of 1970.
pub fn tell_hour(trial: &mut Trial) {
    let hour = trial.small();
    if hour > LAST_HOUR {
        return trial.refuse("no hour");
    }
    trial.tell_text(hour_text(hour).as_slice());
}

/// The report of a table.
pub fn report_of(trial: &mut Trial, table: &Stats) -> Vec<u8> {
    let mut report = Vec::new(trial.alloc());
    if let Err(OutOfMemory) = table.report(&mut report) {
        trial.lack_memory();
    }
    report
}

/// Adds the count of a table and its report, with a bar before each line. Of a long report the length and the MD5 are
/// told. Then whether the lines of its hours are another report, and whether a report changes what the buffer had.
pub fn tell_table(trial: &mut Trial, table: &Stats) {
    let report = report_of(trial, table);
    trial.tell_number(table.count());
    trial.tell(" counted");
    tell_lines(trial, &report);
    match lines_of_hours(trial, table).strip_prefix(BEFORE) {
        Some(lines) => {
            if lines != report.as_slice() {
                trial.tell(" (the hours have other lines)");
            }
        }
        None => trial.tell(" (the buffer has changed)"),
    }
}

fn tell_lines(trial: &mut Trial, report: &[u8]) {
    if report.len() > LONGEST_TOLD {
        trial.tell(" | ");
        trial.tell_number(report.len() as u64);
        trial.tell(" bytes ");
        return trial.tell_text(write_hex(&sign(report)).as_slice());
    }
    for line in report.split(|byte| *byte == b'\n') {
        if !line.is_empty() {
            trial.tell(" | ");
            trial.tell_text(line);
        }
    }
}

// The lines of each hour of the report, one behind another, behind what the buffer had.
fn lines_of_hours(trial: &mut Trial, table: &Stats) -> Vec<u8> {
    let mut lines = Vec::new(trial.alloc());
    if lines.extend_from_slice(BEFORE).is_err() {
        trial.lack_memory();
    }
    match table.hours_reported(trial.alloc()) {
        Ok(hours) => {
            for hour in &hours {
                if let Err(OutOfMemory) = table.report_hour(*hour, &mut lines) {
                    trial.lack_memory();
                }
            }
        }
        Err(OutOfMemory) => trial.lack_memory(),
    }
    lines
}
