//! What a session left, as words of an answer.

use ldm_drive::{Trial, push, tell_spelled};
use ldm_outside::Way;
use ldm_outside_memory::MemLink;
use ldm_relay::ClassAnswer;

/// Adds all bytes that a link was sent.
pub fn tell_sent(trial: &mut Trial, link: &MemLink) {
    let mut sent = Vec::new(trial.alloc());
    for passed in link.passed() {
        if passed.way == Way::Sent {
            push(trial, &mut sent, passed.byte);
        }
    }
    trial.tell(" sent ");
    tell_spelled(trial, &sent);
}

/// Adds a log, of which each newline is told as `\n`.
pub fn tell_log(trial: &mut Trial, log: &[u8]) {
    trial.tell(" log ");
    trial.tell_shown(log);
}

/// Adds how a session ended at a place.
pub fn tell_place(trial: &mut Trial, name: &str, at: u64) {
    trial.tell(name);
    trial.tell(" at ");
    trial.tell_number(at);
}

/// Adds that the peer declined by that answer.
pub fn tell_answer(trial: &mut Trial, answer: &ClassAnswer) {
    trial.tell("Refused ");
    trial.tell(match answer {
        ClassAnswer::Ok => "Ok",
        ClassAnswer::Reclass(_) => "Reclass",
        ClassAnswer::Denied => "Denied",
        ClassAnswer::BadPattern => "BadPattern",
        ClassAnswer::Busy => "Busy",
    });
}
