//! What a receiver takes, answers and logs.
ghost use Rattle.ldm_shared.specs.Passes.{IsPassOf};

use ldm_class::Class;
use ldm_downstream::{Received, receive};
use ldm_drive::{Trial, tell_spelled};
use ldm_drive_sessions::{
    Case, clock_of, hold_some, insert_all, link_of, log_of, queue_of, reserve_all, tell_answer,
    tell_log, tell_place, tell_queue, tell_sent,
};
use ldm_intake::RecvEnd;
use ldm_shared::{Pass, Shared};
use ldm_types::Signature;
use std::sync::Wait;

/// `receive NAME=VALUE ..`: a receiver asks for a class, and takes what the link gives. Tells its end, the last
/// product, what it sent and logged, and the products that are queued then.
pub fn receive_case<H: Wait>(rt: &H, trial: &mut Trial) {
    let case = Case::of(trial);
    let Some((shared, mut pass, mut other)) = queue_of(trial.alloc(), &case) else {
        return trial.refuse("no queue");
    };
    insert_all(rt, &shared, &mut pass, &case.queued);
    reserve_all(rt, &shared, &mut other, case.reserved);
    hold_some(rt, &shared, &mut other, case.held);
    receive_from(rt, trial, &case, &shared, &mut pass);
    tell_queue(rt, trial, &shared, &mut pass);
}

fn receive_from<H: Wait>(rt: &H, trial: &mut Trial, case: &Case, shared: &Shared, pass: &mut Pass)
    requires { IsPassOf shared.now pass.old }
    ensures { IsPassOf shared.now pass.new }
{
    let Ok(class) = Class::build(trial.alloc(), &case.class) else {
        return trial.refuse("a pattern means nothing");
    };
    let mut link = link_of(trial, case);
    let mut log = log_of(trial, case);
    let mut clock = clock_of(trial, case);
    let received = receive(
        rt,
        trial.alloc(),
        shared,
        pass,
        &mut link,
        &mut log,
        &mut clock,
        &class,
        case.last,
        case.max_hereis,
    );
    tell_received(trial, &received);
    tell_sent(trial, &link);
    tell_log(trial, log.written());
}

fn tell_received(trial: &mut Trial, received: &Received) {
    tell_end(trial, &received.end);
    tell_last(trial, received.last);
}

/// Adds the signature of the last product.
pub fn tell_last(trial: &mut Trial, last: Option<Signature>) {
    trial.tell(" last ");
    match last {
        Some(signature) => tell_spelled(trial, &signature.0),
        None => trial.tell("-"),
    }
}

/// Adds how a receiving ended.
pub fn tell_end(trial: &mut Trial, end: &RecvEnd) {
    match end {
        RecvEnd::Ended => trial.tell("Ended"),
        RecvEnd::Truncated { at } => tell_place(trial, "Truncated", *at),
        RecvEnd::BadFrame { at } => tell_place(trial, "BadFrame", *at),
        RecvEnd::Refused { answer } => tell_answer(trial, answer),
        RecvEnd::LinkFault => trial.tell("LinkFault"),
        RecvEnd::LogFault => trial.tell("LogFault"),
        RecvEnd::StreamLimit => trial.tell("StreamLimit"),
        RecvEnd::Worn => trial.tell("Worn"),
        RecvEnd::OutOfMemory => trial.lack_memory(),
    }
}
