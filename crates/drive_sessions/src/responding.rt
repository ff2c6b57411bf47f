//! What a server responds to records.
ghost use Rattle.ldm_shared.specs.Passes.{IsPassOf, IsSamePass};

use ldm_class::Policy;
use ldm_drive::{Trial, tell_spelled};
use ldm_drive_sessions::{
    Case, clock_of, hold_some, insert_all, policy_of, queue_of, reserve_all, tell_queue,
};
use ldm_rpc::Front;
use ldm_serve::{RespondFault, Responded, respond};
use ldm_shared::{Pass, Shared};
use std::sync::Wait;

/// `respond NAME=VALUE ..`: a server responds to records with the contents `streams=`, one after another, whatever each
/// comes to. Tells how the connection would go on behind each, the bytes that the peer is owed, and the products that
/// are queued then.
pub fn respond_case<H: Wait>(rt: &H, trial: &mut Trial) {
    let case = Case::of(trial);
    let Some((shared, mut pass, mut other)) = queue_of(trial.alloc(), &case) else {
        return trial.refuse("no queue");
    };
    let Some(policy) = policy_of(trial.alloc(), &case) else {
        return trial.refuse("no rules");
    };
    insert_all(rt, &shared, &mut pass, &case.queued);
    reserve_all(rt, &shared, &mut other, case.reserved);
    hold_some(rt, &shared, &mut other, case.held);
    let mut owed = Vec::new(trial.alloc());
    respond_all(rt, trial, &case, &policy, &shared, &mut pass, &mut owed);
    trial.tell("owed ");
    tell_spelled(trial, &owed);
    tell_queue(rt, trial, &shared, &mut pass);
}

fn respond_all<H: Wait>(
    rt: &H,
    trial: &mut Trial,
    case: &Case,
    policy: &Policy,
    shared: &Shared,
    pass: &mut Pass,
    owed: &mut Vec<u8>,
)
    requires { IsPassOf shared.now pass.old }
    ensures { IsSamePass pass.old pass.new }
{
    let mut clock = clock_of(trial, case);
    for content in &case.streams {
        let alloc = trial.alloc();
        let Ok(len) = u32::try_from(content.len()) else {
            return trial.refuse("no record");
        };
        let held = Front {
            bytes: content,
            len,
        };
        let next = respond(
            rt, alloc, shared, pass, &mut clock, policy, &case.host, held, owed,
        );
        match next {
            Ok(next) => tell_next(trial, &next),
            Err(RespondFault::Worn) => trial.tell("Worn "),
            Err(RespondFault::OutOfMemory) => trial.lack_memory(),
        }
    }
}

fn tell_next(trial: &mut Trial, next: &Responded) {
    match next {
        Responded::GoesOn => trial.tell("GoesOn "),
        Responded::Feeds { ask } => {
            trial.tell("Feeds ");
            trial.tell_number(u64::from(ask.max_hereis));
            tell_specs(trial, ask.class.specs.len());
        }
        Responded::Receives { class } => {
            trial.tell("Receives");
            tell_specs(trial, class.spec().specs.len());
        }
        Responded::Notifies { ask } => {
            trial.tell("Notifies");
            tell_specs(trial, ask.class.specs.len());
        }
        Responded::Refused => trial.tell("Refused "),
        Responded::Denied { rule } => {
            trial.tell("Denied ");
            trial.tell_number(*rule);
            trial.tell(" ");
        }
    }
}

// Adds how many specifications a class has.
fn tell_specs(trial: &mut Trial, count: usize) {
    trial.tell(" of ");
    trial.tell_number(count as u64);
    trial.tell(" ");
}
