//! What one who tells of products sends and logs.
ghost use Rattle.ldm_shared.specs.Passes.{IsPassOf};

use ldm_class::{Class, Policy};
use ldm_drive::{Trial, copied};
use ldm_drive_sessions::{
    BusyGate, Case, clock_of, insert_all, link_of, log_of, open_all, policy_of, queue_of,
    tell_cursor, tell_log, tell_sent,
};
use ldm_notify::notify;
use ldm_relay::Notifyme;
use ldm_session::LONGEST_NAME;
use ldm_shared::{Pass, Shared};
use std::sync::Wait;

/// `notify NAME=VALUE ..`: a request for notices is answered as call 1, and products are told of. Tells its end,
/// whether the link is closed, what was sent and logged, and the place that a cursor gets which is opened then.
pub fn notify_case<H: Wait>(rt: &H, trial: &mut Trial) {
    let case = Case::of(trial);
    let Some(policy) = policy_of(trial.alloc(), &case) else {
        return trial.refuse("no rules");
    };
    let Some((shared, mut pass, other)) = queue_of(trial.alloc(), &case) else {
        return trial.refuse("no queue");
    };
    insert_all(rt, &shared, &mut pass, &case.queued);
    open_all(rt, &shared, &mut pass, case.cursors);
    notify_of(rt, trial, &case, &policy, &shared, &mut pass, other);
    tell_cursor(rt, trial, &shared, &mut pass);
}

fn notify_of<H: Wait>(
    rt: &H,
    trial: &mut Trial,
    case: &Case,
    policy: &Policy,
    shared: &Shared,
    pass: &mut Pass,
    other: Pass,
)
    requires pass { IsPassOf shared.now pass.old }
    requires other { IsPassOf shared.now other }
    ensures { IsPassOf shared.now pass.new }
{
    let ask = Notifyme {
        xid: 1,
        class: case.class.copy(),
    };
    let Ok(class) = Class::build(trial.alloc(), &ask.class) else {
        return trial.refuse("a pattern means nothing");
    };
    if case.host.len() > LONGEST_NAME {
        return trial.refuse("the host is too long");
    }
    let stopping = copied(trial, &case.stops);
    let mut gate = BusyGate::new(rt, shared, other, &case.later, stopping);
    let mut link = link_of(trial, case);
    let mut log = log_of(trial, case);
    let mut clock = clock_of(trial, case);
    let end = notify(
        rt,
        trial.alloc(),
        shared,
        pass,
        &mut link,
        &mut log,
        &mut gate,
        &mut clock,
        &case.host,
        &ask,
        &class,
        policy,
    );
    trial.tell_debug(&end);
    trial.tell(if link.is_closed() { " closed" } else { " open" });
    tell_sent(trial, &link);
    tell_log(trial, log.written());
}
