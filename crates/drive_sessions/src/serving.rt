//! What a server does with a connection.
ghost use Rattle.ldm_shared.specs.Passes.{IsPassOf};

use crate::receiving::tell_end;
use ldm_conf::Conf;
use ldm_drive::{Trial, copied};
use ldm_drive_sessions::{
    BusyGate, Case, clock_of, conf_of, insert_all, link_of, log_of, queue_of, tell_log, tell_place,
    tell_queue, tell_sent,
};
use ldm_serve::{ServeEnd, serve};
use ldm_session::LONGEST_NAME;
use ldm_shared::{Pass, Shared};
use std::sync::Wait;

/// `serve NAME=VALUE ..`: a server serves a connection. Tells its end, whether the link is closed, what was sent and
/// logged, and the products that are queued then.
pub fn serve_case<H: Wait>(rt: &H, trial: &mut Trial) {
    let case = Case::of(trial);
    let Some(conf) = conf_of(trial.alloc(), &case) else {
        return trial.refuse("no rules");
    };
    let Some((shared, mut pass, other)) = queue_of(trial.alloc(), &case) else {
        return trial.refuse("no queue");
    };
    insert_all(rt, &shared, &mut pass, &case.queued);
    serve_of(rt, trial, &case, &conf, &shared, &mut pass, other);
    tell_queue(rt, trial, &shared, &mut pass);
}

fn serve_of<H: Wait>(
    rt: &H,
    trial: &mut Trial,
    case: &Case,
    conf: &Conf,
    shared: &Shared,
    pass: &mut Pass,
    other: Pass,
)
    requires pass { IsPassOf shared.now pass.old }
    requires other { IsPassOf shared.now other }
    ensures { IsPassOf shared.now pass.new }
{
    if case.host.len() > LONGEST_NAME {
        return trial.refuse("the host is too long");
    }
    let stopping = copied(trial, &case.stops);
    let mut gate = BusyGate::new(rt, shared, other, &case.later, stopping);
    let mut link = link_of(trial, case);
    let mut log = log_of(trial, case);
    let mut clock = clock_of(trial, case);
    let end = serve(
        rt,
        trial.alloc(),
        shared,
        pass,
        &mut link,
        &mut log,
        &mut gate,
        &mut clock,
        &case.host,
        conf,
    );
    tell_served(trial, &end);
    trial.tell(if link.is_closed() { " closed" } else { " open" });
    tell_sent(trial, &link);
    tell_log(trial, log.written());
}

fn tell_served(trial: &mut Trial, end: &ServeEnd) {
    match end {
        ServeEnd::Feed(why) => {
            trial.tell("Feed ");
            trial.tell_debug(why);
        }
        ServeEnd::Receive(why) => {
            trial.tell("Receive ");
            tell_end(trial, why);
        }
        ServeEnd::Notify(why) => {
            trial.tell("Notify ");
            trial.tell_debug(why);
        }
        ServeEnd::Ended => trial.tell("Ended"),
        ServeEnd::Truncated { at } => tell_place(trial, "Truncated", *at),
        ServeEnd::BadFrame { at } => tell_place(trial, "BadFrame", *at),
        ServeEnd::Denied { rule } => {
            trial.tell("Denied ");
            trial.tell_number(*rule);
        }
        ServeEnd::LinkFault => trial.tell("LinkFault"),
        ServeEnd::StreamLimit => trial.tell("StreamLimit"),
        ServeEnd::Worn => trial.tell("Worn"),
        ServeEnd::OutOfMemory => trial.lack_memory(),
    }
}
