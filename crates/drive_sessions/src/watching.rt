//! What one who watches sends and writes.
ghost use Rattle.std.specs.Prelude.{◌<◌};
ghost use Rattle.std.specs.Option.{ForSome};

use ldm_class::Class;
use ldm_drive::Trial;
use ldm_drive_sessions::{Case, link_of, log_of, tell_answer, tell_place, tell_sent};
use ldm_watch::{NoticeForm, WatchEnd, watch};

/// `watch NAME=VALUE ..`, or `watch_text` where lines are for people: one asks to be told of the products of a class.
/// Tells its end, what it sent, and the lines that it wrote.
pub fn watch_case(trial: &mut Trial, form: NoticeForm) {
    let case = Case::of(trial);
    let Ok(class) = Class::build(trial.alloc(), &case.class) else {
        return trial.refuse("a pattern means nothing");
    };
    let mut link = link_of(trial, &case);
    let mut sink = log_of(trial, &case);
    let end = watch(
        trial.alloc(),
        &mut link,
        &mut sink,
        &class,
        most_notices(&case),
        form,
    );
    tell_watched(trial, &end);
    tell_sent(trial, &link);
    trial.tell(" lines ");
    trial.tell_shown(sink.written());
}

// How many notices are asked for, where they are counted.
fn most_notices(case: &Case) -> Option<u64>
    ensures { ForSome result (λ n. 0 < n) }
{
    if case.count > 0 {
        Some(case.count)
    } else {
        None
    }
}

fn tell_watched(trial: &mut Trial, end: &WatchEnd) {
    match end {
        WatchEnd::Ended => trial.tell("Ended"),
        WatchEnd::Counted => trial.tell("Counted"),
        WatchEnd::Truncated { at } => tell_place(trial, "Truncated", *at),
        WatchEnd::BadFrame { at } => tell_place(trial, "BadFrame", *at),
        WatchEnd::Refused { answer } => tell_answer(trial, answer),
        WatchEnd::LinkFault => trial.tell("LinkFault"),
        WatchEnd::SinkFault => trial.tell("SinkFault"),
        WatchEnd::StreamLimit => trial.tell("StreamLimit"),
        WatchEnd::OutOfMemory => trial.tell("OutOfMemory"),
    }
}
