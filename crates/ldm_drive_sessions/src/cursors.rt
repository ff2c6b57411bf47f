//! Cursors that are open beside a session.
ghost use Rattle.ldm_shared.specs.Passes.{IsPassOf, IsSamePass};

use ldm_drive::Trial;
use ldm_model::{OpenReply, Start};
use ldm_shared::{Pass, Shared, Turn};
use ldm_types::Feed;
use std::sync::Wait;

/// Opens so many cursors.
pub fn open_all<H: Wait>(rt: &H, shared: &Shared, pass: &mut Pass, count: u64)
    requires { IsPassOf shared.now pass.old }
    ensures { IsSamePass pass.old pass.new }
{
    for _ in 0..count {
        let _ = shared.open_cursor(rt, pass, Feed(1), Start::Oldest);
    }
}

/// Adds the place of a cursor that is opened: 0, where the session closed its own; `-` where all are taken.
pub fn tell_cursor<H: Wait>(rt: &H, trial: &mut Trial, shared: &Shared, pass: &mut Pass)
    requires { IsPassOf shared.now pass.old }
{
    trial.tell(" cursor ");
    let Turn::Done(reply) = shared.open_cursor(rt, pass, Feed(1), Start::Oldest) else {
        return trial.refuse("no turn");
    };
    match reply {
        OpenReply::Opened { k } => trial.tell_number(u64::from(k.get())),
        OpenReply::AllBusy | OpenReply::NotQueued => trial.tell("-"),
    }
}
