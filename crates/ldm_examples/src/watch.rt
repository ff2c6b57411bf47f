//! The example of ldm_watch.

ghost use Rattle.std.specs.Prelude.{◌≡◌, false};

use ldm_class::Class;
use ldm_outside::{Dial, Reasons, Sink};
use ldm_watch::{NoticeForm, NoticesAsked, notifyme};
use std::alloc::Global;

/// Writes the notice of the next product of a class that comes into the queue of a node on this machine, for people.
pub fn next_notice<N: Dial + Reasons, K: Sink, E: Sink>(
    alloc: Global,
    net: &mut N,
    sink: &mut K,
    log: &mut E,
    class: &Class,
) -> u8
    requires { (N.tells net.old).links.out ≡ false }
{
    let asked = NoticesAsked {
        host: b"127.0.0.1",
        port: 388,
        class,
        count: Some(1),
        form: NoticeForm::Names,
    };
    notifyme(alloc, net, sink, log, &asked)
}
