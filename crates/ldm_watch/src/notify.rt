//! `notifyme`: asks a node to be told of products.
ghost use Rattle.std.specs.Prelude.{◌≡◌, ◌<◌, ◌≤◌, false, true};
ghost use Rattle.std.specs.Option.{ForSome};
ghost use Rattle.ldm_outside.specs.Link.{IsNotClosed};
ghost use Rattle.ldm_tools.specs.Mon.{KeepsMonCounts, mon_tells};
ghost use Rattle.ldm_watch.specs.Held.{Holds};
ghost use Rattle.ldm_watch.specs.Notifyme.{Notifies, NotifymeEnds, status_of_end, status_of_watch, wanted_by};

use crate::asked::NoticesAsked;
use crate::{WatchEnd, watch};
use ldm_outside::{Dial, Dialled, Reasons, Sink};
use ldm_status::Status;
use std::alloc::Global;

/// How `notifyme` ended.
#[derive(Drop)]
pub enum NotifymeEnd {
    /// No link was connected.
    Unreached,
    /// The peer was asked, and watched to that end.
    Watched(WatchEnd),
}

/// Asks a node to be told of the products of a class, and writes a line for each that it tells of, in the form that is
/// asked for: `notice ARRIVAL SIG FEED SEQNO ORIGIN IDENT SIZE`. It goes on until the end of the stream, or until
/// something ends it, or to the end of so many notices where a count is given. Answers the number that the program ends
/// with, and writes its line to the log.
///
/// It connects once, and gives the link back. The clause `ends` gives each status its cause, and what was sent, given
/// and written then: see `Notifies`.
pub fn notifyme<N: Dial + Reasons, K: Sink, E: Sink>(
    alloc: Global,
    net: &mut N,
    sink: &mut K,
    log: &mut E,
    asked: &NoticesAsked<'_>,
) -> u8
    requires none_out { (N.tells net.old).links.out ≡ false }
    requires counted { ForSome asked.now.count (λ n. 0 < n) }
    ensures ends { Notifies result (wanted_by asked.now)
        (mon_tells N.tells K.tells E.tells net.old sink.old log.old)
        (mon_tells N.tells K.tells E.tells net.new sink.new log.new) }
    ensures none_out { (N.tells net.new).links.out ≡ false }
    ensures counts_kept { KeepsMonCounts (mon_tells N.tells K.tells E.tells net.old sink.old log.old)
        (mon_tells N.tells K.tells E.tells net.new sink.new log.new) }
{
    let end = reach(alloc, net, sink, asked);
    status_of_end(end).report_because(net.reason(), log)
}

// Connects, watches, and gives the link back.
fn reach<N: Dial, K: Sink>(
    alloc: Global,
    net: &mut N,
    sink: &mut K,
    asked: &NoticesAsked<'_>,
) -> NotifymeEnd
    requires none_out { (N.tells net.old).links.out ≡ false }
    requires counted { ForSome asked.now.count (λ n. 0 < n) }
    ensures ends { NotifymeEnds result (wanted_by asked.now) (N.tells net.old) (N.tells net.new) (K.tells sink.old)
        (K.tells sink.new) }
    ensures none_out { (N.tells net.new).links.out ≡ false }
    ensures faults_kept { (N.tells net.old).faults ≤ (N.tells net.new).faults }
    ensures ended_kept { (N.tells net.old).links.ended ≤ (N.tells net.new).links.ended }
    ensures failed_kept { (N.tells net.old).links.failed ≤ (N.tells net.new).links.failed }
    ensures sink_kept { (K.tells sink.old).faults ≤ (K.tells sink.new).faults }
{
    match net.connect(asked.host, asked.port) {
        Dialled::Linked(link) => NotifymeEnd::Watched(hold(alloc, net, sink, link, asked)),
        Dialled::Failed => NotifymeEnd::Unreached,
    }
}

// Watches over a link that came, and gives it back.
fn hold<N: Dial, K: Sink>(
    alloc: Global,
    net: &mut N,
    sink: &mut K,
    mut link: N::Link,
    asked: &NoticesAsked<'_>,
) -> WatchEnd
    requires is_out { (N.tells net.old).links.out ≡ true }
    requires not_closed { IsNotClosed (N.Link.tells link) }
    requires counted { ForSome asked.now.count (λ n. 0 < n) }
    ensures holds { Holds result (wanted_by asked.now).sought (N.Link.tells link) (N.tells net.old) (N.tells net.new)
        (K.tells sink.old) (K.tells sink.new) }
    ensures none_out { (N.tells net.new).links.out ≡ false }
    ensures faults_kept { (N.tells net.old).faults ≤ (N.tells net.new).faults }
    ensures ended_kept { (N.tells net.old).links.ended ≤ (N.tells net.new).links.ended }
    ensures failed_kept { (N.tells net.old).links.failed ≤ (N.tells net.new).links.failed }
    ensures sink_kept { (K.tells sink.old).faults ≤ (K.tells sink.new).faults }
{
    let end = watch(alloc, &mut link, sink, asked.class, asked.count, asked.form);
    net.give_back(link);
    end
}

// The status of how a watching ended.
fn status_of_watch(end: WatchEnd) -> Status
    ensures { result ≡ status_of_watch end }
{
    match end {
        WatchEnd::Ended | WatchEnd::Counted => Status::Done,
        WatchEnd::Truncated { at } | WatchEnd::BadFrame { at } => Status::BadFrame { at },
        WatchEnd::Refused { .. } => Status::Denied,
        WatchEnd::LinkFault => Status::NetFault,
        WatchEnd::SinkFault => Status::SinkFault,
        WatchEnd::StreamLimit => Status::StreamLimit,
        WatchEnd::OutOfMemory => Status::NoMemory,
    }
}

// The status of how `notifyme` ended.
fn status_of_end(end: NotifymeEnd) -> Status
    ensures { result ≡ status_of_end end }
{
    match end {
        NotifymeEnd::Unreached => Status::NetFault,
        NotifymeEnd::Watched(end) => status_of_watch(end),
    }
}
