//! `pqmon`: asks a node for the figures of its queue.
ghost use Rattle.std.specs.Prelude.{◌≡◌, ◌≤◌, false, true, IfOk, Ok, Some};
ghost use Rattle.ldm_outside.specs.Dial.{DialTakesBack};
ghost use Rattle.ldm_outside.specs.Link.{IsNotClosed};
ghost use Rattle.ldm_tools.specs.Asking.{Asks};
ghost use Rattle.ldm_tools.specs.Mon.{KeepsMonCounts, MonEnds, Mons, TellsStat, mon_tells, stat_call};
ghost use Rattle.ldm_tools.specs.Held.{HoldsStat};
ghost use Rattle.ldm_tools.specs.Replies.{IsStatReply};

use crate::no_reply::NoReply;
use crate::reader::LinkReader;
use crate::replies::hear_stat;
use crate::statuses::status_of_mon;
use ldm_answers::{Answer, Text, write_answer};
use ldm_model::Stat;
use ldm_outside::{Dial, Dialled, Link, Reasons, Sink, SinkFailed, send_all, write_all};
use ldm_relay::{Message, Qstat, write_message};
use ldm_types::OutOfMemory;
use std::alloc::Global;

/// Why the figures of a node were not written, all of them.
#[derive(Clone, Copy, Debug, PartialEq, Eq)]
pub enum MonFault {
    /// No link was connected.
    Unreached,
    /// No reply was heard.
    NoStat(NoReply),
    /// The node does not tell its figures.
    Denied,
    /// The sink failed.
    SinkFault,
}

/// Asks a node for the figures of its queue, and writes them as a line: `stat ADMITTED QUEUED HELD USED LARGEST`.
/// Answers the number that the program ends with, and writes its line to the log.
///
/// It connects once, sends one QSTAT, and hears its reply. The link is given back before anything is written. The
/// clause `ends` gives each status its cause, and what was sent, given and written then: see `Mons`.
pub fn pqmon<N: Dial + Reasons, K: Sink, E: Sink>(
    alloc: Global,
    net: &mut N,
    sink: &mut K,
    log: &mut E,
    host: &[u8],
    port: u16,
) -> u8
    requires none_out { (N.tells net.old).links.out ≡ false }
    ensures ends { Mons result (record { host = host.now; port = port })
        (mon_tells N.tells K.tells E.tells net.old sink.old log.old)
        (mon_tells N.tells K.tells E.tells net.new sink.new log.new) }
    ensures none_out { (N.tells net.new).links.out ≡ false }
    ensures counts_kept { KeepsMonCounts (mon_tells N.tells K.tells E.tells net.old sink.old log.old)
        (mon_tells N.tells K.tells E.tells net.new sink.new log.new) }
{
    let ending = monitor(alloc, net, sink, host, port);
    status_of_mon(ending).report_because(net.reason(), log)
}

// Connects, asks, gives the link back, and writes the figures.
fn monitor<N: Dial, K: Sink>(
    alloc: Global,
    net: &mut N,
    sink: &mut K,
    host: &[u8],
    port: u16,
) -> Result<(), MonFault>
    requires { (N.tells net.old).links.out ≡ false }
    ensures ends { MonEnds result (record { host = host.now; port = port }) (N.tells net.old) (N.tells net.new)
        (K.tells sink.old) (K.tells sink.new) }
    ensures none_out { (N.tells net.new).links.out ≡ false }
    ensures faults_kept { (N.tells net.old).faults ≤ (N.tells net.new).faults }
    ensures ended_kept { (N.tells net.old).links.ended ≤ (N.tells net.new).links.ended }
    ensures failed_kept { (N.tells net.old).links.failed ≤ (N.tells net.new).links.failed }
    ensures sink_kept { (K.tells sink.old).faults ≤ (K.tells sink.new).faults }
{
    match net.connect(host, port) {
        Dialled::Linked(link) => hold(alloc, net, sink, link),
        Dialled::Failed => Err(MonFault::Unreached),
    }
}

// Asks over a link that came, gives it back, and writes the figures.
fn hold<N: Dial, K: Sink>(
    alloc: Global,
    net: &mut N,
    sink: &mut K,
    mut link: N::Link,
) -> Result<(), MonFault>
    requires is_out { (N.tells net.old).links.out ≡ true }
    requires not_closed { IsNotClosed (N.Link.tells link) }
    ensures holds { HoldsStat result (N.Link.tells link) (N.tells net.old) (N.tells net.new) (K.tells sink.old)
        (K.tells sink.new) }
    ensures none_out { (N.tells net.new).links.out ≡ false }
    ensures faults_kept { (N.tells net.old).faults ≤ (N.tells net.new).faults }
    ensures ended_kept { (N.tells net.old).links.ended ≤ (N.tells net.new).links.ended }
    ensures failed_kept { (N.tells net.old).links.failed ≤ (N.tells net.new).links.failed }
    ensures sink_kept { (K.tells sink.old).faults ≤ (K.tells sink.new).faults }
{
    let asked = ask_stat(alloc, &mut link);
    net.give_back(link);
    tell_stat(asked, sink)
}

// Asks for the figures over a link.
fn ask_stat<K: Link>(alloc: Global, link: &mut K) -> Result<Option<Stat>, NoReply>
    requires { IsNotClosed (K.tells link.old) }
    ensures asks { Asks (IsStatReply 1) result stat_call (K.tells link.old) (K.tells link.new) }
    ensures faults_kept { (K.tells link.old).faults ≤ (K.tells link.new).faults }
    ensures ends_kept { (K.tells link.old).ends ≤ (K.tells link.new).ends }
    ensures still_open { IsNotClosed (K.tells link.new) }
{
    match spell_call(alloc) {
        Ok(call) => send_call(alloc, link, call.as_slice()),
        Err(_) => Err(NoReply::OutOfMemory),
    }
}

// Sends a call, and hears the reply to the QSTAT that it is.
fn send_call<K: Link>(alloc: Global, link: &mut K, call: &[u8]) -> Result<Option<Stat>, NoReply>
    requires { IsNotClosed (K.tells link.old) }
    ensures asks { Asks (IsStatReply 1) result call.now (K.tells link.old) (K.tells link.new) }
    ensures faults_kept { (K.tells link.old).faults ≤ (K.tells link.new).faults }
    ensures ends_kept { (K.tells link.old).ends ≤ (K.tells link.new).ends }
    ensures still_open { IsNotClosed (K.tells link.new) }
{
    let mut reader = match LinkReader::create(alloc) {
        Ok(reader) => reader,
        Err(_) => return Err(NoReply::OutOfMemory),
    };
    match send_all(link, call) {
        Ok(()) => hear_stat(&mut reader, link, 1),
        Err(_) => Err(NoReply::LinkFault),
    }
}

fn spell_call(alloc: Global) -> Result<Vec<u8>, OutOfMemory>
    ensures { IfOk result (λ call. call.items ≡ stat_call) }
{
    let mut call = Vec::new(alloc);
    write_message(&Message::Qstat(Qstat { xid: 1 }), &mut call)?;
    Ok(call)
}

// Writes what came of the call.
fn tell_stat<K: Sink>(asked: Result<Option<Stat>, NoReply>, sink: &mut K) -> Result<(), MonFault>
    ensures tells { TellsStat result asked (K.tells sink.old) (K.tells sink.new) }
    ensures sink_kept { (K.tells sink.old).faults ≤ (K.tells sink.new).faults }
{
    match asked {
        Ok(Some(stat)) => write_stat(stat, sink),
        Ok(None) => Err(MonFault::Denied),
        Err(why) => Err(MonFault::NoStat(why)),
    }
}

fn write_stat<K: Sink>(stat: Stat, sink: &mut K) -> Result<(), MonFault>
    ensures tells { TellsStat result (Ok (Some stat)) (K.tells sink.old) (K.tells sink.new) }
    ensures sink_kept { (K.tells sink.old).faults ≤ (K.tells sink.new).faults }
{
    let mut line = Text::new();
    write_answer(&Answer::Stat(stat), &mut line);
    match write_all(sink, line.as_slice()) {
        Ok(()) => Ok(()),
        Err(SinkFailed) => Err(MonFault::SinkFault),
    }
}
