//! Links over TCP, to this machine.
ghost use Rattle.std.specs.Prelude.{◌≡◌, false, IfSome};
ghost use Rattle.ldm_outside.specs.Link.{IsNotClosed};
ghost use Rattle.ldm_adapters.specs.Told.{told_by_door, told_by_dial, told_by_link};

use ldm_adapters::{RealClock, RealDial, RealDoor, RealLink, RealNet, RealStation, Timeouts};
use ldm_drive::{
    Trial, ask, idle, listen, tell_bytes, tell_count, tell_go, tell_got, tell_number, tell_put,
    tell_word,
};
use ldm_outside::{Came, Dial, Dialled, Door, Gate, Got, Link, Manned, Net, Put};
use std::net::{Ipv4Addr, Shutdown, TcpListener, TcpStream};
use std::rt::HostRuntime;
use std::time::Duration;

// Limits that a test can wait for.
fn short(rt: HostRuntime) -> Timeouts {
    Timeouts {
        connect: Duration::from_millis(100),
        silent: Duration::from_millis(100),
        stalled: Duration::from_millis(100),
        ..Timeouts::new(rt)
    }
}

// A door and a dial, and the port between them.
#[derive(Drop)]
struct Both {
    door: RealDoor,
    dial: RealDial,
    port: u16,
}

fn door_and_dial(rt: HostRuntime, timeouts: Timeouts) -> Option<Both>
    ensures door { IfSome result (λ both. (told_by_door both.door).links.out ≡ false) }
    ensures dial { IfSome result (λ both. (told_by_dial both.dial).links.out ≡ false) }
{
    let listener = TcpListener::bind(&rt, (Ipv4Addr::LOCALHOST, 0)).ok()?;
    let port = listener.local_addr().ok()?.port();
    Some(Both {
        door: RealDoor::new(listener, timeouts),
        dial: RealDial::new(rt, timeouts),
        port,
    })
}

// Sends a piece at one end, and receives at the other.
fn pass<K: Link>(trial: &mut Trial, from: &mut K, to: &mut K, piece: &[u8])
    requires from { IsNotClosed (K.tells from.old) }
    requires to { IsNotClosed (K.tells to.old) }
    ensures from { IsNotClosed (K.tells from.new) }
    ensures to { IsNotClosed (K.tells to.new) }
{
    tell_put(trial, from.send(piece));
    tell_got(trial, listen(to));
}

// Sends pieces of 64 KiB until one fails: whether one did.
fn fails_soon<K: Link>(link: &mut K) -> bool
    requires { IsNotClosed (K.tells link.old) }
    ensures { IsNotClosed (K.tells link.new) }
{
    let piece = [0; 65_536];
    for _ in 0..10_000 {
        if link.send(&piece) == Put::Failed {
            return true;
        }
    }
    false
}

// Whether a link took all, or failed.
fn tell_limit<K: Link>(trial: &mut Trial, link: &mut K)
    requires { IsNotClosed (K.tells link.old) }
{
    tell_word(trial, if fails_soon(link) { "failed" } else { "took" });
}

// Bytes pass both ways; then one end closes, and the other is at its end and cannot send for long.
fn talk<K: Link>(trial: &mut Trial, near: &mut K, far: &mut K)
    requires near { IsNotClosed (K.tells near.old) }
    requires far { IsNotClosed (K.tells far.old) }
{
    pass(trial, near, far, b"abc");
    pass(trial, far, near, b"de");
    near.close();
    tell_got(trial, listen(far));
    tell_limit(trial, far);
}

// How a session between a dial and a door ends that only greets: both links are given back.
fn greet<I: Dial, D: Door>(dial: &mut I, door: &mut D, port: u16) -> Option<Got>
    requires dial { (I.tells dial.old).links.out ≡ false }
    requires door { (D.tells door.old).links.out ≡ false }
    ensures dial { (I.tells dial.new).links.out ≡ false }
    ensures door { (D.tells door.new).links.out ≡ false }
{
    let Dialled::Linked(mut near) = dial.connect(b"127.0.0.1", port) else {
        return None;
    };
    let got = match door.accept() {
        Came::Peer { mut link, .. } => {
            near.send(b"hello");
            let got = listen(&mut link);
            door.give_back(link);
            Some(got)
        }
        Came::Closed | Came::Failed => None,
    };
    dial.give_back(near);
    got
}

// So many such sessions: how many greetings came.
fn greets<I: Dial, D: Door>(dial: &mut I, door: &mut D, port: u16, count: u64) -> u64
    requires dial { (I.tells dial.old).links.out ≡ false }
    requires door { (D.tells door.old).links.out ≡ false }
{
    let mut came = 0u64;
    for _ in 0..count {
        if greet(dial, door, port) == Some(Got::Bytes(5)) {
            came = came.saturating_add(1);
        }
    }
    came
}

// So many sessions, one after another.
fn sessions(rt: HostRuntime, trial: &mut Trial) {
    let count = trial.number();
    let Some(mut both) = door_and_dial(rt, Timeouts::new(rt)) else {
        return trial.refuse("the system failed");
    };
    let came = greets(&mut both.dial, &mut both.door, both.port, count);
    tell_count(trial, "came", came);
    tell_count(trial, "peers", both.door.peers());
    tell_count(trial, "failed", both.door.failed());
}

// Two ends of one connection: that of a dial, and that of a door.
#[derive(Drop)]
struct Ends {
    near: RealLink,
    far: RealLink,
}

// Two such ends, where the system does not fail. The host of the peer is told.
fn two_ends(rt: HostRuntime, trial: &mut Trial, timeouts: Timeouts) -> Option<Ends>
    ensures near { IfSome result (λ ends. IsNotClosed (told_by_link ends.near)) }
    ensures far { IfSome result (λ ends. IsNotClosed (told_by_link ends.far)) }
{
    let mut both = door_and_dial(rt, timeouts)?;
    let Dialled::Linked(near) = both.dial.connect(b"127.0.0.1", both.port) else {
        return None;
    };
    match both.door.accept() {
        Came::Peer { host, link } => {
            tell_bytes(trial, host.as_slice());
            Some(Ends { near, far: link })
        }
        Came::Closed | Came::Failed => None,
    }
}

// A peer that talks, and closes.
fn talks(rt: HostRuntime, trial: &mut Trial) {
    match two_ends(rt, trial, Timeouts::new(rt)) {
        Some(mut ends) => talk(trial, &mut ends.near, &mut ends.far),
        None => trial.refuse("the system failed"),
    }
}

// A peer that goes with bytes that it did not read: the system resets the connection.
fn resets(rt: HostRuntime, trial: &mut Trial) {
    let Some(Ends { mut near, far }) = two_ends(rt, trial, Timeouts::new(rt)) else {
        return trial.refuse("the system failed");
    };
    tell_put(trial, near.send(b"ab"));
    drop(far);
    tell_got(trial, listen(&mut near));
}

// A peer that never speaks, and one that stops reading.
fn waits(rt: HostRuntime, trial: &mut Trial) {
    let Some(mut ends) = two_ends(rt, trial, short(rt)) else {
        return trial.refuse("the system failed");
    };
    tell_got(trial, listen(&mut ends.near));
    tell_limit(trial, &mut ends.near);
}

// A peer of a door that sends no more, and still reads.
fn half_peer(rt: HostRuntime, port: u16) -> Option<TcpStream> {
    let peer = TcpStream::connect(&rt, (Ipv4Addr::LOCALHOST, port)).ok()?;
    peer.shutdown(Shutdown::Write).ok()?;
    Some(peer)
}

fn halves(rt: HostRuntime, trial: &mut Trial) {
    let Some(mut both) = door_and_dial(rt, Timeouts::new(rt)) else {
        return trial.refuse("the system failed");
    };
    let Some(_peer) = half_peer(rt, both.port) else {
        return trial.refuse("the system failed");
    };
    let Came::Peer { mut link, .. } = both.door.accept() else {
        return trial.refuse("the system failed");
    };
    tell_got(trial, listen(&mut link));
    tell_put(trial, link.send(b"ab"));
}

// Whether a dial connects: the link is given back.
fn connects<I: Dial>(dial: &mut I, port: u16) -> bool
    requires { (I.tells dial.old).links.out ≡ false }
    ensures { (I.tells dial.new).links.out ≡ false }
{
    match dial.connect(b"127.0.0.1", port) {
        Dialled::Linked(link) => {
            dial.give_back(link);
            true
        }
        Dialled::Failed => false,
    }
}

// Whether a dial fails at a door that lets nobody in: the system lets some peers wait there, and answers no others.
fn fails_unanswered<I: Dial>(dial: &mut I, port: u16) -> bool
    requires { (I.tells dial.old).links.out ≡ false }
    ensures { (I.tells dial.new).links.out ≡ false }
{
    for _ in 0..1_000 {
        if !connects(dial, port) {
            return true;
        }
    }
    false
}

// A door that lets nobody in.
fn unanswered(rt: HostRuntime, trial: &mut Trial) {
    let Some(mut both) = door_and_dial(rt, short(rt)) else {
        return trial.refuse("the system failed");
    };
    let failed = fails_unanswered(&mut both.dial, both.port);
    tell_word(trial, if failed { "failed" } else { "linked" });
}

// A port that nobody listens on.
fn free_port(rt: HostRuntime) -> Option<u16> {
    let listener = TcpListener::bind(&rt, (Ipv4Addr::LOCALHOST, 0)).ok()?;
    Some(listener.local_addr().ok()?.port())
}

// Two stations of a net at a port, whose gates stop after one idle call.
fn stations(rt: HostRuntime, trial: &mut Trial) {
    let Some(port) = free_port(rt) else {
        return trial.refuse("the system failed");
    };
    let mut net = RealNet::new(rt);
    let Manned::Stations(mut stations) = net.stations(port, 2, Some(1)) else {
        return trial.refuse("the system failed");
    };
    tell_number(trial, stations.len() as u64);
    for station in stations.iter_mut() {
        let same = station.door.port().is_ok_and(|found| found == port);
        tell_word(trial, if same { "its_port" } else { "another_port" });
        tell_go(trial, idle(&mut station.gate));
        tell_go(trial, idle(&mut station.gate));
    }
    net.keep(stations);
}

// How long an idle call of a gate takes, in microseconds.
fn idles_for<G: Gate>(rt: HostRuntime, gate: &mut G) -> u64 {
    let mut clock = RealClock::new(rt);
    let before = ask(&mut clock).get();
    idle(gate);
    ask(&mut clock).get().saturating_sub(before)
}

// How long an idle call takes at least that nothing cuts short, in microseconds, and any other at most.
const LONG: u64 = 450_000;

// Whether an idle call takes its whole time though bytes came over the link, where nobody has come back to it yet.
fn is_not_cut_short<F: Link, T: Link, G: Gate>(
    rt: HostRuntime,
    from: &mut F,
    to: &mut T,
    gate: &mut G,
) -> bool
    requires from { IsNotClosed (F.tells from.old) }
    requires to { IsNotClosed (T.tells to.old) }
    ensures from { IsNotClosed (F.tells from.new) }
    ensures to { IsNotClosed (T.tells to.new) }
{
    let _ = from.send(b"a");
    let _ = listen(to);
    idles_for(rt, gate) >= LONG
}

// Whether an idle call is short that comes after who had bytes that came came back to the link.
fn is_cut_short<F: Link, T: Link, G: Gate>(
    rt: HostRuntime,
    from: &mut F,
    to: &mut T,
    gate: &mut G,
) -> bool
    requires from { IsNotClosed (F.tells from.old) }
    requires to { IsNotClosed (T.tells to.old) }
    ensures from { IsNotClosed (F.tells from.new) }
    ensures to { IsNotClosed (T.tells to.new) }
{
    let _ = from.send(b"a");
    let _ = listen(to);
    let _ = to.send(b"b");
    idles_for(rt, gate) < LONG
}

// A station of a net that let a peer in: its gate sleeps its whole time, but where a link has done with bytes that
// came.
fn busy(rt: HostRuntime, trial: &mut Trial) {
    let Some(port) = free_port(rt) else {
        return trial.refuse("the system failed");
    };
    let Some(mut station) = station_at(rt, port) else {
        return trial.refuse("the system failed");
    };
    let mut dial = RealDial::new(rt, Timeouts::new(rt));
    let Dialled::Linked(mut peer) = dial.connect(b"127.0.0.1", port) else {
        return trial.refuse("the system failed");
    };
    // a peer that said nothing comes to no door of a net
    let _ = peer.send(b"a");
    let Came::Peer { mut link, .. } = station.door.accept() else {
        return trial.refuse("the system failed");
    };
    let slept = idles_for(rt, &mut station.gate) >= LONG;
    tell_word(trial, if slept { "slept" } else { "awake" });
    let slept = is_not_cut_short(rt, &mut peer, &mut link, &mut station.gate);
    tell_word(trial, if slept { "slept" } else { "awake" });
    // a machine with much other work may be slow to wake it
    let is_short = is_cut_short(rt, &mut peer, &mut link, &mut station.gate)
        || is_cut_short(rt, &mut peer, &mut link, &mut station.gate)
        || is_cut_short(rt, &mut peer, &mut link, &mut station.gate)
        || is_cut_short(rt, &mut peer, &mut link, &mut station.gate);
    tell_word(trial, if is_short { "awake" } else { "slept" });
}

// The port in the next word.
fn next_port(trial: &mut Trial) -> u16 {
    match u16::try_from(trial.small()) {
        Ok(port) => port,
        Err(_) => {
            trial.refuse("a word is no port");
            0
        }
    }
}

// Lets one peer in: its host, and what it sent.
fn let_in<D: Door>(trial: &mut Trial, door: &mut D)
    requires { (D.tells door.old).links.out ≡ false }
{
    match door.accept() {
        Came::Peer { host, mut link } => {
            tell_bytes(trial, host.as_slice());
            tell_got(trial, listen(&mut link));
            door.give_back(link);
        }
        Came::Closed | Came::Failed => tell_word(trial, "none"),
    }
}

// The station of a net of one, at a port.
fn station_at(rt: HostRuntime, port: u16) -> Option<RealStation>
    ensures { IfSome result (λ station. (told_by_door station.door).links.out ≡ false) }
{
    let mut net = RealNet::new(rt);
    match net.stations(port, 1, None) {
        Manned::Stations(mut stations) => stations.pop(),
        Manned::Failed | Manned::OutOfMemory => None,
    }
}

// Lets one peer in by the station of a net at a port.
fn visit(rt: HostRuntime, trial: &mut Trial) {
    let port = next_port(trial);
    if trial.is_refused() {
        return;
    }
    match station_at(rt, port) {
        Some(mut station) => let_in(trial, &mut station.door),
        None => trial.refuse("the system failed"),
    }
}

// Connects to a host, and sends it a greeting.
fn call(rt: HostRuntime, trial: &mut Trial) {
    let host = trial.word();
    let mut dial = RealDial::new(rt, Timeouts::new(rt));
    match dial.connect(host.as_bytes(), next_port(trial)) {
        Dialled::Linked(mut link) => tell_put(trial, link.send(b"hello")),
        Dialled::Failed => tell_word(trial, "failed"),
    }
}

/// `tcp talk`, `tcp reset`, `tcp wait`, `tcp half`, `tcp unanswered`, `tcp stations`, `tcp busy`, `tcp sessions COUNT`,
/// `tcp visit PORT`, `tcp call HOST PORT`.
pub fn tcp(rt: HostRuntime, trial: &mut Trial) {
    match trial.word() {
        "talk" => talks(rt, trial),
        "reset" => resets(rt, trial),
        "wait" => waits(rt, trial),
        "half" => halves(rt, trial),
        "unanswered" => unanswered(rt, trial),
        "stations" => stations(rt, trial),
        "busy" => busy(rt, trial),
        "sessions" => sessions(rt, trial),
        "visit" => visit(rt, trial),
        "call" => call(rt, trial),
        _ => trial.refuse("no such word"),
    }
}
