//! Programs of the system.
ghost use Rattle.std.specs.Prelude.{◌<◌, ◌≢◌, length};
ghost use Rattle.ldm_outside.specs.Launcher.{IsTaking};

use ldm_adapters::{RealGate, RealLauncher};
use ldm_drive::{
    Trial, detach, idle, push, shut, start, start_beside, tell_count, tell_word, text_copied, write,
};
use ldm_outside::{ChildNo, Failed, Launcher, Put};
use std::rt::HostRuntime;

// The words that start a shell with this line.
fn shell(trial: &mut Trial, line: &str) -> [String; 3] {
    [
        text_copied(trial, "sh"),
        text_copied(trial, "-c"),
        text_copied(trial, line),
    ]
}

// How a program ended that was given `ab`.
#[derive(Drop)]
struct Ran {
    took: bool,
    status: u32,
}

// Runs a program, where no call fails.
fn run<L: Launcher>(launcher: &mut L, words: &[String], piped: bool) -> Option<Ran>
    requires { 0 < length words.now }
{
    let child = start(launcher, words, piped).ok()?;
    let took = write(launcher, child, b"ab") != Put::Failed;
    shut(launcher, child).ok()?;
    let status = launcher.wait(child).ok()?;
    Some(Ran { took, status })
}

// Whether a call took what it was given.
fn tell_took(trial: &mut Trial, took: bool) {
    tell_word(trial, if took { "took" } else { "failed" });
}

// Runs a program, and tells how it ended.
fn tell_run<L: Launcher>(trial: &mut Trial, launcher: &mut L, words: &[String], piped: bool)
    requires { 0 < length words.now }
{
    match run(launcher, words, piped) {
        Some(ran) => {
            tell_took(trial, ran.took);
            tell_count(trial, "status", u64::from(ran.status));
        }
        None => tell_took(trial, false),
    }
}

/// `shell PIPED LINE`: a shell with this line, which is given `ab` where PIPED is `piped`.
pub fn run_shell(rt: HostRuntime, trial: &mut Trial) {
    let piped = trial.word() == "piped";
    let line = trial.rest();
    let words = shell(trial, line);
    let mut launcher = RealLauncher::new(rt);
    tell_run(trial, &mut launcher, &words, piped);
    tell_count(trial, "faults", launcher.faults());
}

/// `missing`: a program that there is not.
pub fn missing(rt: HostRuntime, trial: &mut Trial) {
    let words = [text_copied(trial, "/no/such/program")];
    let mut launcher = RealLauncher::new(rt);
    tell_run(trial, &mut launcher, &words, true);
    tell_count(trial, "faults", launcher.faults());
}

// Lets some time pass.
fn pause(rt: HostRuntime) {
    let mut gate = RealGate::new(rt, None);
    for _ in 0..10 {
        idle(&mut gate);
    }
}

// Starts a program that ends at once, and writes to it once it ended: whether it took that.
fn write_late<L: Launcher>(rt: HostRuntime, launcher: &mut L, words: &[String]) -> bool
    requires { 0 < length words.now }
{
    let Ok(child) = start(launcher, words, true) else {
        return false;
    };
    pause(rt);
    let put = write(launcher, child, b"ab");
    launcher.wait(child).is_ok() && put != Put::Failed
}

/// `late`: a write to a program that ended at once.
pub fn late(rt: HostRuntime, trial: &mut Trial) {
    let words = shell(trial, "exit 0");
    let mut launcher = RealLauncher::new(rt);
    let took = write_late(rt, &mut launcher, &words);
    tell_took(trial, took);
    tell_count(trial, "faults", launcher.faults());
}

// How many processes this one has beside the shell itself, alive or dead, as the status of a shell.
const LEFT: &str =
    "n=0; for p in /proc/[0-9]*/stat; do read -r l 2>/dev/null < $p && case \"$l\" in *') '?' '$PPID' '*) n=$((n+1));; esac; done; exit $((n-1))";

// Starts a shell behind some time, and tells how many processes are left then of those that were started before.
fn tell_left<L: Launcher>(rt: HostRuntime, trial: &mut Trial, launcher: &mut L) {
    pause(rt);
    let words = shell(trial, LEFT);
    tell_run(trial, launcher, &words, false);
}

/// `ended COUNT`: so many programs end before another is started.
pub fn ended(rt: HostRuntime, trial: &mut Trial) {
    let mut launcher = RealLauncher::new(rt);
    let words = shell(trial, "exit 5");
    let mut children = Vec::new(rt.alloc());
    for _ in 0..trial.small() {
        match start(&mut launcher, &words, false) {
            Ok(child) => push(trial, &mut children, child),
            Err(_) => trial.refuse("the system failed"),
        }
    }
    tell_left(rt, trial, &mut launcher);
    tell_count(trial, "started", children.len() as u64);
}

// Starts a program, and detaches it: whether it was started.
fn start_detached<L: Launcher>(launcher: &mut L, words: &[String], piped: bool) -> bool
    requires { 0 < length words.now }
{
    let Ok(child) = start(launcher, words, piped) else {
        return false;
    };
    detach(launcher, child);
    true
}

/// `detached PIPED COUNT LINE`: so many shells with this line are started and detached.
pub fn detached(rt: HostRuntime, trial: &mut Trial) {
    let mut launcher = RealLauncher::new(rt);
    let piped = trial.word() == "piped";
    let count = trial.small();
    let line = trial.rest();
    let words = shell(trial, line);
    let mut started = 0u64;
    for _ in 0..count {
        if start_detached(&mut launcher, &words, piped) {
            started = started.saturating_add(1);
        }
    }
    tell_left(rt, trial, &mut launcher);
    tell_count(trial, "started", started);
    tell_count(trial, "faults", launcher.faults());
}

// Waits for a program beside another.
fn wait_beside<L: Launcher>(launcher: &mut L, child: ChildNo, other: ChildNo) -> Result<u32, Failed>
    requires child { IsTaking child (L.tells launcher.old) }
    requires other { IsTaking other (L.tells launcher.old) }
    requires apart { other.0 ≢ child.0 }
    ensures { IsTaking other (L.tells launcher.new) }
{
    launcher.wait(child)
}

fn wait<L: Launcher>(launcher: &mut L, child: ChildNo) -> Result<u32, Failed>
    requires { IsTaking child (L.tells launcher.old) }
{
    launcher.wait(child)
}

// Two programs end, and the later is detached. The status of the earlier.
fn later_detached<L: Launcher>(
    rt: HostRuntime,
    launcher: &mut L,
    first: &[String],
    second: &[String],
) -> Option<u32>
    requires first { 0 < length first.now }
    requires second { 0 < length second.now }
{
    let earlier = start(launcher, first, false).ok()?;
    let later = start_beside(launcher, second, false, earlier).ok()?;
    pause(rt);
    detach(launcher, later);
    wait(launcher, earlier).ok()
}

/// `beside`: two programs end with 5 and 6, and the later is detached.
pub fn beside(rt: HostRuntime, trial: &mut Trial) {
    let mut launcher = RealLauncher::new(rt);
    let first = shell(trial, "exit 5");
    let second = shell(trial, "exit 6");
    match later_detached(rt, &mut launcher, &first, &second) {
        Some(earlier) => tell_count(trial, "earlier", u64::from(earlier)),
        None => trial.refuse("the system failed"),
    }
}

// Two programs end before one of them is waited for. The status of the later, and then of the earlier.
fn later_first<L: Launcher>(
    rt: HostRuntime,
    launcher: &mut L,
    first: &[String],
    second: &[String],
) -> Option<(u32, u32)>
    requires first { 0 < length first.now }
    requires second { 0 < length second.now }
{
    let earlier = start(launcher, first, false).ok()?;
    let later = start_beside(launcher, second, false, earlier).ok()?;
    pause(rt);
    let status = wait_beside(launcher, later, earlier).ok()?;
    Some((status, wait(launcher, earlier).ok()?))
}

/// `kept`: two programs end with 5 and 6 before they are waited for.
pub fn kept(rt: HostRuntime, trial: &mut Trial) {
    let mut launcher = RealLauncher::new(rt);
    let first = shell(trial, "exit 5");
    let second = shell(trial, "exit 6");
    match later_first(rt, &mut launcher, &first, &second) {
        Some((later, earlier)) => {
            tell_count(trial, "later", u64::from(later));
            tell_count(trial, "earlier", u64::from(earlier));
        }
        None => trial.refuse("the system failed"),
    }
}
