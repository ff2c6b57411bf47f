//! Programs.
ghost use Rattle.std.specs.Prelude.{◌<◌, length};

use ldm_drive::{
    Trial, copied, detach, numbers, shut, start, start_beside, tell_bytes, tell_count, tell_word,
    text_copied, write,
};
use ldm_outside::{Launcher, Put};
use ldm_outside_memory::MemLauncher;

// How a child came to its end, or which call failed.
enum Ran {
    Ended(u32),
    FailedAt(u64),
}

// Starts a child, writes `ab` and `c` to it, shuts its input and waits for it.
fn run_one<L: Launcher>(launcher: &mut L, words: &[String]) -> Ran
    requires { 0 < length words.now }
{
    let Ok(child) = start(launcher, words, true) else {
        return Ran::FailedAt(1);
    };
    if write(launcher, child, b"ab") == Put::Failed {
        return Ran::FailedAt(2);
    }
    if write(launcher, child, b"c") == Put::Failed {
        return Ran::FailedAt(3);
    }
    if shut(launcher, child).is_err() {
        return Ran::FailedAt(4);
    }
    match launcher.wait(child) {
        Ok(status) => Ran::Ended(status),
        Err(_) => Ran::FailedAt(5),
    }
}

// Starts a child that is not piped, writes to it and waits for it. Whether it took bytes is told.
fn run_unpiped<L: Launcher>(trial: &mut Trial, launcher: &mut L, words: &[String]) -> Ran
    requires { 0 < length words.now }
{
    let Ok(child) = start(launcher, words, false) else {
        return Ran::FailedAt(1);
    };
    let put = write(launcher, child, b"ab");
    tell_word(trial, if put == Put::Failed { "failed" } else { "took" });
    match launcher.wait(child) {
        Ok(status) => Ran::Ended(status),
        Err(_) => Ran::FailedAt(3),
    }
}

// Starts two children and detaches the first. The second is given `ab`, its input is shut, and it is waited for.
fn run_beside<L: Launcher>(launcher: &mut L, words: &[String]) -> Ran
    requires { 0 < length words.now }
{
    let Ok(first) = start(launcher, words, true) else {
        return Ran::FailedAt(1);
    };
    let Ok(second) = start_beside(launcher, words, true, first) else {
        return Ran::FailedAt(2);
    };
    detach(launcher, first);
    if write(launcher, second, b"ab") == Put::Failed {
        return Ran::FailedAt(3);
    }
    if shut(launcher, second).is_err() {
        return Ran::FailedAt(4);
    }
    match launcher.wait(second) {
        Ok(status) => Ran::Ended(status),
        Err(_) => Ran::FailedAt(5),
    }
}

fn end_of_launcher(trial: &mut Trial, launcher: &MemLauncher, ran: Ran) {
    match ran {
        Ran::Ended(status) => tell_count(trial, "status", u64::from(status)),
        Ran::FailedAt(call) => tell_count(trial, "at", call),
    }
    tell_count(trial, "faults", launcher.faults());
    for child in launcher.children() {
        tell_word(trial, "child");
        tell_bytes(trial, child.given());
        tell_word(trial, if child.is_shut() { "shut" } else { "taking" });
        let is_over = child.is_waited_for();
        tell_word(trial, if is_over { "over" } else { "running" });
    }
}

/// `run FAILING`: a child that ends with 7.
pub fn run(trial: &mut Trial) {
    let words = [text_copied(trial, "cat")];
    let statuses = copied(trial, &[7]);
    let mut launcher = MemLauncher::new(trial.alloc(), statuses, numbers(trial));
    let ran = run_one(&mut launcher, &words);
    end_of_launcher(trial, &launcher, ran);
}

/// `unpiped`: a child that takes nothing, where the list of statuses is over.
pub fn unpiped(trial: &mut Trial) {
    let alloc = trial.alloc();
    let words = [text_copied(trial, "cat")];
    let mut launcher = MemLauncher::new(alloc, Vec::new(alloc), Vec::new(alloc));
    let ran = run_unpiped(trial, &mut launcher, &words);
    end_of_launcher(trial, &launcher, ran);
}

/// `detached FAILING`: a child that is detached, and one beside it that ends with 8.
pub fn detached(trial: &mut Trial) {
    let words = [text_copied(trial, "cat")];
    let statuses = copied(trial, &[7, 8]);
    let mut launcher = MemLauncher::new(trial.alloc(), statuses, numbers(trial));
    let ran = run_beside(&mut launcher, &words);
    end_of_launcher(trial, &launcher, ran);
}
