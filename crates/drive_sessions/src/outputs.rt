//! Actions that are carried out over a store and a launcher in memory.
ghost use Rattle.ldm_outside_memory.specs.MemLauncher.{told_by_launcher};
ghost use Rattle.ldm_outside_memory.specs.MemStore.{told_by_store};
ghost use Rattle.ldm_actions.specs.Outputs.{BeginsHand, HasHand, KeepsUnlessSpent, standing};

use crate::steps::{Step, step_in};
use ldm_actions::{Action, Begun, Done, Outputs};
use ldm_drive::{Trial, numbers, push};
use ldm_outside::{Launcher, Store};
use ldm_outside_memory::{MemFile, MemLauncher, MemStore};
use md5::{Digest, Md5};

// How many steps a case may have.
const MOST_STEPS: u64 = 10_000;

// How many calls are made to fail, one after another.
const MOST_CALLS: u64 = 2_000;

// Tells what a call came to.
fn tell_done(trial: &mut Trial, done: Done) {
    trial.tell(match done {
        Done::Ok => ".",
        Done::StoreFault => "S",
        Done::LaunchFault => "L",
    });
}

// Begins an action: whether the body can be given.
fn begin<F: Store, L: Launcher>(
    trial: &mut Trial,
    outputs: &mut Outputs,
    store: &mut F,
    launcher: &mut L,
    action: &Action,
) -> Begun
    requires { KeepsUnlessSpent (standing outputs.old (F.tells store.old) (L.tells launcher.old)) }
    ensures keeps { KeepsUnlessSpent (standing outputs.new (F.tells store.new) (L.tells launcher.new)) }
    ensures in_hand { BeginsHand result outputs.new }
{
    let begun = outputs.begin(store, launcher, action);
    match begun {
        Begun::Ready => trial.tell("."),
        Begun::StoreFault => trial.tell("S"),
        Begun::LaunchFault => trial.tell("L"),
        Begun::OutOfMemory => trial.lack_memory(),
    }
    begun
}

// Gives the pieces of a body, which are text with a comma between two.
fn give<F: Store, L: Launcher>(
    trial: &mut Trial,
    outputs: &mut Outputs,
    store: &mut F,
    launcher: &mut L,
    pieces: &str,
)
    requires keeps { KeepsUnlessSpent (standing outputs.old (F.tells store.old) (L.tells launcher.old)) }
    requires in_hand { HasHand outputs.old }
    ensures keeps { KeepsUnlessSpent (standing outputs.new (F.tells store.new) (L.tells launcher.new)) }
    ensures in_hand { HasHand outputs.new }
{
    for piece in pieces.split(',') {
        let bytes = trial.text_in(piece);
        let done = outputs.piece(store, launcher, &bytes);
        tell_done(trial, done);
    }
}

// Carries out an action, which is not finished where the step says so.
fn carry_out<F: Store, L: Launcher>(
    trial: &mut Trial,
    outputs: &mut Outputs,
    store: &mut F,
    launcher: &mut L,
    step: &Step,
)
    requires { KeepsUnlessSpent (standing outputs.old (F.tells store.old) (L.tells launcher.old)) }
    ensures { KeepsUnlessSpent (standing outputs.new (F.tells store.new) (L.tells launcher.new)) }
{
    if begin(trial, outputs, store, launcher, &step.action) == Begun::OutOfMemory {
        return;
    }
    give(trial, outputs, store, launcher, step.pieces);
    if !step.is_left {
        let done = outputs.finish(store, launcher);
        tell_done(trial, done);
    }
}

// The next step of a case.
fn take_step<F: Store, L: Launcher>(
    trial: &mut Trial,
    outputs: &mut Outputs,
    store: &mut F,
    launcher: &mut L,
)
    requires { KeepsUnlessSpent (standing outputs.old (F.tells store.old) (L.tells launcher.old)) }
    ensures { KeepsUnlessSpent (standing outputs.new (F.tells store.new) (L.tells launcher.new)) }
{
    let word = trial.word();
    if word == "close" {
        let done = outputs.close_all(store, launcher);
        return tell_done(trial, done);
    }
    match step_in(trial, word) {
        Some(step) => carry_out(trial, outputs, store, launcher, &step),
        None => trial.refuse("a word is no step"),
    }
}

// All steps of a case.
fn take_steps(
    trial: &mut Trial,
    outputs: &mut Outputs,
    store: &mut MemStore,
    launcher: &mut MemLauncher,
)
    requires { KeepsUnlessSpent (standing outputs.old (told_by_store store.old) (told_by_launcher launcher.old)) }
{
    for _ in 0..MOST_STEPS {
        if trial.is_done() || trial.is_refused() {
            return;
        }
        take_step(trial, outputs, store, launcher);
        trial.tell(" ");
    }
}

/// Adds all files.
pub fn tell_files(trial: &mut Trial, files: &[MemFile]) {
    trial.tell("files");
    for file in files {
        trial.tell(" ");
        trial.tell(file.path());
        trial.tell("=");
        trial.tell_shown(file.bytes());
    }
}

/// Adds all children, with what they were given.
pub fn tell_children(trial: &mut Trial, launcher: &MemLauncher) {
    trial.tell(" children");
    for child in launcher.children() {
        trial.tell(" ");
        trial.tell_shown(child.given());
        if child.is_shut() {
            trial.tell(" shut");
        }
        if child.is_waited_for() {
            trial.tell(" waited");
        }
    }
}

// Takes the steps of a case over a store and a launcher whose calls of these numbers fail, and tells what stands: how
// often they failed.
fn run(trial: &mut Trial, failing: Vec<u64>, failing_launches: Vec<u64>, most: usize) -> u64 {
    let alloc = trial.alloc();
    let mut store = MemStore::new(alloc, Vec::new(alloc), failing);
    let mut launcher = MemLauncher::new(alloc, Vec::new(alloc), failing_launches);
    store.limit_pieces(most);
    launcher.limit_pieces(most);
    match Outputs::create(alloc) {
        Ok(mut outputs) => take_steps(trial, &mut outputs, &mut store, &mut launcher),
        Err(_) => trial.lack_memory(),
    }
    tell_files(trial, store.files());
    tell_children(trial, &launcher);
    trial.tell(" opened ");
    trial.tell_value(&store.opened().len());
    trial.tell(" faults ");
    trial.tell_number(store.faults());
    trial.tell(" ");
    trial.tell_number(launcher.faults());
    store.faults().saturating_add(launcher.faults())
}

/// The steps of a case, over a store and a launcher whose calls of the given numbers fail, and of which a write takes
/// at most so many bytes.
pub fn outputs(trial: &mut Trial) {
    let failing = numbers(trial);
    let failing_launches = numbers(trial);
    let most = trial.small() as usize;
    run(trial, failing, failing_launches, most);
}

// The same where one call fails.
fn run_failing(trial: &mut Trial, is_launch: bool, call: u64, most: usize) -> u64 {
    let mut failing = Vec::new(trial.alloc());
    push(trial, &mut failing, call);
    let none = Vec::new(trial.alloc());
    if is_launch {
        run(trial, none, failing, most)
    } else {
        run(trial, failing, none, most)
    }
}

/// The steps of a case once for each call of the store or the launcher, which fails: how many there are, and the MD5 of
/// all answers, each with a newline.
pub fn every(trial: &mut Trial, is_launch: bool) {
    let most = trial.small() as usize;
    let steps = trial.rest();
    let mut hasher = Md5::new();
    let mut count = 0;
    for call in 1..MOST_CALLS {
        let mut one = Trial::of(trial.alloc(), steps);
        if run_failing(&mut one, is_launch, call, most) == 0 {
            break;
        }
        hasher.update(one.answer());
        hasher.update("\n");
        count = call;
    }
    trial.tell_number(count);
    trial.tell(" fail, ");
    trial.tell_digits(&hasher.finalize());
}
