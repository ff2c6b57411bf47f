//! Rules of access.

use crate::configuration::classes::{class_of, product, tell_class};
use ldm_class::{Policy, PolicyFault, Reduced};
use ldm_drive::{Trial, feed_in};

/// Begins a policy, or adds a rule to it.
pub fn change(name: &str, policy: &mut Policy, trial: &mut Trial) {
    match name {
        "allow" => allow(policy, trial),
        "accept" => accept(policy, trial),
        _ => begin(name == "policy_all", policy, trial),
    }
}

fn begin(is_for_all: bool, policy: &mut Policy, trial: &mut Trial) {
    let begun = if is_for_all {
        Policy::all(trial.alloc())
    } else {
        Policy::create(trial.alloc())
    };
    match begun {
        Ok(begun) => {
            *policy = begun;
            trial.tell("done");
        }
        Err(_) => trial.lack_memory(),
    }
}

// An ALLOW rule: feedtypes, host, okpattern and notpattern, of which the last two may be `-` for none.
fn allow(policy: &mut Policy, trial: &mut Trial) {
    let word = trial.word();
    let feed = feed_in(trial, word);
    let host = trial.word_text();
    let ok = trial.word_text();
    let not = trial.word_text();
    let added = policy.add_allow(trial.alloc(), feed, &host, given(&ok), given(&not));
    tell_added(trial, added);
}

fn given(pattern: &[u8]) -> Option<&[u8]> {
    if pattern.is_empty() {
        None
    } else {
        Some(pattern)
    }
}

// An ACCEPT rule: feedtypes, pattern and host.
fn accept(policy: &mut Policy, trial: &mut Trial) {
    let word = trial.word();
    let feed = feed_in(trial, word);
    let pattern = trial.word_text();
    let host = trial.word_text();
    let added = policy.add_accept(trial.alloc(), feed, &pattern, &host);
    tell_added(trial, added);
}

fn tell_added(trial: &mut Trial, added: Result<(), PolicyFault>) {
    match added {
        Ok(()) => trial.tell("done"),
        Err(fault) => trial.tell_debug(&fault),
    }
}

/// Asks the rules about a host, which is to push or to be fed.
pub fn ask(name: &str, policy: &Policy, trial: &mut Trial) {
    let push = match trial.word() {
        "push" => true,
        "feed" => false,
        _ => return trial.refuse("`push` or `feed` is missing"),
    };
    let host = trial.word_text();
    match name {
        "reduce" => reduce(policy, &host, push, trial),
        "verdict" => verdict(policy, &host, push, trial),
        _ => verdicts(policy, &host, push, trial),
    }
}

// Whether a host may push a product, or be fed it.
fn verdict(policy: &Policy, host: &[u8], push: bool, trial: &mut Trial) {
    let Some(info) = product(trial) else {
        return trial.refuse("no product");
    };
    match policy.verdict(trial.alloc(), host, &info, push) {
        Ok(verdict) => trial.tell_debug(&verdict),
        Err(_) => trial.lack_memory(),
    }
}

// The same of the policy of the host, asked twice.
fn verdicts(policy: &Policy, host: &[u8], push: bool, trial: &mut Trial) {
    let Some(info) = product(trial) else {
        return trial.refuse("no product");
    };
    let Ok(mut policy) = policy.for_host(trial.alloc(), host, push) else {
        return trial.lack_memory();
    };
    if policy.host() != host {
        return trial.refuse("another host");
    }
    trial.tell_debug(&policy.verdict(&info));
    trial.tell(" ");
    trial.tell_debug(&policy.verdict(&info));
}

// What is left of a class that a host wants to push, or to be fed.
fn reduce(policy: &Policy, host: &[u8], push: bool, trial: &mut Trial) {
    let Some(class) = class_of(trial) else {
        return trial.refuse("no class");
    };
    match policy.reduce(trial.alloc(), host, &class, push) {
        Ok(reduced) => tell_reduced(trial, &reduced),
        Err(_) => trial.lack_memory(),
    }
}

fn tell_reduced(trial: &mut Trial, reduced: &Reduced) {
    match reduced {
        Reduced::Same => trial.tell("Same"),
        Reduced::Fewer(left) => tell_class(trial, left),
        Reduced::Nothing { rule } => {
            trial.tell("Nothing { rule: ");
            trial.tell_value(rule);
            trial.tell(" }");
        }
    }
}
