//! Patterns and feed expressions.

use ldm_drive::{Trial, text_or_bytes};
use ldm_feedtype::{feed_text, read_feed};
use ldm_pattern::{BoundedPattern, GroupNo, Pattern};
use std::alloc::Global;

/// Answers a case of a pattern or a feed expression.
pub fn answer(name: &str, trial: &mut Trial) {
    match name {
        "find" => find(trial),
        "part" => part(trial),
        "group" => group(trial),
        _ => feed(name == "feed", trial),
    }
}

fn find(trial: &mut Trial) {
    let source = trial.word_text();
    let text = trial.text();
    match Pattern::build(trial.alloc(), &source) {
        Ok(pattern) => tell_found(trial, &pattern, &source, &text),
        Err(refusal) => trial.tell_debug(&refusal),
    }
}

// Whether a pattern is found in a text, in each way in which that is asked.
fn tell_found(trial: &mut Trial, pattern: &Pattern, source: &[u8], text: &[u8]) {
    let Ok(is_in) = pattern.is_in(trial.alloc(), text) else {
        return trial.lack_memory();
    };
    let Ok(mut matcher) = pattern.matcher(trial.alloc()) else {
        return trial.lack_memory();
    };
    if matcher.finds(text) != is_in || matcher.finds(text) != is_in {
        return trial.refuse("another answer");
    }
    // A budget of nothing has room for no table.
    for most in [Pattern::LARGEST, 0] {
        if find_within(trial.alloc(), source, text, most) != Some(is_in) {
            return trial.refuse("another answer within a budget");
        }
    }
    trial.tell_value(&is_in);
}

// Whether a pattern is found in a text by tables within a budget, and without them. None where that is not one answer.
fn find_within(alloc: Global, source: &[u8], text: &[u8], most: usize) -> Option<bool> {
    let pattern = BoundedPattern::build(alloc, source, Pattern::LARGEST).ok()?;
    let is_in = pattern.is_in(alloc, text).ok()?;
    let mut matcher = pattern.matcher(alloc, most).ok()?;
    if matcher.finds(text) == is_in && matcher.finds(text) == is_in {
        Some(is_in)
    } else {
        None
    }
}

fn part(trial: &mut Trial) {
    let source = trial.word_text();
    let Some(group) = group_of(trial) else {
        return trial.refuse("no such group");
    };
    let text = trial.text();
    match Pattern::build(trial.alloc(), &source) {
        Ok(pattern) => tell_part(trial, &pattern, group, &text),
        Err(_) => trial.tell("no pattern"),
    }
}

// The part of a text that a group has in the first match of a pattern.
fn tell_part(trial: &mut Trial, pattern: &Pattern, group: GroupNo, text: &[u8]) {
    let Ok(found) = pattern.groups(trial.alloc(), text) else {
        return trial.lack_memory();
    };
    let Some(groups) = found else {
        return trial.tell("not found");
    };
    match groups.part(group) {
        Some(part) => trial.tell_shown(part),
        None => trial.tell("no part"),
    }
}

// Whether there is a group of the number that a case gives.
fn group(trial: &mut Trial) {
    let group = group_of(trial);
    trial.tell_value(&group.is_some());
}

// The group of the number that a case gives, if there is one.
fn group_of(trial: &mut Trial) -> Option<GroupNo> {
    match u8::try_from(trial.small()) {
        Ok(number) => GroupNo::new(number),
        Err(_) => {
            trial.refuse("a group is no byte");
            None
        }
    }
}

// The feedtypes that an expression means, or its first fault.
fn feed(is_text: bool, trial: &mut Trial) {
    let text = text_or_bytes(trial, is_text);
    match read_feed(&text) {
        Ok(feed) => trial.tell_text(feed_text(feed).as_slice()),
        Err(fault) => trial.tell_debug(&fault),
    }
}
