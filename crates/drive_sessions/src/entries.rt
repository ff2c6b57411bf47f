//! The entries of a text.

use ldm_drive::{Trial, tell_fault, text_or_bytes};
use ldm_pqact_conf::{Entries, Entry, PqactFault, read_pqact};
use ldm_text::LONGEST_CONFIGURATION;

/// The entries that a text means, or its fault.
pub fn entries_of(trial: &mut Trial, text: &[u8]) -> Option<Result<Entries, PqactFault>> {
    if text.len() > LONGEST_CONFIGURATION {
        trial.refuse("the text is too long");
        return None;
    }
    Some(read_pqact(trial.alloc(), text))
}

/// Reads a text and keeps its entries. Tells how many there are and what the last one does, or the fault.
pub fn read(name: &str, kept: &mut Option<Entries>, trial: &mut Trial) {
    let text = text_or_bytes(trial, name == "pqact");
    match entries_of(trial, &text) {
        Some(Ok(entries)) => {
            tell_summary(trial, &entries);
            *kept = Some(entries);
        }
        Some(Err(fault)) => tell_fault(trial, fault.line, fault.kind.number(), &fault.kind),
        None => {}
    }
}

fn tell_summary(trial: &mut Trial, entries: &Entries) {
    trial.tell_value(&entries.len());
    trial.tell(" read");
    if let Some(last) = entries.as_slice().last() {
        tell_entry(trial, last);
    }
}

fn tell_entry(trial: &mut Trial, entry: &Entry) {
    trial.tell(", the last at line ");
    trial.tell_value(&entry.line());
    trial.tell(": ");
    trial.tell_debug(&entry.action());
    for word in entry.words() {
        trial.tell(" ");
        trial.tell_shown(word.bytes());
    }
}

// The place of an entry that a case gives.
fn kept_at<'a>(kept: &'a Option<Entries>, place: u32) -> Option<&'a Entry> {
    kept.as_ref()?.as_slice().get(place as usize)
}

/// The feedtypes of an entry, whether it is an `_ELSE_` entry, and its options.
pub fn entry(kept: &Option<Entries>, trial: &mut Trial) {
    let place = trial.small();
    let Some(entry) = kept_at(kept, place) else {
        return trial.refuse("no such entry");
    };
    tell_feed(trial, entry.feed().0);
    trial.tell(" else ");
    trial.tell_value(&entry.is_else());
    trial.tell(" ");
    trial.tell_debug(&entry.options());
}

// Feedtypes in eight hexadecimal digits.
fn tell_feed(trial: &mut Trial, feed: u32) {
    trial.tell("0x");
    trial.tell_digits(&feed.to_be_bytes());
}

/// Whether the pattern of an entry is found in an ident.
pub fn found(kept: &Option<Entries>, trial: &mut Trial) {
    let place = trial.small();
    let Some(entry) = kept_at(kept, place) else {
        return trial.refuse("no such entry");
    };
    let ident = trial.text();
    match entry.is_found(trial.alloc(), &ident) {
        Ok(is_found) => trial.tell_value(&is_found),
        Err(_) => trial.lack_memory(),
    }
}
