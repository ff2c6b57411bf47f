//! What entries do with a product.

use crate::entries::entries_of;
use ldm_drive::Trial;
use ldm_pqact_match::{Action, Chosen, Decision, choose};
use ldm_types::{Feed, Info, Micros, Signature};

// A product, and when it was inserted.
#[derive(Drop)]
struct Inserted {
    info: Info,
    time: Micros,
}

// A product of feed DDS with the sequence number 42.
fn info_of(ident: &[u8]) -> Option<Info> {
    Info::new(
        Micros::new(0)?,
        Signature([0; 16]),
        b"h",
        Feed(2),
        42,
        ident,
        0,
    )
    .ok()
}

// A product, of which a case gives the time and the ident.
fn product_of(trial: &mut Trial) -> Option<Inserted> {
    let time = Micros::new(trial.number())?;
    let word = trial.word();
    let info = info_of(&trial.text_in(word))?;
    Some(Inserted { info, time })
}

fn chosen_by(trial: &mut Trial, text: &[u8], product: &Inserted) -> Option<Vec<Chosen>> {
    let entries = entries_of(trial, text)?.ok()?;
    choose(trial.alloc(), &entries, &product.info, product.time).ok()
}

/// What the entries of a text do with a product. An entry that acts is told by its place, a colon and its words, joined
/// by commas; one whose group is no day by `!` and the group, and one whose word is no text by `?` and the word's
/// place.
pub fn acts(trial: &mut Trial) {
    let Some(product) = product_of(trial) else {
        return trial.refuse("no product");
    };
    let text = trial.text();
    match chosen_by(trial, &text, &product) {
        Some(chosen) => tell_all(trial, &chosen),
        None => trial.refuse("no entries"),
    }
}

fn tell_all(trial: &mut Trial, chosen: &[Chosen]) {
    if chosen.is_empty() {
        return trial.tell("none acts");
    }
    for (place, chosen) in chosen.iter().enumerate() {
        if place > 0 {
            trial.tell(";");
        }
        tell(trial, chosen);
    }
}

fn tell(trial: &mut Trial, chosen: &Chosen) {
    trial.tell_value(&chosen.entry);
    match &chosen.decision {
        Decision::Act(action) => {
            trial.tell(":");
            tell_words(trial, action);
        }
        Decision::NoDate { group } => {
            trial.tell("!");
            trial.tell_value(group);
        }
        Decision::NotText { word } => {
            trial.tell("?");
            trial.tell_value(word);
        }
    }
}

fn tell_words(trial: &mut Trial, action: &Action) {
    for (place, word) in action.words().iter().enumerate() {
        if place > 0 {
            trial.tell(",");
        }
        trial.tell(word.as_str());
    }
}

/// How many entries of a text act on a product, and the place of the last.
pub fn count(trial: &mut Trial) {
    let Some(product) = product_of(trial) else {
        return trial.refuse("no product");
    };
    let text = trial.bytes();
    let Some(chosen) = chosen_by(trial, &text, &product) else {
        return trial.refuse("no entries");
    };
    tell_count(trial, &chosen);
}

fn tell_count(trial: &mut Trial, chosen: &[Chosen]) {
    let Some(last) = chosen.last() else {
        return trial.refuse("none acts");
    };
    trial.tell_value(&chosen.len());
    trial.tell(" act, the last is ");
    trial.tell_value(&last.entry);
}
