//! Lines and words of texts.

use ldm_drive::Trial;
use ldm_text::{Comments, begins_with, first_line, first_word, is_blank_text, to_word};

/// Answers a case of a text.
pub fn answer(name: &str, trial: &mut Trial) {
    match name {
        "lines" => lines(trial),
        "words" => words(trial),
        "blank" => blank(trial),
        _ => begins(trial),
    }
}

// The lines of a text.
fn lines(trial: &mut Trial) {
    let text = trial.text();
    trial.tell("lines");
    let mut rest = Some(text.as_slice());
    for _ in 0..=text.len() {
        let Some(left) = rest else { break };
        let (line, behind) = first_line(left);
        tell_part(trial, line);
        rest = behind;
    }
}

fn tell_part(trial: &mut Trial, part: &[u8]) {
    trial.tell(" ");
    trial.tell_shown(part);
}

fn words(trial: &mut Trial) {
    let comments = match trial.word() {
        "hash" => Comments::Hash,
        "never" => Comments::Never,
        _ => return trial.refuse("`hash` or `never` is missing"),
    };
    let text = trial.text();
    trial.tell("words");
    tell_words(trial, comments, &text);
}

// The words of a text, up to the first with a wrong quote.
fn tell_words(trial: &mut Trial, comments: Comments, text: &[u8]) {
    let mut left = text;
    for _ in 0..=text.len() {
        let rest = to_word(comments, left);
        if rest.is_empty() {
            break;
        }
        let Some((word, behind)) = first_word(comments, rest) else {
            trial.tell(" and a wrong quote");
            break;
        };
        tell_part(trial, word);
        left = behind;
    }
}

// Whether a text is blank.
fn blank(trial: &mut Trial) {
    let text = trial.text();
    trial.tell_value(&is_blank_text(&text));
}

// Whether a text begins with a byte.
fn begins(trial: &mut Trial) {
    let Some(byte) = trial.word().as_bytes().first() else {
        return trial.refuse("a byte is missing");
    };
    let text = trial.text();
    trial.tell_value(&begins_with(*byte, &text));
}
