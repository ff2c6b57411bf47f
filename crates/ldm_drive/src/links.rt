//! Links, and what calls of links and streams gave, in words.
ghost use Rattle.ldm_outside.specs.Link.{IsNotClosed};

use crate::Trial;
use crate::words::{tell_number, tell_word};
use ldm_outside::{Awaited, Got, Link, Put};

/// One call of `recv`, with room for eight bytes.
pub fn listen<K: Link>(link: &mut K) -> Got
    requires { IsNotClosed (K.tells link.old) }
    ensures { IsNotClosed (K.tells link.new) }
{
    let mut buffer = [0; 8];
    link.recv(&mut buffer, Awaited::Feed)
}

/// Adds what a call gave, in a word.
pub fn tell_got(trial: &mut Trial, got: Got) {
    match got {
        Got::Bytes(n) => tell_number(trial, n as u64),
        Got::End => tell_word(trial, "end"),
        Got::Failed => tell_word(trial, "failed"),
    }
}

/// Adds what a call took, in a word.
pub fn tell_put(trial: &mut Trial, put: Put) {
    match put {
        Put::Took(n) => tell_number(trial, n as u64),
        Put::Failed => tell_word(trial, "failed"),
    }
}
