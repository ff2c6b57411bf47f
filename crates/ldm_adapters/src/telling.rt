//! What the system said of a call that failed, as a reason.

use arrayvec::ArrayString;
use ldm_outside::Reason;
use std::fmt::Write;
use std::io;

// The most bytes of a name in a reason, so that there is room for what the system said.
const LONGEST_NAME: usize = 130;

// Room for what the system says of an error.
const LONGEST_WORDS: usize = 256;

/// Makes the reason `NAME: WORDS`, of an error at what has the name.
pub(crate) fn tell(why: &mut Reason, name: &[u8], error: &io::Error) {
    why.clear();
    put_name(why, name);
    put_words(why, error);
}

/// Makes the reason `HOST:PORT: WORDS`, of an error at a peer.
pub(crate) fn tell_peer(why: &mut Reason, host: &[u8], port: u16, error: &io::Error) {
    why.clear();
    put_name(why, host);
    why.put(b":");
    why.put_number(u64::from(port));
    put_words(why, error);
}

/// Makes the reason `port PORT: WORDS`, of an error at a port of this machine.
pub(crate) fn tell_port(why: &mut Reason, port: u16, error: &io::Error) {
    why.clear();
    why.put(b"port ");
    why.put_number(u64::from(port));
    put_words(why, error);
}

// Puts the front of a name.
fn put_name(why: &mut Reason, name: &[u8]) {
    why.put(&name[..name.len().min(LONGEST_NAME)]);
}

// Puts what the system says of an error, behind a colon.
fn put_words(why: &mut Reason, error: &io::Error) {
    let mut words: ArrayString<LONGEST_WORDS> = ArrayString::new();
    // what there is no room for is left out
    let _ = write!(words, "{error}");
    why.put(b": ");
    why.put(without_number(words.as_str().as_bytes()));
}

// The words without the number of the error behind them.
fn without_number(words: &[u8]) -> &[u8] {
    for at in 0..words.len() {
        if words[at..].starts_with(b" (os error ") {
            return &words[..at];
        }
    }
    words
}
