//! Values of a case that more than one driver reads.

use crate::Trial;
use arrayvec::ArrayVec;
use ldm_feedtype::read_feed;
use ldm_types::{Feed, Info, Micros, Signature, Spec};

/// The feedtypes that a feed expression means.
pub fn feed_in(trial: &mut Trial, text: &str) -> Feed {
    match read_feed(text.as_bytes()) {
        Ok(feed) => feed,
        Err(_) => {
            trial.refuse("no feedtypes");
            Feed(0)
        }
    }
}

/// The specification of a text `FEED/PATTERN`.
pub fn spec_in(trial: &mut Trial, text: &str) -> Option<Spec> {
    let (feed, pattern) = text.split_once('/')?;
    let feed = feed_in(trial, feed);
    let pattern = ArrayVec::try_from(trial.text_in(pattern).as_slice()).ok()?;
    Some(Spec { feed, pattern })
}

/// The next word, which is a signature in hexadecimal digits.
pub fn signature(trial: &mut Trial) -> Signature {
    let bytes = trial.bytes();
    let mut signature = [0; 16];
    if bytes.len() == 16 {
        signature.copy_from_slice(&bytes);
    } else {
        trial.refuse("a signature has 16 bytes");
    }
    Signature(signature)
}

/// Metadata with a signature that repeats a byte, the origin `h` and the sequence number 1.
pub fn plain_info(arrival: Micros, byte: u8, feed: Feed, ident: &[u8], size: u32) -> Option<Info> {
    Info::new(arrival, Signature([byte; 16]), b"h", feed, 1, ident, size).ok()
}
