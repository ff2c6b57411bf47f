//! What lines say.

use crate::address::Address;
use crate::command::CommandText;
use crate::transfer::Transfer;
use arrayvec::ArrayVec;
use ldm_types::{Feed, LONGEST_PATTERN};

/// What a line adds to a configuration. Its patterns are not built yet.
#[derive(Drop)]
pub enum Directive<'a> {
    /// Who may be fed what.
    Allow {
        feed: Feed,
        host: &'a [u8],
        ok: Option<&'a [u8]>,
        not: Option<&'a [u8]>,
    },
    /// Who may push what.
    Accept {
        feed: Feed,
        pattern: &'a [u8],
        host: &'a [u8],
    },
    /// What to ask for.
    Request {
        feed: Feed,
        pattern: ArrayVec<u8, LONGEST_PATTERN>,
        address: Address,
        transfer: Transfer,
    },
    /// A program to start.
    Exec {
        command: CommandText<'a>,
    },
}

/// What a line says.
#[derive(Drop)]
pub enum Statement<'a> {
    /// It has no word.
    Blank,
    /// It adds to the configuration.
    Adds(Directive<'a>),
    /// The lines of the file under that path stand here.
    Includes(&'a str),
}
