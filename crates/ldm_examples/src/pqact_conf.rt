//! The example of ldm_pqact_conf.

use ldm_pqact_conf::{ActionKind, Entries};

/// How many entries start programs of their own.
pub fn count_programs(entries: &Entries) -> usize {
    entries
        .as_slice()
        .iter()
        .filter(|entry| entry.action() == ActionKind::Exec)
        .count()
}
