//! Lines.
ghost use Rattle.std.specs.Prelude.{◌≡◌};
ghost use Rattle.ldm_pqact_conf.specs.Lines.{is_skipped};

use ldm_text::{begins_with, is_blank_text};

/// Whether it is a comment line, or has blanks and tabs alone.
pub fn is_skipped(line: &[u8]) -> bool
    ensures { result ≡ is_skipped line.now }
{
    begins_with(b'#', line) || is_blank_text(line)
}
