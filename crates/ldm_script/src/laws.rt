//! What holds of all lines. These functions do nothing: their contracts are the laws.
ghost use Rattle.std.specs.Prelude.{◌≡◌, ◌+◌, ◌<◌, ◌≤◌, ℕ, List, length, Err};
ghost use Rattle.ldm_script.specs.Faults.{IsFirstFault};
ghost use Rattle.ldm_script.specs.Grammar.{read_line as reading};

use crate::line::LONGEST_LINE;

/// The column that [`read_line`](crate::read_line) tells is that of the first field at which no line of the grammar
/// goes on: some line begins with what stands in front of it, and none with that and the field. Where a field is
/// missing, it is one past the end, and some line begins with all that is there and a blank. Where a field is too many,
/// it is that of the blank in front of it: what stands before is a line, and no line begins with that and the blank. A
/// line that is too long is refused at the first column that is too much.
pub fn finds_the_first_fault()
    ensures first { (actors : ℕ) (line : List ℕ) (column : ℕ) → 0 < actors → length line ≤ LONGEST_LINE
        → reading actors line ≡ Err column → IsFirstFault actors line column }
    ensures long { (actors : ℕ) (line : List ℕ) → LONGEST_LINE < length line
        → reading actors line ≡ Err (LONGEST_LINE + 1) }
{}
