//! A check of the definitions: worked examples that compute.
ghost use Rattle.std.specs.Prelude.{◌≡◌, Ok, Err, None, codes};
ghost use Rattle.ldm_script.specs.Grammar.{read_line as reading};

/// Worked examples of lines that cannot be read: each with the column of its first fault.
#[tactic(auto, unfolding(crate::specs::Grammar::read_line, crate::specs::Grammar::read_order, crate::specs::Grammar::read_on_cursor, crate::specs::Grammar::read_read, crate::specs::Grammar::read_open, crate::specs::Grammar::read_insert, crate::specs::Grammar::read_details, crate::specs::Grammar::word_of_text, crate::specs::Grammar::start_word_of_text))]
pub fn worked_examples()
    ensures no_number { reading 64 (codes "x stat") ≡ Err 1 }
    ensures no_such_actor { reading 4 (codes "4 stat") ≡ Err 1 }
    ensures no_such_word { reading 64 (codes "0 stats") ≡ Err 3 }
    ensures no_word { reading 64 (codes "0") ≡ Err 2 }
    // Two blanks are an empty field, and so is a blank at the end.
    ensures two_blanks { reading 64 (codes "0  stat") ≡ Err 3 }
    ensures last_blank { reading 64 (codes "0 stat ") ≡ Err 7 }
    ensures surplus { reading 64 (codes "0 stat x") ≡ Err 7 }
    ensures no_place { reading 64 (codes "0 step") ≡ Err 7 }
    ensures no_such_place { reading 64 (codes "0 step 64") ≡ Err 8 }
    ensures leading_zero { reading 64 (codes "0 read . 01 5") ≡ Err 10 }
    ensures most_bytes { reading 64 (codes "0 read . 0 4097") ≡ Err 12 }
    ensures no_such_start { reading 64 (codes "0 open 1 later") ≡ Err 10 }
    ensures no_instant { reading 64 (codes "0 open 1 after") ≡ Err 15 }
    // A `-` has one spelling, and a body has an even number of digits.
    ensures other_spelling { reading 64 (codes "0 insert 1 md5 1 0 %2d - -") ≡ Err 20 }
    ensures odd_body { reading 64 (codes "0 insert 1 md5 1 0 - - 616") ≡ Err 24 }
    ensures comment { reading 64 (codes "# stat") ≡ Ok None }
{}
