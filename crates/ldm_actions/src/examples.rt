//! A check of the definitions: worked examples that compute.
ghost use Rattle.std.specs.Prelude.{◌≡◌, ◌+◌, [], ◌∷◌, Some, None, true, false, codes, length};
ghost use Rattle.ldm_actions.specs.World.{input_shut, over};
ghost use Rattle.ldm_actions.specs.Effects.{Start, Nothing, acted, begun, effects, closed};
ghost use Rattle.ldm_actions.specs.Parts.{begin_parts, close_parts};
ghost use Rattle.ldm_actions.specs.Strip.{kept};
ghost use Rattle.ldm_actions.specs.Examples.{nothing_yet, to_a, to_b, files_after, file_of, to_sort};
ghost use Rattle.ldm_actions.specs.Examples.{sort_given, program_of, fed_many, waited_in};

/// Worked examples of what actions do to files, worked out by hand.
pub fn worked_examples_of_files()
    ensures appends { files_after
        ((to_a false false, codes "AB") ∷ (to_b, codes "x") ∷ (to_a false false, codes "CD") ∷ [])
        ≡ Some (file_of (codes "a") (codes "ABCD") ∷ file_of (codes "b") (codes "x") ∷ []) }
    ensures overwrites { files_after ((to_a false false, codes "AB") ∷ (to_a true false, codes "CD") ∷ []) ≡ Some
        (file_of (codes "a") (codes "CD") ∷ []) }
    ensures empties_before_the_body { files_after ((to_a true false, codes "AB") ∷ (to_a false false, codes "CD") ∷ [])
        ≡ Some (file_of (codes "a") (codes "ABCD") ∷ []) }
    ensures makes_an_empty_file { files_after ((to_a false false, []) ∷ []) ≡ Some (file_of (codes "a") [] ∷ []) }
    ensures strips { kept true (65 ∷ 1 ∷ 13 ∷ 10 ∷ 195 ∷ 127 ∷ 66 ∷ 31 ∷ 32 ∷ 126 ∷ 128 ∷ []) ≡ 65 ∷ 10 ∷ 66 ∷ 32 ∷ 126
        ∷ [] }
    ensures writes_what_is_left { files_after ((to_a false true, 65 ∷ 1 ∷ 66 ∷ []) ∷ []) ≡ Some
        (file_of (codes "a") (codes "AB") ∷ []) }
    ensures fails_before_it_empties { begin_parts (to_a true false) nothing_yet
        ≡ nothing_yet.outside ∷ (begun (to_a false false) nothing_yet).outside ∷ [] }
    ensures nothing { effects ((Nothing, codes "AB") ∷ []) nothing_yet ≡ nothing_yet }
{}

/// Worked examples of what actions do to programs.
pub fn worked_examples_of_programs()
    ensures one_child { (effects
        ((to_sort false, codes "AB") ∷ (to_sort false, codes "CD") ∷ []) nothing_yet).outside.children
        ≡ Some (sort_given (codes "ABCD") false ∷ []) }
    ensures closes_all { (closed
        (effects ((to_sort false, codes "AB") ∷ (to_sort false, codes "CD") ∷ []) nothing_yet)).outside.children
        ≡ Some (sort_given (codes "ABCD") true ∷ []) }
    ensures closes_each { (effects
        ((to_sort true, codes "AB") ∷ (to_sort true, codes "CD") ∷ []) nothing_yet).outside.children
        ≡ Some (sort_given (codes "AB") true ∷ sort_given (codes "CD") true ∷ []) }
    ensures joins_words { (acted (program_of (codes "sort -r" ∷ [])) (codes "CD")
        (acted (to_sort false) (codes "AB") nothing_yet)).outside.children
        ≡ Some (sort_given (codes "ABCD") false ∷ []) }
    ensures starts_each_time { waited_in
        (effects ((Start (codes "a" ∷ []) false, []) ∷ (Start (codes "a" ∷ []) true, []) ∷ []) nothing_yet) 0
        ≡ Some false }
    ensures waits { waited_in
        (effects ((Start (codes "a" ∷ []) false, []) ∷ (Start (codes "a" ∷ []) true, []) ∷ []) nothing_yet) 1
        ≡ Some true }
    ensures fills { (length (fed_many 32).piped ≡ 32) × (waited_in (fed_many 32) 0 ≡ Some false) }
    ensures ends_the_longest_unwritten { (length (fed_many 33).piped ≡ 32) × (waited_in (fed_many 33) 0 ≡ Some true)
        × (waited_in (fed_many 33) 1 ≡ Some false) }
    ensures ends_none_that_was_written_since { let world = acted (program_of ((99 ∷ []) ∷ [])) []
        (acted (program_of ((0 ∷ []) ∷ [])) [] (fed_many 32)) in
        (waited_in world 0 ≡ Some false) × (waited_in world 1 ≡ Some true) }
    ensures fails_at_the_second_child { let world = fed_many 2 in close_parts world
        ≡ world.outside ∷ world.outside ∷ input_shut 0 world.outside ∷ over 0 world.outside ∷ input_shut 1
        (over 0 world.outside) ∷ [] }
{}
