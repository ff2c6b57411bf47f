//! A check of the definitions: worked examples that compute.
ghost use Rattle.std.specs.Prelude.{◌≡◌, ◌∷◌, [], map};
ghost use Rattle.ldm_node_command.specs.LineExamples.{sample_request};
ghost use Rattle.ldm_node_command.specs.Lines.{lines_from, request_bytes};

/// Worked examples of the lines of requests.
pub fn worked_examples_of_lines()
    ensures bytes { request_bytes sample_request
        ≡ 104 ∷ 0 ∷ 1 ∷ 132 ∷ 0 ∷ 0 ∷ 0 ∷ 4 ∷ 46 ∷ 42 ∷ 0 ∷ [] }
    ensures actors { map (λ line. line.actor) (lines_from 2 (sample_request ∷ sample_request ∷ []))
        ≡ 2 ∷ 3 ∷ [] }
    ensures lasts { map (λ line. line.last) (lines_from 2 (sample_request ∷ sample_request ∷ [])) ≡ 0 ∷ 0 ∷ [] }
{}
