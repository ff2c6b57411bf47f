//! A check of the definitions: worked examples that compute.
ghost use Rattle.std.specs.Prelude.{◌≡◌, codes};
ghost use Rattle.ldm_intake.specs.declared.end.RecvEnd.TheVariants as receiving;
ghost use Rattle.ldm_node.specs.SessionEnds.{end_of_receiving};
ghost use Rattle.ldm_node.specs.Lines.{session_line, unreached_line};

/// Worked examples of the lines.
pub fn worked_examples_of_lines()
    ensures ended { session_line (codes "idd.example.org") (end_of_receiving receiving.Ended)
        ≡ codes "session idd.example.org ended\n" }
    // What an end carries is not told.
    ensures truncated { session_line (codes "h") (end_of_receiving (receiving.Truncated 9))
        ≡ codes "session h truncated\n" }
    ensures out_of_memory { session_line (codes "h") (end_of_receiving receiving.OutOfMemory)
        ≡ codes "session h outofmemory\n" }
    ensures unreached { unreached_line (codes "192.0.2.7") ≡ codes "unreached 192.0.2.7\n" }
{}
