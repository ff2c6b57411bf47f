//! A check of the definitions: worked examples that compute.
ghost use Rattle.std.specs.Prelude.{◌≡◌, ◌++◌, codes, [], ◌∷◌, true};
ghost use Rattle.ldm_status.specs.Status.{code_of};
ghost use Rattle.ldm_tools.specs.Owing.{AreOwed, status_owed};
ghost use Rattle.ldm_tools.specs.Puts.{put_call};
ghost use Rattle.ldm_tools.specs.Examples.{sample_answers, sample_denial, sample_files, sample_steps};
ghost use Rattle.ldm_tools.specs.Inserting.{ident_of, metadata_of};
ghost use Rattle.ldm_tools.specs.Runs.{are_refused};
ghost use Rattle.ldm_tools.specs.InsertTold.{calls_of, lines_of};

/// Worked examples of what is sent and written, and of what is owed.
pub fn worked_examples()
    ensures lines { lines_of sample_steps ≡ codes "admitted 0 100 0\ntoolong\nduplicate 0\n" }
    // The file that is too long has a number, and no PUT.
    ensures calls { calls_of sample_files 0 0 sample_files.files sample_steps
        ≡ put_call 1 (metadata_of sample_files (record { number = 0; path = codes "f" }) (codes "abc") 100)
        (codes "abc")
        ++ (put_call 2 (metadata_of sample_files (record { number = 2; path = codes "h" }) (codes "abc") 200)
        (codes "abc") ++ []) }
    ensures refused { are_refused sample_steps ≡ true }
    ensures ident { ident_of sample_files (codes "g") ≡ codes "g" }
    ensures owed { AreOwed sample_files.files sample_answers }
    ensures owed_status { code_of (status_owed sample_answers) ≡ 79 }
    ensures denied { AreOwed sample_files.files sample_denial }
    ensures denied_status { code_of (status_owed sample_denial) ≡ 78 }
{}
