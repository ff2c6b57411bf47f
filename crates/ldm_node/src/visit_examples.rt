//! A check of the definitions: worked examples that compute.
ghost use Rattle.std.specs.Prelude.{◌≡◌, [], ◌∷◌, codes, map, None, Some};
ghost use Rattle.ldm_node.specs.declared.stop.NodeStop.TheVariants.{Done};
ghost use Rattle.ldm_node.specs.ServingEnds.{stop_by};
ghost use Rattle.ldm_node.specs.VisitExamples.{sample_lines, sample_visits};
ghost use Rattle.ldm_node.specs.VisitsTold.{hosts_of, log_of};

/// Worked examples of what is told of visits.
pub fn worked_examples_of_visits()
    ensures log { log_of sample_visits sample_lines
        ≡ codes "session a ended\nunwanted q\nsession b linkfault\ngap c 2 0 1\nsession c stopped\n" }
    ensures hosts { hosts_of sample_visits ≡ codes "a" ∷ codes "b" ∷ codes "c" ∷ [] }
    // The last of them ends the worker.
    ensures stops { map (λ visit. stop_by visit.end) sample_visits ≡ None ∷ None ∷ Some Done ∷ [] }
{}
