//! A check of the definitions: worked examples that compute.
ghost use Rattle.std.specs.Prelude.{◌≡◌, codes, length, None, Some};
ghost use Rattle.ldm_node.specs.Roles.{Asks, last_for, role_of};
ghost use Rattle.ldm_node.specs.TryExamples.{sample_lines, sample_plan, sample_primary, sample_product};
ghost use Rattle.ldm_node.specs.TryExamples.{sample_request, sample_tries};
ghost use Rattle.ldm_node.specs.Tries.{asking};
ghost use Rattle.ldm_node.specs.TriesTold.{Follow, asked_by, log_of};

/// Worked examples of what is told of tries.
pub fn worked_examples_of_tries()
    ensures log { log_of sample_request sample_tries sample_lines
        ≡ codes "unreached h\nunwanted q\nsession h ended\nsession h outofmemory\n" }
    ensures asked { length (asked_by sample_request sample_tries) ≡ 3 }
    ensures resumed { Follow None sample_tries }
    // Each worker that asks begins behind the last product of its own request.
    ensures first { (role_of sample_plan 2 ≡ Asks sample_request) × (last_for sample_plan 2 ≡ None) }
    ensures second { (role_of sample_plan 3 ≡ Asks sample_primary) × (last_for sample_plan 3 ≡ Some sample_product) }
    // A PRIMARY line asks for larger products whole.
    ensures alternate { (asking sample_request None).max_hereis ≡ 16384 }
    ensures primary { (asking sample_primary None).max_hereis ≡ 1048576 }
{}
