//! A check of the definitions: worked examples that compute.
ghost use Rattle.std.specs.Prelude.{◌≡◌, ◌++◌, [], ◌∷◌, codes, Err};
ghost use Rattle.ldm_tools.specs.declared.put_fault.PutFault.TheVariants.{Denied};
ghost use Rattle.ldm_tools.specs.Owing.{AreOwed};
ghost use Rattle.ldm_wmo.specs.declared.framing.Framing.TheVariants.{Line};
ghost use Rattle.ldm_wmo.specs.Samples.{sample, sample_heading, sample_stream};
ghost use Rattle.ldm_wmo.specs.declared.ingest_fault.IngestFault.TheVariants.{Put};
ghost use Rattle.ldm_wmo.specs.declared.outcome.Outcome.TheVariants.{Bad, Refused};
ghost use Rattle.ldm_wmo.specs.declared.statuses.TheConstants.{BAD_BULLETIN};
ghost use Rattle.ldm_wmo.specs.Ingesting.{from_heading, reports_of};
ghost use Rattle.ldm_wmo.specs.Outcomes.{first_of, owed_of};
ghost use Rattle.ldm_wmo.specs.Owing.{ending_owed};
ghost use Rattle.ldm_wmo.specs.IngestSamples.{refused_first, sample_answers, sample_denial, sample_items};
ghost use Rattle.ldm_wmo.specs.IngestSamples.{sample_steps};

/// Worked examples of what is signed, written and owed, for a stream of a bulletin, a bad one and a cut one.
pub fn worked_examples_of_ingesting()
    ensures signed { from_heading sample ≡ codes "SAUS44 KWBC 010000\r\r\nTEXT\r\r\n" ++ 3 ∷ [] }
    ensures report { reports_of sample_items
        ≡ record { seqno = 1; heading = sample_heading; bytes = sample } ∷ [] }
    ensures bad_first { first_of sample_steps ≡ Bad }
    ensures refused_first { first_of refused_first ≡ Refused }
    ensures number { BAD_BULLETIN ≡ 65 }
    ensures owed { AreOwed (reports_of sample_items) sample_answers }
    ensures owed_bad { owed_of sample_items sample_answers ≡ Bad }
    ensures denied_ending { ending_owed Line sample_stream sample_denial ≡ Err (Put Denied) }
{}
