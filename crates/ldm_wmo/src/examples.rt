//! A check of the definitions: worked examples that compute.
ghost use Rattle.std.specs.Prelude.{◌≡◌, ◌∷◌, [], Some, None, codes, length, true, false};
ghost use Rattle.ldm_wmo.specs.declared.framing.Framing.TheVariants.{Line};
ghost use Rattle.ldm_wmo.specs.declared.stage.TheConstants.{LARGEST_BULLETIN};
ghost use Rattle.ldm_wmo.specs.Headings.{is_heading};
ghost use Rattle.ldm_wmo.specs.Lines.{heading_in, number_in};
ghost use Rattle.ldm_wmo.specs.Items.{Bulletin, Bad};
ghost use Rattle.ldm_wmo.specs.Samples.{sample, sample_heading, sample_stream};
ghost use Rattle.ldm_wmo.specs.Streams.{cut_at_end, items_of};
ghost use Rattle.ldm_wmo.specs.Writing.{digits_of};

/// Worked examples of streams, numbers and headings.
pub fn worked_examples()
    ensures size { length sample ≡ 39 }
    ensures items { items_of Line sample_stream ≡ Bulletin 2 1 sample_heading sample ∷ Bad 41 ∷ [] }
    ensures cut { cut_at_end Line sample_stream ≡ Some 43 }
    ensures largest { LARGEST_BULLETIN ≡ 1048576 }
    ensures no_digit { number_in (codes " ") ≡ None }
    ensures one_digit { number_in (codes "7 \t ") ≡ Some 7 }
    ensures five_digits { number_in (codes "99999") ≡ Some 99999 }
    ensures six_digits { number_in (codes "000001") ≡ None }
    ensures blank_before { number_in (codes " 1") ≡ None }
    ensures indicator { heading_in (codes "SAUS44 KWBC 010000 COR\t ") ≡ Some (codes "SAUS44 KWBC 010000 COR") }
    ensures no_indicator { heading_in (codes "SAUS44 KWBC 010000  ") ≡ Some sample_heading }
    ensures short_indicator { heading_in (codes "SAUS44 KWBC 010000 CO") ≡ None }
    ensures station { is_heading (codes "SAUS44 K9B0 010000") ≡ true }
    ensures letter { is_heading (codes "SAuS44 KWBC 010000") ≡ false }
    ensures tab { is_heading (codes "SAUS44\tKWBC 010000") ≡ false }
    ensures short_number { digits_of 1 ≡ codes "001" }
    ensures long_number { digits_of 99999 ≡ codes "99999" }
{}
