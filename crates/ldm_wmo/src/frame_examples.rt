//! A check of the definitions: worked examples that compute.
ghost use Rattle.std.specs.Prelude.{◌≡◌, ◌∷◌, [], None, Some, codes, length};
ghost use Rattle.ldm_wmo.specs.declared.framing.Framing.TheVariants.{Socket};
ghost use Rattle.ldm_wmo.specs.declared.kind.Kind.TheVariants.{Binary, Facsimile};
ghost use Rattle.ldm_wmo.specs.Frames.{head_of};
ghost use Rattle.ldm_wmo.specs.FrameSamples.{behind_head, binary_sample, framed_stream};
ghost use Rattle.ldm_wmo.specs.Items.{Bad, Bulletin};
ghost use Rattle.ldm_wmo.specs.Messages.{messages_of};
ghost use Rattle.ldm_wmo.specs.Samples.{sample, sample_heading};
ghost use Rattle.ldm_wmo.specs.Streams.{cut_at_end, items_of};

/// Worked examples of frames: text and binary bulletins, lengths that do not fit, and other types.
pub fn worked_examples_of_frames()
    ensures size { length binary_sample ≡ 45 }
    ensures scanned { items_of Socket framed_stream
        ≡ Bulletin 0 1 sample_heading sample ∷ Bulletin 49 2 sample_heading binary_sample ∷ [] }
    ensures scanned_cut { cut_at_end Socket framed_stream ≡ Some 112 }
    ensures items { (messages_of framed_stream).items
        ≡ Bulletin 0 1 sample_heading sample ∷ Bulletin 49 2 sample_heading binary_sample ∷ [] }
    ensures cut { (messages_of framed_stream).cut ≡ Some 112 }
    ensures right_length { (messages_of (behind_head (codes "00000045FX"))).items
        ≡ Bulletin 0 2 sample_heading binary_sample ∷ Bulletin 55 1 sample_heading sample ∷ [] }
    ensures text_alone { (messages_of (behind_head (codes "00000045AN"))).items
        ≡ Bad 0 ∷ Bulletin 55 1 sample_heading sample ∷ [] }
    ensures one_less { (messages_of (behind_head (codes "00000044BI"))).items ≡ Bad 0 ∷ [] }
    ensures one_more { (messages_of (behind_head (codes "00000046BI"))).items ≡ Bad 0 ∷ [] }
    ensures other_type { (messages_of (behind_head (codes "00000045XX"))).items ≡ Bad 0 ∷ [] }
    ensures no_digits { (messages_of (behind_head (codes "0000004 BI"))).items ≡ Bad 0 ∷ [] }
    ensures uncut { (messages_of (behind_head (codes "00000046BI"))).cut ≡ None }
    ensures no_bytes { head_of (codes "00000000BI") ≡ None }
    ensures longest { head_of (codes "01048576BI") ≡ Some (record { size = 1048576; kind = Binary }) }
    ensures too_long { head_of (codes "01048577BI") ≡ None }
    ensures facsimile { head_of (codes "00000001FX") ≡ Some (record { size = 1; kind = Facsimile }) }
{}
