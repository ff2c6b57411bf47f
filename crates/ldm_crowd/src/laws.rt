//! What the number that a crowd ends with says of its history.
ghost use Rattle.std.specs.Prelude.{◌≡◌, ◌⊎◌, ℕ, List};
ghost use Rattle.ldm_outside.specs.Io.{WritesFront};
ghost use Rattle.ldm_status.specs.Streams.{StreamsRecord};
ghost use Rattle.ldm_model.specs.declared.event.Entry.{Entry};
ghost use Rattle.ldm_script.specs.Order.{Asked};
ghost use Rattle.ldm_model.specs.Lawful.{IsLawful};
ghost use Rattle.ldm_crowd.specs.Interleaving.{IsInterleaving, crowd_text};
ghost use Rattle.ldm_crowd.specs.CrowdEnding.{CrowdSize};
ghost use Rattle.ldm_crowd.specs.Law.{ObeysCrowdLaw};

/// A crowd that ends with 0, or with 75 since the sink failed, has played its script: one history of all calls obeys
/// the law of the queue, and the answers of it are what the sink took of them, also where the sink reports nothing. No
/// other cause has these numbers.
pub fn answers_are_of_a_history()
    ensures { (size : CrowdSize) (code : ℕ) (old new : StreamsRecord) → (code ≡ 0) ⊎ (code ≡ 75)
        → ObeysCrowdLaw size code old new →
        (script : List (List Asked))
        × ((history : List Entry) × IsLawful size.arena size.slots history × IsInterleaving script history
        × WritesFront old.sink (crowd_text size.arena size.slots script history) new.sink) }
{}
