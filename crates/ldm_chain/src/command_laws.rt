//! What the number that a chain ends with says of its queues.
ghost use Rattle.std.specs.Prelude.{◌≡◌, ◌⊎◌, ℕ, List};
ghost use Rattle.std.specs.List.{AllByRecursion};
ghost use Rattle.ldm_outside.specs.Io.{WritesFront};
ghost use Rattle.ldm_model.specs.declared.event.Entry.{Entry};
ghost use Rattle.ldm_model.specs.State.{State};
ghost use Rattle.ldm_model.specs.History.{after};
ghost use Rattle.ldm_model.specs.Lawful.{IsLawful};
ghost use Rattle.ldm_chain.specs.Script.{script_played};
ghost use Rattle.ldm_chain.specs.Work.{ChainOutside, ChainWork};
ghost use Rattle.ldm_chain.specs.CommandQueues.{nodes_text};
ghost use Rattle.ldm_chain.specs.CommandEnding.{Chains};
ghost use Rattle.ldm_chain.specs.Law.{ObeysChainLaw};

/// A chain that ends with 0, or with 75 since the sink failed, has fed each node: the calls of the script obey the law
/// of the queue, and each queue is what stands after a history that does; and the text of the queues is what the sink
/// took of it, also where the sink reports nothing. No other cause has these numbers.
pub fn queues_are_of_histories()
    ensures { (work : ChainWork) (code : ℕ) (old new : ChainOutside) → (code ≡ 0) ⊎ (code ≡ 75)
        → ObeysChainLaw work code old new →
        (queues : List State)
        × ((chains : Chains work queues old new)
        × IsLawful work.arena work.slots (script_played work.arena work.slots chains.script).playing.history
        × AllByRecursion (λ (queue : State). (history : List Entry) × IsLawful work.arena work.slots history
        × (queue ≡ after work.arena work.slots history)) queues
        × WritesFront old.streams.sink (nodes_text 1 queues) new.streams.sink) }
{}
