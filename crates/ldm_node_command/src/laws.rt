//! What the number that a node ends with says of its queue.
ghost use Rattle.std.specs.Prelude.{◌≡◌, ◌⊎◌, ℕ, List, Option};
ghost use Rattle.ldm_types.specs.declared.signature.Signature.{Signature};
ghost use Rattle.ldm_outside.specs.Io.{WritesFront};
ghost use Rattle.ldm_outside.specs.Station.{StationRecord};
ghost use Rattle.ldm_model.specs.declared.event.Entry.{Entry};
ghost use Rattle.ldm_model.specs.Lawful.{IsLawful};
ghost use Rattle.ldm_shared.specs.Passes.{PassView};
ghost use Rattle.ldm_conf.specs.Confs.{ConfView};
ghost use Rattle.ldm_node.specs.declared.stop.NodeStop.{NodeStop};
ghost use Rattle.ldm_node_command.specs.Law.{ObeysNodeLaw};
ghost use Rattle.ldm_node_command.specs.Node.{Works, stat_line};
ghost use Rattle.ldm_node_command.specs.Outside.{Outside};
ghost use Rattle.ldm_node_command.specs.Setup.{Setup};

/// A node that ends with 0, or with 75 since the sink failed, was run: the history of all calls of its queue, which the
/// last pass has seen, obeys the law of the queue, and the line of the queue after it is what the sink took of it, also
/// where the sink reports nothing. No other cause has these numbers. `S` is the type of a station.
pub fn line_is_of_a_history<S>()
    ensures { (tells : S → StationRecord) (setup : Setup) (code : ℕ) (old new : Outside S) → (code ≡ 0) ⊎ (code ≡ 75)
        → ObeysNodeLaw tells setup code old new →
        (history : List Entry)
        × (IsLawful setup.arena setup.slots history
        × WritesFront old.sink (stat_line setup history) new.sink
        × ((conf : ConfView) × (given : List S) × (lasts : List (Option Signature)) × (last : PassView)
        × (stop : NodeStop) × (last.seen ≡ history)
        × Works tells setup conf lasts given (record { pass = last; stations = new.kept; end = stop }))) }
{}
