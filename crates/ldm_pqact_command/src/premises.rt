//! What the promise to complete asks for can be. This function does nothing: its contract says so.
ghost use Rattle.ldm_pqact_command.specs.Complete.{Unfailing};
ghost use Rattle.ldm_pqact_command.specs.Premises.{after_filing, before_filing};

/// Nothing failed where the body of one product, which came over one link, went to a file, over a net, a store, a
/// launcher and a log of memory.
pub fn premises_are_met()
    ensures { Unfailing (λ store. store) (λ launcher. launcher) before_filing after_filing }
{}
