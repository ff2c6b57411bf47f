//! What the promises to complete ask for can be. This function does nothing: its contract says so.
ghost use Rattle.ldm_pqact.specs.Complete.{Unhindered, sight_in};
ghost use Rattle.ldm_pqact.specs.Premises.{after_filing, before_filing};

/// Nothing hindered where the body of one product went to a file, over a store, a launcher and a log of memory.
pub fn premises_are_met()
    ensures { Unhindered (sight_in before_filing) (sight_in after_filing) }
{}
