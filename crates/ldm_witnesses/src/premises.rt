//! What the promises to complete ask for can be. This function does nothing: its contract says so.
ghost use Rattle.ldm_witnesses.specs.Premises.{PlayIsUnhindered, CrowdIsUnhindered};
ghost use Rattle.ldm_witnesses.specs.Premises.{ChainIsUnhindered, NodeIsUnhindered, JournalIsUnhindered};

/// There is a play, a crowd, a chain and a node that nothing hinders, also a node with a journal: over streams, a store,
/// stations and a desk of memory of which nothing failed, with a script of one line, a class and a configuration.
pub fn premises_are_met()
    ensures play { PlayIsUnhindered }
    ensures crowd { CrowdIsUnhindered }
    ensures chain { ChainIsUnhindered }
    ensures node { NodeIsUnhindered }
    ensures journal { JournalIsUnhindered }
{}
