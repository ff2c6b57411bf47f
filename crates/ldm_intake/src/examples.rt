//! Worked examples.
ghost use Rattle.ldm_intake.specs.Examples.{LastBlock, RefusedCommit, OtherBlocks, OnePending, OtherBlockSize};
ghost use Rattle.ldm_intake.specs.Examples.{NotWanted, NoBody, Refusals, Requests, Narrower, GivenUp};

/// What the definition of receiving says of single messages. It does nothing.
pub fn worked_examples()
    ensures last_block { LastBlock }
    ensures refused_commit { RefusedCommit }
    ensures other_blocks { OtherBlocks }
    ensures one_pending { OnePending }
    ensures other_block_size { OtherBlockSize }
    ensures not_wanted { NotWanted }
    ensures no_body { NoBody }
    ensures refusals { Refusals }
    ensures requests { Requests }
    ensures narrower { Narrower }
    ensures given_up { GivenUp }
{}
