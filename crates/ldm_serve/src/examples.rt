//! Worked examples.
ghost use Rattle.ldm_serve.specs.Examples.{Accepted, AcceptedLength, Reclassed, Denied};
ghost use Rattle.ldm_serve.specs.Examples.{LongRefused, RefusedUnread, TooLargeUnread};
ghost use Rattle.ldm_serve.specs.Examples.{NoRules, Known, Inserted, Faults, OutOfPlace};

/// What the definition says of single records. It does nothing.
#[tactic(auto, unfolding(ldm_relay::specs::Spelling::written, ldm_relay::specs::Spelling::reply_header, ldm_relay::specs::Spelling::accepted_header, ldm_relay::specs::Spelling::no_authentication, ldm_xdr::specs::Spelling::number))]
pub fn worked_examples()
    ensures accepted { Accepted }
    ensures accepted_length { AcceptedLength }
    ensures reclassed { Reclassed }
    ensures denied { Denied }
    ensures no_rules { NoRules }
    ensures known { Known }
    ensures inserted { Inserted }
    ensures faults { Faults }
    ensures out_of_place { OutOfPlace }
    ensures refused_unread { RefusedUnread }
    ensures too_large_unread { TooLargeUnread }
    ensures long_refused { LongRefused }
{}
