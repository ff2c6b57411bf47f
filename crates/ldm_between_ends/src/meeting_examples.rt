//! The premises of the law of two ends can be met.
ghost use Rattle.ldm_sender.specs.declared.end.SendEnd.TheVariants as fed;
ghost use Rattle.ldm_intake.specs.declared.end.RecvEnd.TheVariants as received;
ghost use Rattle.std.specs.Prelude.{◌≡◌};
ghost use Rattle.ldm_between_ends.specs.Meeting.{FeedingCall, ReceivingCall, Connects, WasGranted};

/// Two calls that a connection joins can be: here a feeder opened its cursor, and the link of either failed before a
/// byte came.
pub fn a_connection_can_be()
    ensures { (f : FeedingCall) × (r : ReceivingCall) × Connects f r × WasGranted f × (f.end ≡ fed.LinkFault)
        × (r.end ≡ received.LinkFault) }
{}
