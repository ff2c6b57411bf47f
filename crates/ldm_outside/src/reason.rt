//! Why a call of the outside failed, in the words of the system.

/// The most bytes of a reason.
pub const LONGEST_REASON: usize = 200;

/// What keeps the words of the system from a call that failed.
pub trait Reasons {
    ghost use Rattle.ldm_outside.specs.Reason.{IsReason};

    /// Why its last call failed that did, as a log line can have it, such as `etc/ldmd.conf: No such file or directory`:
    /// at most [`LONGEST_REASON`] bytes, none of them a control byte. Empty where the system said nothing.
    fn reason(&self) -> &[u8]
        ensures { IsReason result.now };
}
