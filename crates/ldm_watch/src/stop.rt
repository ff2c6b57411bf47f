//! Why bytes are taken no further.

use crate::end::WatchEnd;

/// Why bytes are taken no further.
#[derive(Drop)]
pub(crate) enum Stop {
    /// They ended the watching so.
    Over(WatchEnd),
    /// There is no memory.
    OutOfMemory,
}
