//! What a chain is made with.

use ldm_class::Class;

/// The largest arena of a chain, in bytes: a script has no more.
pub const LARGEST_CHAIN_ARENA: u64 = 67_108_864;

/// What a chain is made with.
#[derive(Drop)]
pub struct ChainSetup<'a> {
    /// The path of the configuration whose ALLOW rules say what each node is fed. Without one all is allowed.
    pub conf: Option<&'a str>,
    /// Bytes of the arena of each queue.
    pub arena: u64,
    /// Product slots of each queue.
    pub slots: u32,
    /// The size of the largest product that is to come whole.
    pub max_hereis: u32,
    /// What each node from 1 on asks of the node before it: 1 to 7 classes.
    pub classes: Vec<Class>,
}
