//! What a node is set up with.

use ldm_node::NodeOptions;

/// What the words of a command line say of a node.
#[derive(Clone, Copy)]
pub struct NodeSetup<'a> {
    /// Bytes of the arena.
    pub arena: u64,
    /// Product slots.
    pub slots: u32,
    /// What the node is told besides its configuration.
    pub options: NodeOptions,
    /// A number that no stranger knows, for the tables of the queue. No clause speaks of it.
    pub key: u64,
    /// The path of its configuration.
    pub conf: &'a str,
    /// The path of the journal of its queue, if it keeps one.
    pub journal: Option<&'a str>,
    /// Whether its gates may stop with the input of the program. No clause speaks of it.
    pub ends_with_input: bool,
}
