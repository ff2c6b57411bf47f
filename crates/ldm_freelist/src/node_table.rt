//! A table of the nodes of a search tree, which are named by their places in it, and the counter of the steps that
//! comparing them takes.
ghost use Rattle.std.specs.Prelude.{◌≡◌, ◌≢◌, ◌+◌, ◌<◌, ◌≤◌, ◌^◌, IfOk, length, slice_set};
ghost use Rattle.ldm_freelist.specs.Pairs.{pair_cmp};
ghost use Rattle.ldm_freelist.specs.Nodes.{node_at, pair_at, height_at, CanJoin, joined};
ghost use Rattle.ldm_freelist.specs.Nodes.{leaf_node, free_node, free_nodes, before};

use ldm_types::OutOfMemory;
use std::alloc::Global;
use std::cmp::Ordering;
use std::marker::Model;
use std::sync::ledger::{Blank, Book, Ledger, Share};

/// The number that names no node.
pub const NONE: u32 = u32::MAX;

/// A pair with its sides, or a free node, whose height is 0 and whose left link names the next free node.
#[derive(Clone, Copy)]
pub struct Node {
    pub extent: u64,
    pub offset: u64,
    pub left: u32,
    pub right: u32,
    pub height: u8,
}

/// The nodes, whose memory is taken when the table is made.
///
/// [`NodeTable::compare`] alone tells the pair of a node, and it takes a step.
#[derive(Drop)]
pub struct NodeTable {
    nodes: Vec<Node>,
}

impl Model for NodeTable {
    ghost use Rattle.std.specs.Prelude.{List};
    ghost use Rattle.ldm_freelist.specs.declared.node_table.Node.{Node};

    ghost Value = { List Node };

    ghost view = { λ table. table.nodes.items };
}

impl NodeTable {
    /// A table of free nodes. Each names the one before it as the next free node.
    pub fn create(alloc: Global, room: u32) -> Result<NodeTable, OutOfMemory>
        ensures { IfOk result (λ table. table ≡ free_nodes room) }
    {
        let mut nodes = Vec::with_capacity(alloc, room as usize)?;
        for number in 0..room {
            nodes.push(Node {
                extent: 0,
                offset: 0,
                left: number_before(number),
                right: NONE,
                height: 0,
            })?;
        }
        Ok(NodeTable { nodes })
    }

    /// How the pair of a node in use stands to the given one, and that pair. This is one step.
    pub fn compare<L: Ledger>(
        &self,
        node: u32,
        extent: u64,
        offset: u64,
        steps: &mut Steps<L>,
    ) -> (Ordering, u64, u64)
        requires node { node < length self.now }
        requires in_use { 0 < (node_at self.now node).height }
        requires few { steps.old < 2 ^ 63 }
        ensures order { result.0 ≡ pair_cmp (pair_at self.now node) (extent, offset) }
        ensures extent { result.1 ≡ (pair_at self.now node).0 }
        ensures offset { result.2 ≡ (pair_at self.now node).1 }
        ensures step { steps.new ≡ steps.old + 1 }
    {
        steps.tick();
        let stored = self.node(node);
        let order = (stored.extent, stored.offset).cmp(&(extent, offset));
        (order, stored.extent, stored.offset)
    }

    /// The roots of the two sides of a node.
    pub fn sides(&self, node: u32) -> (u32, u32)
        requires { node < length self.now }
        ensures left { result.0 ≡ (node_at self.now node).left }
        ensures right { result.1 ≡ (node_at self.now node).right }
    {
        let stored = self.node(node);
        (stored.left, stored.right)
    }

    /// The height of the tree below a node, and 0 where there is no node.
    pub fn height(&self, node: u32) -> u8
        requires { node ≢ NONE → node < length self.now }
        ensures { result ≡ height_at self.now node }
    {
        if node == NONE {
            0
        } else {
            self.node(node).height
        }
    }

    /// Gives a node two sides and the height that follows from theirs.
    pub fn join(&mut self, node: u32, left: u32, right: u32)
        requires { CanJoin self.old node left right }
        ensures { self.new ≡ joined self.old node left right }
    {
        let height = self.height(left).max(self.height(right)) + 1;
        let stored = self.node(node);
        self.nodes[node as usize] = Node {
            left,
            right,
            height,
            ..stored
        };
    }

    /// Makes a node one of a pair and no sides, and answers the next free node.
    pub fn fill(&mut self, node: u32, extent: u64, offset: u64) -> u32
        requires { node < length self.old }
        ensures next { result ≡ (node_at self.old node).left }
        ensures filled { self.new ≡ slice_set self.old node (leaf_node extent offset) }
    {
        let next = self.node(node).left;
        self.nodes[node as usize] = Node {
            extent,
            offset,
            left: NONE,
            right: NONE,
            height: 1,
        };
        next
    }

    /// Makes a node free, in front of the next free node.
    pub fn clear(&mut self, node: u32, next: u32)
        requires { node < length self.old }
        ensures { self.new ≡ slice_set self.old node (free_node next) }
    {
        self.nodes[node as usize] = Node {
            extent: 0,
            offset: 0,
            left: next,
            right: NONE,
            height: 0,
        };
    }

    fn node(&self, node: u32) -> Node
        requires { node < length self.now }
        ensures { result ≡ node_at self.now node }
    {
        self.nodes[node as usize]
    }
}

/// The number before a number, and [`NONE`] before 0.
pub fn number_before(number: u32) -> u32
    ensures { result ≡ before number }
{
    if number == 0 { NONE } else { number - 1 }
}

/// How many steps were taken, for contracts alone: it takes no bytes, and to count has no code.
///
/// [`NodeTable::compare`] alone counts on it. A caller that counts nothing makes one from a [`Blank`] of one part.
#[derive(Drop)]
pub struct Steps<L: Ledger> {
    book: Book<L>,
    share: Share<L>,
}

impl<L: Ledger> Model for Steps<L> {
    ghost use Rattle.std.specs.Prelude.{ℕ, ◌<◌};

    ghost Value = { ℕ };

    ghost view = { λ steps. steps.book.total };

    ghost invariant = { λ steps. 0 < steps.share.parts };
}

impl<L: Ledger> Steps<L> {
    /// A counter at 0.
    pub fn new(blank: Blank) -> Steps<L>
        requires name { blank.name ≡ L.name }
        requires parts { blank.parts ≡ L.parts }
        requires some { 0 < blank.parts }
        ensures { result ≡ 0 }
    {
        let (book, share) = blank.open::<L>();
        Steps { book, share }
    }

    /// Counts one step. Only this module can.
    fn tick(&mut self)
        ensures { self.new ≡ self.old + 1 }
    {
        self.book.add(&mut self.share, 1);
    }
}
