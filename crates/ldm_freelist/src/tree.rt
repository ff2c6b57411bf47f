//! Balanced search trees of the nodes of a table. A tree is named by its root, and [`NONE`] is the empty one.
//!
//! At each node the heights of the two sides differ by at most one. The nodes stay where they are in the table, and no
//! call goes deeper than a tree is high.
ghost use Rattle.std.specs.Prelude.{◌≡◌, ◌≢◌, ◌+◌, ◌*◌, ◌<◌, ◌≤◌, ◌^◌, length};
ghost use Rattle.ldm_freelist.specs.Nodes.{height_at, pair_at};
ghost use Rattle.ldm_freelist.specs.Tree.{Tree, Fork, height, root_of, IsTree, IsLoose, Balances, IsAddable, Adds};
ghost use Rattle.ldm_freelist.specs.Tree.{IsLow, HasPair, Takes, TakesTop, TakesFirst, Finds, FindsTo, IsLast};
ghost use Rattle.ldm_freelist.specs.Tree.{IsLeaningLeft};
ghost use Rattle.ldm_freelist.specs.Tree.{IsLeaningRight, RaisesLeft, RaisesLeftInner, RaisesRight, RaisesRightInner};

use crate::node_table::{NONE, NodeTable, Steps};
use std::cmp::Ordering;
use std::sync::ledger::Ledger;

/// Puts a node over two trees whose heights differ by at most two, and answers the root.
pub fn balance(table: &mut NodeTable, node: u32, left: u32, right: u32) -> u32
    requires { (trees : Tree × Tree) × IsLoose table.old node left right trees.0 trees.1 }
    ensures { Balances table.old table.new node left right result }
{
    let left_height = table.height(left);
    let right_height = table.height(right);
    if left_height > right_height + 1 {
        lean_left(table, node, left, right)
    } else if right_height > left_height + 1 {
        lean_right(table, node, left, right)
    } else {
        table.join(node, left, right);
        node
    }
}

/// The same, where the left tree is two higher.
fn lean_left(table: &mut NodeTable, node: u32, left: u32, right: u32) -> u32
    requires loose { (trees : Tree × Tree) × IsLoose table.old node left right trees.0 trees.1 }
    requires higher { height_at table.old left ≡ height_at table.old right + 2 }
    ensures { Balances table.old table.new node left right result }
{
    let (outer, inner) = table.sides(left);
    if table.height(outer) >= table.height(inner) {
        raise_left(table, node, left, right)
    } else {
        raise_left_inner(table, node, left, right)
    }
}

/// The same, where the right tree is two higher.
fn lean_right(table: &mut NodeTable, node: u32, left: u32, right: u32) -> u32
    requires loose { (trees : Tree × Tree) × IsLoose table.old node left right trees.0 trees.1 }
    requires higher { height_at table.old right ≡ height_at table.old left + 2 }
    ensures { Balances table.old table.new node left right result }
{
    let (inner, outer) = table.sides(right);
    if table.height(outer) >= table.height(inner) {
        raise_right(table, node, left, right)
    } else {
        raise_right_inner(table, node, left, right)
    }
}

/// Rotates once: the root of the left tree gets above the node.
fn raise_left(table: &mut NodeTable, node: u32, left: u32, right: u32) -> u32
    requires { (trees : Tree × Tree × Tree)
        × IsLeaningLeft table.old node left right trees.0 trees.1 trees.2
        × (height trees.1 ≤ height trees.0) }
    ensures { RaisesLeft table.old table.new node left right result }
{
    let (outer, inner) = table.sides(left);
    table.join(node, inner, right);
    table.join(left, outer, node);
    left
}

/// Rotates twice: the root of the left tree's inner side gets above both.
fn raise_left_inner(table: &mut NodeTable, node: u32, left: u32, right: u32) -> u32
    requires { (trees : Tree × Tree × Tree)
        × IsLeaningLeft table.old node left right trees.0 trees.1 trees.2
        × (height trees.0 < height trees.1) }
    ensures { RaisesLeftInner table.old table.new node left right result }
{
    let (outer, inner) = table.sides(left);
    let (inner_left, inner_right) = table.sides(inner);
    table.join(left, outer, inner_left);
    table.join(node, inner_right, right);
    table.join(inner, left, node);
    inner
}

/// Rotates once: the root of the right tree gets above the node.
fn raise_right(table: &mut NodeTable, node: u32, left: u32, right: u32) -> u32
    requires { (trees : Tree × Tree × Tree)
        × IsLeaningRight table.old node left right trees.0 trees.1 trees.2
        × (height trees.1 ≤ height trees.2) }
    ensures { RaisesRight table.old table.new node left right result }
{
    let (inner, outer) = table.sides(right);
    table.join(node, left, inner);
    table.join(right, node, outer);
    right
}

/// Rotates twice: the root of the right tree's inner side gets above both.
fn raise_right_inner(table: &mut NodeTable, node: u32, left: u32, right: u32) -> u32
    requires { (trees : Tree × Tree × Tree)
        × IsLeaningRight table.old node left right trees.0 trees.1 trees.2
        × (height trees.2 < height trees.1) }
    ensures { RaisesRightInner table.old table.new node left right result }
{
    let (inner, outer) = table.sides(right);
    let (inner_left, inner_right) = table.sides(inner);
    table.join(node, left, inner_left);
    table.join(right, inner_right, outer);
    table.join(inner, node, right);
    inner
}

/// Puts a node of a new pair into a tree, and answers the root. The node has no sides.
pub fn insert<L: Ledger>(
    table: &mut NodeTable,
    root: u32,
    fresh: u32,
    pair: (u64, u64),
    steps: &mut Steps<L>,
) -> u32
    requires addable { (tree : Tree) × IsAddable table.old root fresh pair tree }
    requires few { steps.old + height_at table.old root < 2 ^ 63 }
    ensures { Adds table.old table.new root fresh pair result }
{
    if root == NONE {
        return fresh;
    }
    let (left, right) = table.sides(root);
    let (order, _, _) = table.compare(root, pair.0, pair.1, steps);
    if order.is_gt() {
        let left = insert(table, left, fresh, pair, steps);
        balance(table, root, left, right)
    } else {
        let right = insert(table, right, fresh, pair, steps);
        balance(table, root, left, right)
    }
}

/// Takes the node of a pair out of a tree that has it, and answers the root of the rest and the node.
pub fn detach<L: Ledger>(
    table: &mut NodeTable,
    root: u32,
    pair: (u64, u64),
    steps: &mut Steps<L>,
) -> (u32, u32)
    requires there { (tree : Tree) × IsLow table.old root tree × HasPair pair tree }
    requires few { steps.old + height_at table.old root < 2 ^ 63 }
    ensures { Takes table.old table.new root pair result }
{
    let (left, right) = table.sides(root);
    let (order, _, _) = table.compare(root, pair.0, pair.1, steps);
    match order {
        Ordering::Greater => {
            let (left, taken) = detach(table, left, pair, steps);
            (balance(table, root, left, right), taken)
        }
        Ordering::Less => {
            let (right, taken) = detach(table, right, pair, steps);
            (balance(table, root, left, right), taken)
        }
        Ordering::Equal => (detach_top(table, root, left, right), root),
    }
}

/// Takes the top node out of a tree, whose sides are given, and answers the root of the rest.
fn detach_top(table: &mut NodeTable, node: u32, left: u32, right: u32) -> u32
    requires { (trees : Tree × Tree)
        × IsLow table.old node (Fork node (pair_at table.old node) trees.0 trees.1)
        × (left ≡ root_of trees.0)
        × (right ≡ root_of trees.1) }
    ensures { TakesTop table.old table.new node left right result }
{
    if right == NONE {
        return left;
    }
    let (right, first) = take_first(table, right);
    balance(table, first, left, right)
}

/// Takes the first node out of a tree that is not empty, and answers the root of the rest and the node.
fn take_first(table: &mut NodeTable, root: u32) -> (u32, u32)
    requires tree { (tree : Tree) × IsLow table.old root tree }
    requires some { root ≢ NONE }
    ensures { TakesFirst table.old table.new root result }
{
    let (left, right) = table.sides(root);
    if left == NONE {
        return (right, root);
    }
    let (left, first) = take_first(table, left);
    (balance(table, root, left, right), first)
}

/// The first pair that does not precede `(need, 0)`, or else the other. This takes a step for each level that it goes
/// down: at most as many as the tree is high, and at least half as many.
pub fn first_from<L: Ledger>(
    table: &NodeTable,
    root: u32,
    need: u64,
    other: Option<(u64, u64)>,
    steps: &mut Steps<L>,
) -> Option<(u64, u64)>
    requires tree { (tree : Tree) × IsTree table.now root tree }
    requires few { steps.old + height_at table.now root < 2 ^ 63 }
    ensures found { Finds table.now root (need, 0) other result }
    ensures steps { steps.old ≤ steps.new }
    ensures few { steps.new ≤ steps.old + height_at table.now root }
    ensures counted { height_at table.now root + 2 * steps.old ≤ 2 * steps.new }
{
    if root == NONE {
        return other;
    }
    let (left, right) = table.sides(root);
    let (order, extent, offset) = table.compare(root, need, 0, steps);
    if order.is_lt() {
        first_from(table, right, need, other, steps)
    } else {
        first_from(table, left, need, Some((extent, offset)), steps)
    }
}

/// The last pair whose extent is at most the given one, or else the other. This takes as many steps as [`first_from`].
pub fn last_to<L: Ledger>(
    table: &NodeTable,
    root: u32,
    most: u64,
    other: Option<(u64, u64)>,
    steps: &mut Steps<L>,
) -> Option<(u64, u64)>
    requires tree { (tree : Tree) × IsTree table.now root tree }
    requires few { steps.old + height_at table.now root < 2 ^ 63 }
    ensures found { FindsTo table.now root most other result }
    ensures steps { steps.old ≤ steps.new }
    ensures few { steps.new ≤ steps.old + height_at table.now root }
    ensures counted { height_at table.now root + 2 * steps.old ≤ 2 * steps.new }
{
    if root == NONE {
        return other;
    }
    let (left, right) = table.sides(root);
    let (_, extent, offset) = table.compare(root, most, 0, steps);
    if extent > most {
        last_to(table, left, most, other, steps)
    } else {
        last_to(table, right, most, Some((extent, offset)), steps)
    }
}

/// The last node of a tree that is not empty.
pub fn last(table: &NodeTable, root: u32) -> u32
    requires tree { (tree : Tree) × IsTree table.now root tree }
    requires some { root ≢ NONE }
    ensures { IsLast table.now root result }
{
    let (_, right) = table.sides(root);
    if right == NONE {
        root
    } else {
        last(table, right)
    }
}
