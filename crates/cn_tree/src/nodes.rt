//! Nodes in the order of their paths, as they stand in a vector.
ghost use Rattle.std.specs.Prelude.{◌≡◌, [], ◌∷◌, length, OnOk, IfOk};
ghost use Rattle.std.specs.List.{filter};
ghost use Rattle.std.specs.Prelude.{not};
ghost use Rattle.hse_rows.specs.writes.Sorted.{placed};
ghost use Rattle.std.specs.List.Sorted.{IsBinarySearchResult, IsSearchInRange, IsStrictlySortedBy};
ghost use Rattle.cn_tree.specs.Tree.{AreNodes, path_cmp, node_of, is_at, sets_at, with_sets};

use crate::node::{Node, add_shares};
use crate::node_path::NodePath;
use hse_io::NoMemory;
use hse_rows::Shared;
use std::alloc::Global;
use std::marker::Model;

/// Nodes with sets, each path once, in order.
#[derive(Drop)]
pub(crate) struct Nodes<R: Shared> {
    list: Vec<Node<R>>,
}

impl<R: Shared> Model for Nodes<R> {
    ghost use Rattle.std.specs.Prelude.{List};
    ghost use Rattle.cn_tree.specs.Tree.{TreeNode, AreNodes};

    ghost Value = { List (TreeNode R) };

    ghost view = { λ n. n.list.items };

    ghost invariant = { λ n. AreNodes n.list.items };
}

impl<R: Shared> Nodes<R> {
    /// These nodes.
    pub(crate) fn of(list: Vec<Node<R>>) -> Nodes<R>
        requires { AreNodes list.items }
        ensures { result ≡ list.items }
    {
        Nodes { list }
    }

    /// The nodes, in order.
    pub(crate) fn list(&self) -> &[Node<R>]
        ensures value { result.now ≡ self.now }
        ensures known { AreNodes self.now }
    {
        &self.list
    }
}

/// Where the node of this path stands, or else where it would.
fn place<R: Shared>(nodes: &[Node<R>], path: &[u8]) -> Result<usize, usize>
    ensures bound { IsSearchInRange result (length nodes.now) }
    ensures position { IsBinarySearchResult
        (λ node. path_cmp node (node_of path.now [])) nodes.now result }
{
    nodes.binary_search_by(|node| node.path().digits().cmp(path))
}

/// The sets of the node of this path, and none where there is no such node.
pub(crate) fn sets_of<'a, R: Shared>(nodes: &'a [Node<R>], path: &[u8]) -> &'a [R]
    requires { IsStrictlySortedBy path_cmp nodes.now }
    ensures { result.now ≡ sets_at nodes.now path.now }
{
    match place(nodes, path) {
        Ok(at) => nodes[at].sets(),
        Err(_) => &[],
    }
}

/// Equal nodes, with their sets shared.
pub(crate) fn share_nodes<R: Shared>(
    alloc: Global,
    nodes: &[Node<R>],
) -> Result<Vec<Node<R>>, NoMemory>
    ensures { IfOk result (λ twins. twins.items ≡ nodes.now) }
{
    let mut twins = Vec::with_capacity(alloc, nodes.len())?;
    for node in nodes {
        twins.push(node.share(alloc)?)?;
    }
    Ok(twins)
}

/// The node of this path leaves.
fn drop_node<R: Shared>(nodes: &mut Vec<Node<R>>, path: &[u8])
    requires { IsStrictlySortedBy path_cmp nodes.old.items }
    ensures { nodes.new.items ≡ filter (λ node. not (is_at path.now node)) nodes.old.items }
{
    match place(nodes, path) {
        Ok(at) => drop(nodes.remove(at)),
        Err(_) => {}
    }
}

/// The node takes the place of that of its path.
fn put_node<R: Shared>(nodes: &mut Vec<Node<R>>, node: Node<R>) -> Result<(), NoMemory>
    requires { IsStrictlySortedBy path_cmp nodes.old.items }
    ensures { OnOk result (nodes.new.items
        ≡ placed path_cmp (filter (λ n. not (is_at node.path n)) nodes.old.items) node) }
{
    match place(nodes, node.path().digits()) {
        Ok(at) => nodes[at] = node,
        Err(at) => nodes.insert(at, node)?,
    }
    Ok(())
}

/// The node of this path gets these sets, and leaves where there is none.
pub(crate) fn put_sets<R: Shared>(
    nodes: &mut Vec<Node<R>>,
    path: &NodePath,
    sets: Vec<R>,
) -> Result<(), NoMemory>
    requires { IsStrictlySortedBy path_cmp nodes.old.items }
    ensures { OnOk result (nodes.new.items
        ≡ with_sets nodes.old.items path.now sets.items) }
{
    if sets.is_empty() {
        drop_node(nodes, path.digits());
        return Ok(());
    }
    put_node(nodes, Node::of(path.copy(), sets))
}

/// A new set at the front of the node of this path.
pub(crate) fn put_set_in_front<R: Shared>(
    alloc: Global,
    nodes: &mut Vec<Node<R>>,
    path: &NodePath,
    set: R,
) -> Result<(), NoMemory>
    requires { IsStrictlySortedBy path_cmp nodes.old.items }
    ensures { OnOk result (nodes.new.items
        ≡ with_sets nodes.old.items path.now (set ∷ sets_at nodes.old.items path.now)) }
{
    let behind = sets_of(nodes, path.digits());
    let mut sets = Vec::with_capacity(alloc, 4)?;
    sets.push(set)?;
    add_shares(alloc, &mut sets, behind)?;
    put_sets(nodes, path, sets)
}
