//! A node of a tree.
ghost use Rattle.std.specs.Prelude.{◌≡◌, ◌++◌, IfOk, OnOk};
ghost use Rattle.cn_tree.specs.Tree.{node_of};

use crate::node_path::NodePath;
use hse_io::NoMemory;
use hse_rows::Shared;
use std::alloc::Global;
use std::marker::Model;

/// A path with sets, newest first.
#[derive(Drop)]
pub(crate) struct Node<R: Shared> {
    pub(crate) path: NodePath,
    pub(crate) sets: Vec<R>,
}

impl<R: Shared> Model for Node<R> {
    ghost use Rattle.cn_tree.specs.Tree.{TreeNode, node_of};

    ghost Value = { TreeNode R };

    ghost view = { λ n. node_of n.path n.sets.items };
}

impl<R: Shared> Node<R> {
    /// A node of these sets.
    pub(crate) fn of(path: NodePath, sets: Vec<R>) -> Node<R>
        ensures { result ≡ node_of path sets.items }
    {
        Node { path, sets }
    }

    /// The path.
    pub(crate) fn path(&self) -> &NodePath
        ensures { result.now ≡ self.now.path }
    {
        &self.path
    }

    /// The sets.
    pub(crate) fn sets(&self) -> &[R]
        ensures { result.now ≡ self.now.sets }
    {
        &self.sets
    }

    /// The same node, with its sets shared.
    pub(crate) fn share(&self, alloc: Global) -> Result<Node<R>, NoMemory>
        ensures { IfOk result (λ node. node ≡ self.now) }
    {
        let sets = share_all(alloc, &self.sets)?;
        Ok(Node {
            path: self.path.copy(),
            sets,
        })
    }
}

/// One more owner of each set.
pub(crate) fn share_all<R: Shared>(alloc: Global, sets: &[R]) -> Result<Vec<R>, NoMemory>
    ensures { IfOk result (λ twins. twins.items ≡ sets.now) }
{
    let mut twins = Vec::with_capacity(alloc, sets.len())?;
    add_shares(alloc, &mut twins, sets)?;
    Ok(twins)
}

/// Adds one more owner of each of these sets.
pub(crate) fn add_shares<R: Shared>(
    alloc: Global,
    into: &mut Vec<R>,
    sets: &[R],
) -> Result<(), NoMemory>
    ensures { OnOk result (into.new.items ≡ into.old.items ++ sets.now) }
{
    for set in sets {
        into.push(set.share(alloc)?)?;
    }
    Ok(())
}
