//! A tree of nodes with sets.
ghost use Rattle.std.specs.Prelude.{◌≡◌, ◌<◌, [], ◌∷◌, length as number_of, map, slice_get, Some, Ok, OnOk, IfOk, IfErr};
ghost use Rattle.std.specs.List.{AllByRecursion};
ghost use Rattle.std.specs.Option.{option_map};
ghost use Rattle.hse_rows.specs.rows.Routing.{hash_of, routing_bytes};
ghost use Rattle.hse_rows.specs.rows.RowSets.{row_by};
ghost use Rattle.row_laws.specs.Sources.{all_rows, Falls};
ghost use Rattle.row_laws.specs.Next.{lasting_at};
ghost use Rattle.cn_tree.specs.Path.{path_of};
ghost use Rattle.cn_tree.specs.Tree.{AreNodes, node_of, in_front, in_fronts, with_run, with_nodes as tree_of, sets_at, sets_on, set_list};
ghost use Rattle.cn_tree.specs.Runs.{IsRun, RefusesRun};
ghost use Rattle.cn_tree.specs.Found.{first_row};
ghost use Rattle.cn_tree.specs.Schedule.{next_pick};

use crate::lookup::first_in;
use crate::node::Node;
use crate::node_path::NodePath;
use crate::nodes::{Nodes, put_set_in_front, put_sets, sets_of, share_nodes};
use crate::routing::{digits_of, route};
use crate::runs::in_place_of_run;
use crate::schedule::{Pick, first_pick};
use crate::tree_fault::TreeFault;
use hse_io::NoMemory;
use hse_rows::{RowRef, Shared};
use std::alloc::Global;
use std::marker::Model;
use std::sync::Arc;

/// The sets of one store at nodes, each with its path. A tree never changes: a call that changes it
/// gives a new one, which shares the sets.
#[derive(Drop)]
pub struct Tree<R: Shared> {
    prefix: u8,
    nodes: Option<Arc<Nodes<R>>>,
}

impl<R: Shared> Model for Tree<R> {
    ghost use Rattle.std.specs.Arc.{arc_value};
    ghost use Rattle.cn_tree.specs.Tree.{TreeState, nodes_in};

    ghost Value = { TreeState R };

    ghost view = { λ t. record { prefix_length = t.prefix; nodes = nodes_in arc_value t.nodes } };
}

impl<R: Shared> Tree<R> {
    /// A tree without sets, of a store whose prefixes have at most `prefix` bytes. It takes no memory.
    pub fn empty(prefix: u8) -> Tree<R>
        ensures { result ≡ record { prefix_length = prefix; nodes = [] } }
    {
        Tree {
            prefix,
            nodes: None,
        }
    }

    /// One more owner of the same tree, which shares its parts.
    pub fn share(&self, _alloc: Global) -> Result<Tree<R>, NoMemory>
        ensures { IfOk result (λ tree. tree ≡ self.now) }
    {
        match &self.nodes {
            None => Ok(Tree {
                prefix: self.prefix,
                nodes: None,
            }),
            Some(nodes) => {
                let nodes = nodes.clone()?;
                Ok(Tree {
                    prefix: self.prefix,
                    nodes: Some(nodes),
                })
            }
        }
    }

    /// The nodes.
    fn list(&self) -> &[Node<R>]
        ensures value { result.now ≡ self.now.nodes }
        ensures known { AreNodes self.now.nodes }
    {
        match &self.nodes {
            None => &[],
            Some(nodes) => nodes.list(),
        }
    }

    /// A tree of these nodes.
    fn with_nodes(&self, alloc: Global, nodes: Vec<Node<R>>) -> Result<Tree<R>, NoMemory>
        requires { AreNodes nodes.items }
        ensures { IfOk result (λ tree. tree ≡ tree_of self.now nodes.items) }
    {
        let nodes = Arc::new(alloc, Nodes::of(nodes))?;
        Ok(Tree {
            prefix: self.prefix,
            nodes: Some(nodes),
        })
    }

    /// How many nodes have sets. It takes no memory.
    pub fn nodes(&self) -> u64
        ensures count { result ≡ number_of self.now.nodes }
        ensures known { AreNodes self.now.nodes }
    {
        self.list().len() as u64
    }

    /// A node's path and the sets that were put there, newest first. The nodes are counted in the
    /// order of their paths, a path before its extensions. It takes no memory.
    pub fn node(&self, at: u64) -> (&NodePath, &[R])
        requires { at < number_of self.now.nodes }
        ensures { slice_get self.now.nodes at
            ≡ Some (node_of result.0.now result.1.now) }
    {
        let node = &self.list()[at as usize];
        (node.path(), node.sets())
    }

    /// A key's row of the greatest number, unless a prefix delete of a greater number covers the key.
    /// It goes down the key's path, newest set first, and ends where no older row can matter. The
    /// condition is that the numbers of the rows that reach the key fall from set to set. It takes no
    /// memory.
    pub fn find(&self, key: &[u8]) -> Option<RowRef<'_>>
        requires { Falls key.now (map R.rows (sets_on self.now key.now)) }
        ensures { row_by result ≡ lasting_at
            (all_rows (map R.rows (sets_on self.now key.now))) key.now }
    {
        match self.first_on(key, &digits_of(route(self.prefix, key))) {
            None => None,
            Some(row) => row,
        }
    }

    /// What the first set on this path that says something of the key says.
    fn first_on(&self, key: &[u8], path: &[u8; 4]) -> Option<Option<RowRef<'_>>>
        requires { path.now ≡ path_of self.now.prefix_length key.now }
        ensures { option_map row_by result ≡ first_row key.now
            (map R.rows (sets_on self.now key.now)) }
    {
        for depth in 0..5 {
            match first_in(sets_of(self.list(), &path[..depth]), key) {
                None => {}
                Some(row) => return Some(row),
            }
        }
        None
    }

    /// The tree with a new set at the front of a node.
    pub fn put_front(&self, alloc: Global, path: &NodePath, set: R) -> Result<Tree<R>, NoMemory>
        ensures { IfOk result (λ tree. tree
            ≡ tree_of self.now (in_front self.now.nodes path.now set)) }
    {
        let mut nodes = share_nodes(alloc, self.list())?;
        put_set_in_front(alloc, &mut nodes, path, set)?;
        self.with_nodes(alloc, nodes)
    }

    /// The tree with another set, or none, in place of a run of a node's sets: the `length` sets in
    /// front of its `below` oldest ones. `NoRun` comes exactly where there is no such run or its length
    /// is 0, with the number of the node's sets.
    pub fn replace_run(
        &self,
        alloc: Global,
        path: &NodePath,
        below: u64,
        length: u64,
        set: Option<R>,
    ) -> Result<Tree<R>, TreeFault>
        ensures run { IfOk result (λ _.
            IsRun (number_of (sets_at self.now.nodes path.now)) below length) }
        ensures made { IfOk result (λ tree. tree
            ≡ tree_of self.now (with_run self.now.nodes path.now below length (set_list set))) }
        ensures refused { IfErr result
            (RefusesRun (number_of (sets_at self.now.nodes path.now)) below length) }
    {
        let nodes = self.without_run(alloc, path, below, length, set)?;
        Ok(self.with_nodes(alloc, nodes)?)
    }

    /// The nodes with another set, or none, in place of a run.
    fn without_run(
        &self,
        alloc: Global,
        path: &NodePath,
        below: u64,
        length: u64,
        set: Option<R>,
    ) -> Result<Vec<Node<R>>, TreeFault>
        ensures run { IfOk result (λ _.
            IsRun (number_of (sets_at self.now.nodes path.now)) below length) }
        ensures made { IfOk result (λ nodes. nodes.items
            ≡ with_run self.now.nodes path.now below length (set_list set)) }
        ensures known { IfOk result (λ nodes. AreNodes nodes.items) }
        ensures refused { IfErr result
            (RefusesRun (number_of (sets_at self.now.nodes path.now)) below length) }
    {
        let nodes = self.list();
        let sets = in_place_of_run(alloc, sets_of(nodes, path.digits()), below, length, set)?;
        let mut twins = share_nodes(alloc, nodes)?;
        put_sets(&mut twins, path, sets)?;
        Ok(twins)
    }

    /// The tree without the `length` oldest sets of a node, and with each of these sets at the front
    /// of its node, one after another. `NoRun` comes exactly where the node has fewer sets or `length`
    /// is 0, with the number of its sets.
    pub fn spill_into(
        &self,
        alloc: Global,
        path: &NodePath,
        length: u64,
        sets: Vec<(NodePath, R)>,
    ) -> Result<Tree<R>, TreeFault>
        ensures run { IfOk result (λ _.
            IsRun (number_of (sets_at self.now.nodes path.now)) 0 length) }
        ensures made { IfOk result (λ tree. tree ≡ tree_of self.now
            (in_fronts (with_run self.now.nodes path.now 0 length []) sets.items)) }
        ensures refused { IfErr result
            (RefusesRun (number_of (sets_at self.now.nodes path.now)) 0 length) }
    {
        let mut nodes = self.without_run(alloc, path, 0, length, None)?;
        put_all_in_front(alloc, &mut nodes, sets)?;
        Ok(self.with_nodes(alloc, nodes)?)
    }

    /// The run that is to be compacted or spilled next: all sets of the first node, by path, that is
    /// not claimed and has at least 4 sets. It is a spill where they hold at least 8,192 rows and the
    /// node is less than 4 deep, else a key-value compaction where no node stands below it, else a
    /// key compaction. It takes no memory today.
    pub fn schedule(&self, claimed: &[NodePath]) -> Result<Option<Pick>, NoMemory>
        ensures { result ≡ Ok (next_pick R.rows self.now.nodes claimed.now) }
    {
        Ok(first_pick(self.list(), claimed))
    }
}

/// Each of these sets at the front of its node, one after another.
fn put_all_in_front<R: Shared>(
    alloc: Global,
    nodes: &mut Vec<Node<R>>,
    sets: Vec<(NodePath, R)>,
) -> Result<(), NoMemory>
    requires { AreNodes nodes.old.items }
    ensures made { OnOk result (nodes.new.items
        ≡ in_fronts nodes.old.items sets.items) }
    ensures known { OnOk result (AreNodes nodes.new.items) }
{
    for (path, set) in sets {
        put_set_in_front(alloc, nodes, &path, set)?;
    }
    Ok(())
}
