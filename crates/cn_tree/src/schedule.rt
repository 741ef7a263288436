//! Which run of a tree's sets comes next.
ghost use Rattle.std.specs.Prelude.{◌≡◌, ◌&&◌, nat_le, not, length as number_of, map, Some};
ghost use Rattle.hse_rows.specs.writes.NormalForm.{same};
ghost use Rattle.hse_rows.specs.writes.Change.{covers};
ghost use Rattle.cn_tree.specs.Tree.{has_children};
ghost use Rattle.cn_tree.specs.Schedule.{is_claimed, waits, rows_in, kind_for, whole_run, next_pick};

use crate::node::Node;
use crate::node_path::NodePath;
use hse_rows::{RowSet, Shared};

/// What is done with a run of a node's sets.
#[derive(Clone, Copy, Debug, PartialEq, Eq)]
pub enum PickKind {
    /// Its rows go to new key blocks, with the run's value blocks.
    Key,
    /// Its rows go to new blocks.
    KeyValue,
    /// Its rows go to the node's children.
    Spill,
}

/// A run that is to be compacted or spilled: the `length` newest sets of a node.
#[derive(Drop)]
pub struct Pick {
    pub kind: PickKind,
    pub path: NodePath,
    pub length: u64,
}

/// A node waits from this many sets on.
const LEAST_SETS: usize = 4;

/// It is spilled from this many rows on.
const LEAST_ROWS: u64 = 8192;

/// The greatest depth of a node.
const GREATEST_DEPTH: usize = 4;

/// Whether the path is among these.
fn is_among(claimed: &[NodePath], path: &[u8]) -> bool
    ensures { result ≡ is_claimed claimed.now path.now }
{
    for other in claimed {
        if other.digits() == path {
            return true;
        }
    }
    false
}

/// Whether the sets hold so many rows.
fn hold_rows<R: RowSet>(sets: &[R], least: u64) -> bool
    ensures { result ≡ nat_le least (rows_in (map R.rows sets.now)) }
{
    let mut left = least;
    for set in sets {
        let rows = set.len();
        if left <= rows {
            return true;
        }
        left -= rows;
    }
    left == 0
}

/// Whether a node stands on a longer path that extends this one.
fn have_child<R: Shared>(nodes: &[Node<R>], path: &[u8]) -> bool
    ensures { result ≡ has_children nodes.now path.now }
{
    for node in nodes {
        if is_below(node.path().digits(), path) {
            return true;
        }
    }
    false
}

/// Whether a path is longer than another and extends it.
fn is_below(path: &[u8], other: &[u8]) -> bool
    ensures { result ≡ (covers other.now path.now && not (same other.now path.now)) }
{
    if !path.starts_with(other) {
        return false;
    }
    other != path
}

/// What is done with a node's sets.
fn kind_of<R: Shared>(nodes: &[Node<R>], node: &Node<R>) -> PickKind
    ensures { result ≡ kind_for R.rows nodes.now node.now }
{
    let path = node.path().digits();
    if path.len() < GREATEST_DEPTH {
        if hold_rows(node.sets(), LEAST_ROWS) {
            return PickKind::Spill;
        }
    }
    if have_child(nodes, path) {
        return PickKind::Key;
    }
    PickKind::KeyValue
}

/// Whether a node has sets enough and is not claimed.
fn is_waiting<R: Shared>(node: &Node<R>, claimed: &[NodePath]) -> bool
    ensures { result ≡ waits claimed.now node.now }
{
    if node.sets().len() < LEAST_SETS {
        return false;
    }
    !is_among(claimed, node.path().digits())
}

/// All sets of a node.
fn run_of<R: Shared>(nodes: &[Node<R>], node: &Node<R>) -> Pick
    ensures { result ≡ whole_run R.rows nodes.now node.now }
{
    Pick {
        kind: kind_of(nodes, node),
        path: node.path().copy(),
        length: node.sets().len() as u64,
    }
}

/// The run of the first node that waits.
pub(crate) fn first_pick<R: Shared>(nodes: &[Node<R>], claimed: &[NodePath]) -> Option<Pick>
    ensures { result ≡ next_pick R.rows nodes.now claimed.now }
{
    for node in nodes {
        if is_waiting(node, claimed) {
            return Some(run_of(nodes, node));
        }
    }
    None
}
