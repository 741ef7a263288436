//! Routing, paths, and trees without sets.
ghost use Rattle.std.specs.Prelude.{◌<◌};

use cn_tree::{NodePath, Tree, TreeFault, route};
use row_laws::SharedRows;
use std::process::Abort;
use std::test::Fail;

#[test]
fn keys_are_routed_by_their_first_bytes(rt: HostRuntime) {
    assert_eq!(&rt; route(2, b"ab1"), 3105);
    assert_eq!(&rt; route(2, b"ab2"), 3105);
    assert_eq!(&rt; route(0, b"k"), 107);
    assert_eq!(&rt; route(3, b"k"), 107);
    assert_eq!(&rt; route(4, &[255, 255, 255, 255, 0]), 7849920);
}

/// The path of a child, where there is one.
fn deeper(path: Option<NodePath>, digit: u8) -> Option<NodePath>
    requires { digit < 16 }
{
    match path {
        None => None,
        Some(path) => path.child(digit),
    }
}

#[test]
fn a_path_has_at_most_four_digits(rt: HostRuntime) {
    let two = deeper(deeper(Some(NodePath::root()), 15), 0);
    let four = deeper(deeper(two, 13), 12);
    match four {
        None => assert!(&rt; false),
        Some(path) => {
            assert!(&rt; path.digits() == [15, 0, 13, 12].as_slice());
            assert!(&rt; path.child(1).is_none());
        }
    }
}

#[test]
fn a_tree_without_sets_has_no_run(rt: HostRuntime) -> Result<(), Fail> {
    let alloc = rt.alloc();
    let tree: Tree<SharedRows> = Tree::empty(2);
    let root = NodePath::root();
    assert_eq!(&rt; tree.nodes(), 0);
    assert!(&rt; tree.schedule(&[])?.is_none());
    let refused = tree.replace_run(alloc, &root, 0, 1, None);
    assert_eq!(&rt; refused.err(), Some(TreeFault::NoRun(0)));
    let spilled = tree
        .share(alloc)?
        .spill_into(alloc, &root, 0, Vec::new(alloc));
    assert_eq!(&rt; spilled.err(), Some(TreeFault::NoRun(0)));
    Ok(())
}
