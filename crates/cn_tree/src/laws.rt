//! Laws of trees. The function does nothing; its contract is the law.
ghost use Rattle.cn_tree.specs.Layouts.{SetsAreTheSame, ChangesAreTheSame, ChildrenAreTheSame};
ghost use Rattle.cn_tree.specs.Wishes.{PicksAreWishes};

use hse_rows::Shared;

/// A tree is the layout of one store: the sets of a node, a node that gets other sets, and whether a
/// node has children are the same in both.
pub fn trees_are_layouts<R: Shared>()
    ensures sets { SetsAreTheSame R }
    ensures changes { ChangesAreTheSame R }
    ensures children { ChildrenAreTheSame R }
{}

/// With the claims of the live jobs, the pick of a live store's tree is what the machine's schedule
/// wishes of that store's nodes.
pub fn picks_are_wishes<R: Shared>()
    ensures { PicksAreWishes R R.rows }
{}
