//! Laws of locks that stand for a timeline. The contract of each function is the law.
ghost use Rattle.key_locks.specs.laws.Laws.{CommitsStand, EmptyLocksStand, LockedChangesStand};
ghost use Rattle.key_locks.specs.laws.Laws.{LocksAnswerTheConflict, OtherMovesStand};
ghost use Rattle.key_locks.specs.laws.Laws.{PrunedLocksStand, ReleasesStand, UnchangedLocksStand};
ghost use Rattle.key_locks.specs.laws.Laws.{UndoneChangesStand, FirstHoldersTell};

use hse_rows::{conflicts_are_of_transactions, normal_forms_overlap_the_same};

/// Where the locks stand for a timeline, `try_lock` answers the conflict that the machine says, for
/// a snapshot from their number on.
pub fn locks_answer_the_conflict()
    ensures { LocksAnswerTheConflict }
{
    conflicts_are_of_transactions();
}

/// Empty locks stand for a timeline that was just opened.
pub fn empty_locks_stand()
    ensures { EmptyLocksStand }
{}

/// After a prune locks stand from its number on. Where a call leaves all as it was, and where an
/// `undo` takes back what `try_lock` took, they stand as before.
pub fn locks_stand_as_before()
    ensures pruned { PrunedLocksStand }
    ensures same { UnchangedLocksStand }
    ensures undone { UndoneChangesStand }
{}

/// What `try_lock` took stands for the write. A begin, a creation, a drop and a write outside of
/// transactions need no call.
pub fn locks_stand_after_moves()
    ensures locked { LockedChangesStand }
    ensures others { OtherMovesStand }
{
    normal_forms_overlap_the_same();
}

/// What `release` left stands after the abort, or the commit without a write. What `commit` left
/// stands after the commit, with the number of its event.
pub fn locks_stand_after_ends()
    ensures released { ReleasesStand }
    ensures committed { CommitsStand }
{
    normal_forms_overlap_the_same();
}

/// Where the locks stand for a timeline, `first_holder` answers the first begun of the active
/// transactions that have a write in the store.
pub fn first_holders_tell()
    ensures { FirstHoldersTell }
{}
