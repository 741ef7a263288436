//! Laws of the definitions. Each function does nothing; its contract is the law.
ghost use Rattle.hse_rows.specs.laws.Laws.{KeysHoldLastEffects, NormalFormsDoTheSame};
ghost use Rattle.hse_rows.specs.laws.Laws.{NormalFormsOverlapTheSame, OverlapsGoBothWays};
ghost use Rattle.hse_rows.specs.laws.Laws.{LastStateHasLastNumber, SnapshotsStay};
ghost use Rattle.hse_rows.specs.laws.Laws.{CreationsMayComeFirst, FrontsAreRooted};
ghost use Rattle.hse_rows.specs.laws.Laws.{CommitsHaveTheWrites};
ghost use Rattle.hse_rows.specs.transactions.Isolation.{MovesKeepIsolated, SnapshotsAreIsolated};
ghost use Rattle.hse_rows.specs.transactions.Sources.{MovesKeepSources, MovesKeepRoots};
ghost use Rattle.hse_rows.specs.transactions.Sources.{ConflictsAreOfTransactions};

/// After writes in order a key holds what the last write that touches it leaves there, and what it
/// held where none does.
pub fn keys_hold_last_effects()
    ensures { KeysHoldLastEffects }
{}

/// Applying the normal form of writes to a state gives what applying the writes in order gives.
pub fn normal_forms_do_the_same()
    ensures { NormalFormsDoTheSame }
{}

/// A write overlaps one of a normal form exactly where it overlaps one of the writes that it is of.
pub fn normal_forms_overlap_the_same()
    ensures { NormalFormsOverlapTheSame }
{}

/// A write overlaps another exactly where that overlaps it.
pub fn overlaps_go_both_ways()
    ensures { OverlapsGoBothWays }
{}

/// The state after all events of a history has the last number, and is the state of that number.
/// Later events change no state of an earlier number.
pub fn snapshots_stay()
    ensures last { LastStateHasLastNumber }
    ensures stay { SnapshotsStay }
{}

/// Where each commit writes to stores that were created before it, a history leads where its creations
/// and drops alone lead, and then the writes of all its commits in order. A front of such a history
/// is one. The numbered commits of a history have its writes.
pub fn creations_may_come_first()
    ensures parts { CreationsMayComeFirst }
    ensures fronts { FrontsAreRooted }
    ensures writes { CommitsHaveTheWrites }
{}

/// Snapshot isolation. No two transactions that each began before the other's commit both committed
/// overlapping writes. Each move keeps active transactions apart from all others, so a commit is
/// never canceled.
pub fn snapshots_are_isolated()
    ensures moves { MovesKeepIsolated }
    ensures isolated { SnapshotsAreIsolated }
{}

/// Each commit is of a transaction, or one write of a `plain` store. A commit since a snapshot that
/// overlaps a write of a `tx` store of that snapshot is a transaction's.
pub fn conflicts_are_of_transactions()
    ensures sources { MovesKeepSources }
    ensures conflicts { ConflictsAreOfTransactions }
    ensures roots { MovesKeepRoots }
{}
