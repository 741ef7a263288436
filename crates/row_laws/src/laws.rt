//! Laws of the definitions. Each function does nothing; its contract is the law.
ghost use Rattle.row_laws.specs.Laws.{KeysHoldNewestRows, FirstSourcesDecide, LayersFall, PathsDecide, FallingRowsFallAlone};
ghost use Rattle.row_laws.specs.Laws.{RowsChangeContents, NewestRowsMeanTheSame, RowsInOrderApply};
ghost use Rattle.row_laws.specs.Laws.{MergedRowsAreEntries, NextRowsAreFirst, LastingRowsLeaveValues, MergedRowsHoldLastingRows};

/// A key has the value of its own newest row, unless a covering prefix delete has a greater number.
pub fn keys_hold_newest_rows()
    ensures { KeysHoldNewestRows }
{}

/// Where numbers fall from source to source, the first source that says something of a key says its
/// value. They do over layers whose rows are newer than all behind them.
/// Rows off a key's path do not matter.
pub fn first_sources_decide()
    ensures decide { FirstSourcesDecide }
    ensures layers { LayersFall }
    ensures paths { PathsDecide }
    ensures own { FallingRowsFallAlone }
{}

/// A row that applies last, in place of the older one of its key or prefix, changes the contents by
/// its change. Rows in the order in which they apply mean empty contents after them.
pub fn rows_change_contents()
    ensures step { RowsChangeContents }
    ensures in_order { RowsInOrderApply }
{}

/// The newest rows of a list mean what the list means, whatever stands before and behind it.
pub fn newest_rows_mean_the_same()
    ensures { NewestRowsMeanTheSame }
{}

/// The entries of the contents that rows mean are the pairs of the merged rows, in order.
pub fn merged_rows_are_entries()
    ensures entries { MergedRowsAreEntries }
    ensures next { NextRowsAreFirst }
    ensures values { LastingRowsLeaveValues }
    ensures lasting { MergedRowsHoldLastingRows }
{}
