//! The prefix deletes of several sources.
ghost use Rattle.std.specs.Prelude.{◌≡◌, length, map, OnOk, IfOk};
ghost use Rattle.hse_rows.specs.rows.RowSets.{AreRows};
ghost use Rattle.hse_rows.specs.writes.Lengths.{IsPrefixLength};
ghost use Rattle.prefix_delete.specs.Prefixes.{entry_of, with_entry};
ghost use Rattle.merge.specs.Deletes.{with_deletes, all_deletes};

use hse_io::NoMemory;
use hse_rows::{ChangeRef, LONGEST_PREFIX, Prefix, RowSet};
use prefix_delete::PrefixList;
use std::alloc::Global;

/// Adds a prefix with the number of its deletion.
fn add(alloc: Global, list: &mut PrefixList, prefix: &[u8], number: u64) -> Result<(), NoMemory>
    requires { IsPrefixLength (length prefix.now) }
    ensures { OnOk result (list.new ≡ with_entry list.old (entry_of prefix.now number)) }
{
    match Prefix::new(alloc, prefix, LONGEST_PREFIX as u8) {
        Ok(prefix) => list.add(prefix, number),
        Err(_) => Err(NoMemory),
    }
}

/// Adds the prefix deletes of a source.
fn add_source<R: RowSet>(alloc: Global, list: &mut PrefixList, source: &R) -> Result<(), NoMemory>
    ensures { OnOk result (list.new ≡ with_deletes list.old (R.rows source.now)) }
{
    source.known();
    for at in 0..source.len() {
        let row = source.row(at);
        match row.change {
            ChangeRef::PDel(prefix) => add(alloc, list, prefix, row.number)?,
            ChangeRef::Put(_, _) => return Ok(()),
            ChangeRef::Del(_) => return Ok(()),
        }
    }
    Ok(())
}

/// The prefix deletes of all sources, each prefix with the greatest number.
pub(crate) fn prefixes<R: RowSet>(alloc: Global, sources: &[R]) -> Result<PrefixList, NoMemory>
    ensures { IfOk result (λ list. list ≡ all_deletes (map R.rows sources.now)) }
{
    let mut list = PrefixList::empty(alloc);
    for source in sources {
        add_source(alloc, &mut list, source)?;
    }
    Ok(list)
}
