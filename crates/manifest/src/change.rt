//! What a creation and a drop make of a base.
ghost use Rattle.std.specs.Prelude.{◌≡◌, ◌≤◌, ◌^◌, ◌++◌, ◌∷◌, [], true, OnOk};
ghost use Rattle.manifest.specs.Metadata.{is_joined, is_live, last_known, may_be_number, with_taken, with_store, without, without_store};
ghost use Rattle.manifest.specs.Views.{metadata_as, store_as, stores_as};
ghost use Rattle.hse_rows.specs.machine.TakenRuns.{run_as, runs_as};

use crate::runs::GREATEST_NUMBER;
use crate::{Base, BaseStore};
use hse_io::NoMemory;
use hse_rows::TakenRun;

/// The greatest number that the base knows of.
fn last_number(base: &Base) -> u64
    ensures { result ≡ last_known (metadata_as base.now) }
{
    match base.taken.last() {
        None => base.horizon,
        Some(run) => run.first + (run.count as u64 - 1),
    }
}

/// Whether the next creation or drop may have this number.
pub(crate) fn may_be(base: &Base, number: u64) -> bool
    ensures tells { result ≡ may_be_number (metadata_as base.now) number }
    ensures small { result ≡ true → number ≤ 2 ^ 62 }
{
    last_number(base) < number && number <= GREATEST_NUMBER
}

/// Puts a run behind the others.
fn put_run(taken: &mut Vec<TakenRun>, run: TakenRun) -> Result<(), NoMemory>
    ensures { OnOk result (taken.new.items ≡ taken.old.items ++ run ∷ []) }
{
    taken.push(run)?;
    Ok(())
}

/// Whether the run may take the number.
fn may_join(run: TakenRun, number: u64) -> bool
    ensures { result ≡ is_joined (run_as run) number }
{
    number == run.first + run.count as u64 && run.count < u32::MAX
}

/// Puts the number of a creation or a drop, which is above them all, behind the taken ones: into the
/// last run, where it follows that and the run has room, and else as a run of its own. Out of memory,
/// the runs are of no use any more.
///
/// The condition: the number is at most 2^62.
pub fn put_taken(taken: &mut Vec<TakenRun>, number: u64) -> Result<(), NoMemory>
    requires { number ≤ 2 ^ 62 }
    ensures { OnOk result
        (runs_as taken.new.items ≡ with_taken (runs_as taken.old.items) number) }
{
    let alone = TakenRun {
        first: number,
        count: 1,
    };
    let Some(last) = taken.pop() else {
        return put_run(taken, alone);
    };
    if may_join(last, number) {
        let first = last.first;
        let count = last.count + 1;
        return put_run(taken, TakenRun { first, count });
    }
    put_run(taken, last)?;
    put_run(taken, alone)
}

/// Whether a store of this id lives.
pub(crate) fn is_store(id: u64, stores: &[BaseStore]) -> bool
    ensures { result ≡ is_live id (stores_as stores.now) }
{
    let mut rest = stores;
    while let [first, more @ ..] = rest {
        if first.id.0 == id {
            return true;
        }
        rest = more;
    }
    false
}

/// Takes the store of this id off.
fn drop_store(id: u64, stores: &mut Vec<BaseStore>)
    ensures { stores_as stores.new.items ≡ without id (stores_as stores.old.items) }
{
    stores.retain(|store| store.id.0 != id);
}

/// Puts a store behind the others.
fn put_store(stores: &mut Vec<BaseStore>, store: BaseStore) -> Result<(), NoMemory>
    ensures { OnOk result
        (stores_as stores.new.items ≡ stores_as stores.old.items ++ store_as store ∷ []) }
{
    stores.push(store)?;
    Ok(())
}

/// The creation of this number, of this store.
pub(crate) fn add_store(base: &mut Base, number: u64, store: BaseStore) -> Result<(), NoMemory>
    requires { number ≤ 2 ^ 62 }
    ensures { OnOk result
        (metadata_as base.new ≡ with_store (metadata_as base.old) number (store_as store)) }
{
    put_taken(&mut base.taken, number)?;
    put_store(&mut base.stores, store)
}

/// The drop of this number, of the store of this id.
pub(crate) fn remove_store(base: &mut Base, number: u64, id: u64) -> Result<(), NoMemory>
    requires { number ≤ 2 ^ 62 }
    ensures { OnOk result
        (metadata_as base.new ≡ without_store (metadata_as base.old) number id) }
{
    put_taken(&mut base.taken, number)?;
    drop_store(id, &mut base.stores);
    Ok(())
}
