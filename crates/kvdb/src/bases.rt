//! The base after a creation or a drop.
ghost use Rattle.std.specs.Prelude.{◌≡◌, ◌≤◌, ◌^◌, ◌++◌, ◌∷◌, [], map, IfOk, OnOk};
ghost use Rattle.hse_rows.specs.machine.TakenRuns.{runs_as};
ghost use Rattle.manifest.specs.Metadata.{with_taken};
ghost use Rattle.manifest.specs.Views.{metadata_as, stores_as};
ghost use Rattle.kvdb.specs.Entering.{base_in, live_in};

use crate::log_start::LogStart;
use hse_io::NoMemory;
use hse_rows::TakenRun;
use kvset::Kvset;
use manifest::{Base, BaseStore, put_taken};
use std::alloc::Global;
use view::{View, ViewStore};

/// The runs with one number more, above them all.
fn runs_with(alloc: Global, runs: &[TakenRun], number: u64) -> Result<Vec<TakenRun>, NoMemory>
    requires { number ≤ 2 ^ 62 }
    ensures { IfOk result (λ taken. runs_as taken.items ≡ with_taken (runs_as runs.now) number) }
{
    let mut taken = Vec::new(alloc);
    taken.extend_from_slice(runs)?;
    put_taken(&mut taken, number)?;
    Ok(taken)
}

/// Puts a store of a view behind the others.
fn put_store(
    alloc: Global,
    stores: &mut Vec<BaseStore>,
    store: &ViewStore<Kvset>,
) -> Result<(), NoMemory>
    ensures { OnOk result
        (stores_as stores.new.items ≡ stores_as stores.old.items ++ live_in store.now ∷ []) }
{
    let name = store.name.share(alloc)?;
    stores.push(BaseStore {
        id: store.id,
        name,
        mode: store.mode,
        prefix: store.prefix,
    })?;
    Ok(())
}

/// The stores of a view, as a base has them.
fn stores_in(alloc: Global, stores: &[ViewStore<Kvset>]) -> Result<Vec<BaseStore>, NoMemory>
    ensures { IfOk result (λ all. stores_as all.items ≡ map live_in stores.now) }
{
    let mut all = Vec::new(alloc);
    let mut rest = stores;
    while let [store, more @ ..] = rest {
        put_store(alloc, &mut all, store)?;
        rest = more;
    }
    Ok(all)
}

/// The base with the stores of a view, after the creation or the drop of this number.
pub(crate) fn base_after(
    alloc: Global,
    start: &LogStart,
    view: &View<Kvset>,
    number: u64,
) -> Result<Base, NoMemory>
    requires { number ≤ 2 ^ 62 }
    ensures { IfOk result (λ base. metadata_as base ≡ base_in start.now view.now number) }
{
    let taken = runs_with(alloc, &start.taken, number)?;
    let stores = stores_in(alloc, view.stores())?;
    Ok(Base {
        horizon: start.horizon,
        first: start.first,
        taken,
        stores,
    })
}
