//! The places of stores by name.
ghost use Rattle.std.specs.Prelude.{IfOk};
ghost use Rattle.view.specs.Means.{AreApart};
ghost use Rattle.view.specs.Index.{IsIndex};

use crate::view_store::ViewStore;
use hse_io::NoMemory;
use hse_rows::{Shared, StoreName};
use std::alloc::Global;
use std::collections::BTreeMap;

/// Where the store of each name stands.
pub(crate) fn index_of<R: Shared>(
    alloc: Global,
    stores: &[ViewStore<R>],
) -> Result<BTreeMap<StoreName, u64>, NoMemory>
    requires { AreApart stores.now }
    ensures { IfOk result (IsIndex stores.now) }
{
    let mut index = BTreeMap::new(alloc);
    for at in 0..stores.len() {
        let name = stores[at].name.share(alloc)?;
        index.insert(name, at as u64)?;
    }
    Ok(index)
}
