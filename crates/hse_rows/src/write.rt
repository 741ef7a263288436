//! A change and its store.
ghost use Rattle.std.specs.Prelude.{◌≡◌, IfOk};
ghost use Rattle.hse_rows.specs.writes.Change.{write_of};
ghost use Rattle.hse_rows.specs.writes.NormalForm.{write_cmp, hides};

use crate::change::Change;
use crate::store::StoreId;
use hse_io::NoMemory;
use std::alloc::Global;
use std::cmp::Ordering;

/// A change of the store with this id.
#[derive(Drop)]
pub struct Write {
    pub store: StoreId,
    pub change: Change,
}

impl Write {
    /// One more owner of the same write.
    pub fn share(&self, alloc: Global) -> Result<Write, NoMemory>
        ensures { IfOk result (λ write. write ≡ self.now) }
    {
        let change = self.change.share(alloc)?;
        Ok(Write {
            store: self.store,
            change,
        })
    }

    /// How it stands to a write of this change in the order of the normal form.
    pub(crate) fn order(&self, store: StoreId, change: &Change) -> Ordering
        ensures { result ≡ write_cmp self.now (write_of store change.now) }
    {
        self.change.rank().cmp(&change.rank()).then_with(|| {
            self.store
                .cmp(&store)
                .then_with(|| self.change.target().cmp(change.target()))
        })
    }

    /// Whether a later write of this change hides it.
    pub(crate) fn is_hidden_by(&self, store: StoreId, change: &Change) -> bool
        ensures { result ≡ hides (write_of store change.now) self.now }
    {
        store == self.store && change.hides(&self.change)
    }
}
