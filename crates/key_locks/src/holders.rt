//! The first transaction that has a write in a store.
ghost use Rattle.std.specs.Prelude.{◌≡◌};
ghost use Rattle.key_locks.specs.Holders.{first_of_store, IsFirstIn};

use crate::locks::KeyLocks;
use crate::names::Names;
use hse_rows::StoreId;
use std::collections::BTreeMap;

/// The first of the transactions that took a name of a store.
fn first_of(held: &BTreeMap<u64, Names>, store: u64) -> Option<u64>
    ensures { result ≡ first_of_store store held.now.entries }
{
    let mut rest = held.iter();
    while let Some((txn, names)) = rest.next() {
        if names.is_of(store) {
            return Some(*txn);
        }
    }
    None
}

impl KeyLocks {
    /// The first begun of the transactions that have a write in a store, and none exactly where none
    /// has. It takes no memory.
    pub fn first_holder(&self, store: StoreId) -> Option<u64>
        ensures { IsFirstIn self.now store.0 result }
    {
        // Its answer tells that the transactions ascend.
        let _count = self.held.len();
        first_of(&self.held, store.0)
    }
}
