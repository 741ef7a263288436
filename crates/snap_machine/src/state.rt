//! A state: the last number, and the live stores.

use crate::change::{Change, Write};
use crate::pairs::{Pair, copy_all, copy_of, delete_key, delete_prefix, is_less, put_pair};
use hse_io::NoMemory;
use std::alloc::Global;

/// Whether a store is written in transactions only, or by commits of their own only.
#[derive(Clone, Copy, PartialEq, Eq, Drop)]
pub(crate) enum Mode {
    Plain,
    Tx,
}

/// A live store. Its id is the number of its creation.
#[derive(Drop)]
pub(crate) struct Store {
    pub(crate) id: u64,
    pub(crate) name: Vec<u8>,
    pub(crate) mode: Mode,
    pub(crate) prefix: u64,
    pub(crate) pairs: Vec<Pair>,
}

/// The live stores in the order of their names, and the number of the last event.
#[derive(Drop)]
pub(crate) struct State {
    pub(crate) number: u64,
    pub(crate) stores: Vec<Store>,
}

impl Store {
    fn copy(&self, alloc: Global) -> Result<Store, NoMemory> {
        Ok(Store {
            id: self.id,
            name: Vec::from_slice(alloc, &self.name)?,
            mode: self.mode,
            prefix: self.prefix,
            pairs: copy_all(alloc, &self.pairs)?,
        })
    }

    fn apply(&mut self, alloc: Global, change: &Change) -> Result<(), NoMemory> {
        match change {
            Change::Put(pair) => put_pair(&mut self.pairs, copy_of(alloc, pair)?)?,
            Change::Del(key) => delete_key(&mut self.pairs, key),
            Change::PDel(prefix) => delete_prefix(&mut self.pairs, prefix),
        }
        Ok(())
    }
}

impl State {
    /// No store, and the number 0.
    pub(crate) fn empty(alloc: Global) -> State {
        State {
            number: 0,
            stores: Vec::new(alloc),
        }
    }

    /// An equal state.
    pub(crate) fn copy(&self, alloc: Global) -> Result<State, NoMemory> {
        let mut stores = Vec::new(alloc);
        for store in &self.stores {
            stores.push(store.copy(alloc)?)?;
        }
        Ok(State {
            number: self.number,
            stores,
        })
    }

    /// The store of a name.
    pub(crate) fn named(&self, name: &[u8]) -> Option<&Store> {
        for store in &self.stores {
            if store.name.as_slice() == name {
                return Some(store);
            }
        }
        None
    }

    /// The store of an id.
    pub(crate) fn of_id(&self, id: u64) -> Option<&Store> {
        for store in &self.stores {
            if store.id == id {
                return Some(store);
            }
        }
        None
    }

    /// Does the writes in order. A write of a store that is not there does nothing.
    pub(crate) fn apply_all(&mut self, alloc: Global, writes: &[Write]) -> Result<(), NoMemory> {
        for write in writes {
            self.apply(alloc, write)?;
        }
        Ok(())
    }

    fn apply(&mut self, alloc: Global, write: &Write) -> Result<(), NoMemory> {
        for store in &mut self.stores {
            if store.id == write.store {
                store.apply(alloc, &write.change)?;
            }
        }
        Ok(())
    }

    /// Adds a store in the order of the names.
    pub(crate) fn add(&mut self, store: Store) -> Result<(), NoMemory> {
        let before = self.stores.iter();
        let at = before
            .filter(|other| is_less(&other.name, &store.name))
            .count();
        let at = at.min(self.stores.len());
        self.stores.insert(at, store)?;
        Ok(())
    }

    /// Removes the store of an id.
    pub(crate) fn remove(&mut self, id: u64) {
        self.stores.retain(|store| store.id != id);
    }
}
