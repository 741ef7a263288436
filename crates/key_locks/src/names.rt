//! The names that a transaction took, in order.
ghost use Rattle.std.specs.Prelude.{◌≡◌, ◌==◌, [], ◌∷◌, ◌++◌, length, OnOk, OnErr, MatchOption};
ghost use Rattle.std.specs.List.{list_any};
ghost use Rattle.key_locks.specs.declared.name.Name.{Name as a_name};
ghost use Rattle.key_locks.specs.Held.{has};

use crate::name::Name;
use hse_io::NoMemory;
use std::alloc::Global;
use std::marker::Model;

/// The names that a transaction took, one for each change, in the order of its changes.
#[derive(Drop)]
pub(crate) struct Names {
    names: Vec<Name>,
}

impl Model for Names {
    ghost use Rattle.std.specs.Prelude.{List};
    ghost use Rattle.key_locks.specs.declared.name.Name.{Name};

    ghost Value = { List Name };

    ghost view = { λ n. n.names.items };
}

impl Names {
    /// No name.
    pub fn new(alloc: Global) -> Names
        ensures { result ≡ [] }
    {
        Names {
            names: Vec::new(alloc),
        }
    }

    /// How many names there are.
    pub fn len(&self) -> u64
        ensures { result ≡ length self.now }
    {
        self.names.len() as u64
    }

    /// One name more, the last.
    pub fn push(&mut self, name: Name) -> Result<(), NoMemory>
        ensures pushed { OnOk result (self.new ≡ self.old ++ name ∷ []) }
        ensures same { OnErr result (self.new ≡ self.old) }
    {
        self.names.push(name)?;
        Ok(())
    }

    /// The last name is taken off.
    pub fn pop(&mut self) -> Option<Name>
        ensures { MatchOption result ((self.old ≡ []) × (self.new ≡ [])) (λ name. self.old ≡ self.new ++ name ∷ []) }
    {
        self.names.pop()
    }

    /// Whether a name is among them.
    pub fn contains(&self, name: &Name) -> bool
        ensures { result ≡ has self.now name.now }
    {
        self.names.contains(name)
    }

    /// Whether one of them is of a store.
    pub fn is_of(&self, store: u64) -> bool
        ensures { result ≡ list_any (λ (name : a_name). name.store == store) self.now }
    {
        self.names.iter().any(|name| name.store == store)
    }

    /// The names, in order.
    pub fn into_names(self) -> Vec<Name>
        ensures { result.items ≡ self }
    {
        let Names { names } = self;
        names
    }
}
