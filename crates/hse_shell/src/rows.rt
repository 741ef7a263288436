//! The rows of the store, in the order of their keys.
ghost use Rattle.std.specs.Prelude.{◌≡◌, length, OnOk, OnErr};
ghost use Rattle.std.specs.Option.{option_copied};
ghost use Rattle.std.specs.Ordering.{nat_cmp};
ghost use Rattle.std.specs.Cmp.Lexicographic.{slice_cmp};
ghost use Rattle.std.specs.List.Sorted.{IsBinarySearchResult, IsSearchInRange};
ghost use Rattle.std.specs.FinMap as map;

use hse_io::NoMemory;
use std::alloc::Global;
use std::marker::Model;

/// A key and its value.
#[derive(Drop)]
struct Row {
    key: Vec<u8>,
    value: Vec<u8>,
}

/// The value of each key, as a list in the order of the keys.
#[derive(Drop)]
pub struct Rows {
    rows: Vec<Row>,
}

impl Model for Rows {
    ghost use Rattle.std.specs.Coded.{coded_ℕ, coded_list};
    ghost use Rattle.std.specs.FinMap as map;
    ghost use Rattle.hse_shell.specs.Change.{Contents};

    ghost Value = { Contents };

    ghost coded = { map.code (coded_list coded_ℕ) (coded_list coded_ℕ) };

    ghost use Rattle.hse_shell.specs.Rows.{pairs_of, AreRising};

    ghost view = { λ r. map.from_sorted (pairs_of r.rows.items) };

    ghost invariant = { λ r. AreRising r.rows.items };
}

impl Rows {
    /// No rows.
    pub fn new(alloc: Global) -> Rows
        ensures { result ≡ map.empty }
    {
        Rows {
            rows: Vec::new(alloc),
        }
    }

    /// The value of a key. It takes no memory.
    pub fn get(&self, key: &[u8]) -> Option<&[u8]>
        ensures { option_copied result ≡ map.get self.now key.now }
    {
        match place(&self.rows, key) {
            Ok(at) => Some(&self.rows[at].value),
            Err(_) => None,
        }
    }

    /// Sets the value of a key, or is refused memory and changes nothing.
    pub fn put(&mut self, key: &[u8], value: &[u8]) -> Result<(), NoMemory>
        ensures written { OnOk result (self.new ≡ map.insert self.old key.now value.now) }
        ensures unchanged { OnErr result (self.new ≡ self.old) }
    {
        let alloc = *self.rows.allocator();
        let value = Vec::from_slice(alloc, value)?;
        match place(&self.rows, key) {
            Ok(at) => self.rows[at].value = value,
            Err(at) => {
                let key = Vec::from_slice(alloc, key)?;
                if let Err(_) = self.rows.insert(at, Row { key, value }) {
                    return Err(NoMemory);
                }
            }
        }
        Ok(())
    }

    /// Removes a key, where it is there. It takes no memory.
    pub fn remove(&mut self, key: &[u8])
        ensures { self.new ≡ map.remove self.old key.now }
    {
        if let Ok(at) = place(&self.rows, key) {
            let _row = self.rows.remove(at);
        }
    }
}

/// Where a row of this key stands, or else where it would.
fn place(rows: &[Row], key: &[u8]) -> Result<usize, usize>
    ensures bound { IsSearchInRange result (length rows.now) }
    ensures position { IsBinarySearchResult
        (λ row. slice_cmp nat_cmp row.key.items key.now) rows.now result }
{
    rows.binary_search_by(|row| row.key.as_slice().cmp(key))
}
