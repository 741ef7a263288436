//! What each active transaction took.
ghost use Rattle.std.specs.Prelude.{◌≡◌, ◌==◌, ℕ, [], ◌∷◌, ◌++◌, false, cond, length, OnOk, OnErr, MatchOption};
ghost use Rattle.key_locks.specs.Held.{has, held_by};

use crate::name::Name;
use crate::names::Names;
use hse_io::NoMemory;
use std::alloc::Global;
use std::collections::BTreeMap;

/// One name more of a transaction.
pub(crate) fn push_name(
    alloc: Global,
    held: &mut BTreeMap<u64, Names>,
    txn: u64,
    name: Name,
) -> Result<(), NoMemory>
    ensures pushed { OnOk result ((q : ℕ) → held_by held.new q ≡ cond (q == txn) (held_by held.old q ++ name ∷ []) (held_by held.old q)) }
    ensures same { OnErr result ((q : ℕ) → held_by held.new q ≡ held_by held.old q) }
{
    if !held.contains_key(&txn) {
        held.insert(txn, Names::new(alloc))?;
    }
    match held.get_mut(&txn) {
        Some(names) => names.push(name),
        None => unreachable!(),
    }
}

/// The last name of a transaction is taken off.
pub(crate) fn pop_name(held: &mut BTreeMap<u64, Names>, txn: u64) -> Option<Name>
    ensures last { MatchOption result (held_by held.old txn ≡ []) (λ name. held_by held.old txn ≡ held_by held.new txn ++ name ∷ []) }
    ensures none { MatchOption result (held_by held.new txn ≡ []) (λ name. held_by held.old txn ≡ held_by held.new txn ++ name ∷ []) }
    ensures others { (q : ℕ) → (q == txn) ≡ false → held_by held.new q ≡ held_by held.old q }
{
    match held.get_mut(&txn) {
        Some(names) => names.pop(),
        None => None,
    }
}

/// All names of a transaction are taken off.
pub(crate) fn take_names(held: &mut BTreeMap<u64, Names>, txn: u64) -> Option<Names>
    ensures taken { MatchOption result (held_by held.old txn ≡ []) (λ names. names ≡ held_by held.old txn) }
    ensures others { (q : ℕ) → held_by held.new q ≡ cond (q == txn) [] (held_by held.old q) }
{
    held.remove(&txn)
}

/// How many names a transaction has.
pub(crate) fn name_count(held: &BTreeMap<u64, Names>, txn: u64) -> u64
    ensures { result ≡ length (held_by held.now txn) }
{
    match held.get(&txn) {
        Some(names) => names.len(),
        None => 0,
    }
}

/// Whether a transaction has a name.
pub(crate) fn has_name(held: &BTreeMap<u64, Names>, txn: u64, name: &Name) -> bool
    ensures { result ≡ has (held_by held.now txn) name.now }
{
    match held.get(&txn) {
        Some(names) => names.contains(name),
        None => false,
    }
}
