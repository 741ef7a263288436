//! The locks of all names whose writes meet a write.
ghost use Rattle.std.specs.Prelude.{◌≡◌, ◌<◌, ◌≤◌, false, true, length, IfOk};
ghost use Rattle.hse_rows.specs.writes.Lengths.{IsKeyLength};
ghost use Rattle.key_locks.specs.Seen.{begins_with, seen_below, IsBelow, IsMet, IsOwn, IsSeen, KnowsLengths};

use crate::lock::{Lock, Seen};
use crate::name::Name;
use crate::table::lock_of;
use hse_io::NoMemory;
use hse_rows::{Key, KeyFault};
use std::alloc::Global;
use std::collections::BTreeMap;

/// Whether a name begins with another of its store.
fn begins_with(name: &Name, start: &Name) -> bool
    ensures { result ≡ begins_with start.now name.now }
{
    name.store == start.store && name.bytes.bytes().starts_with(start.bytes.bytes())
}

/// What the locks of a prefix and of all that begins with it say.
fn below(table: &BTreeMap<Name, Lock>, start: &Name, txn: u64) -> Seen
    requires { start.now.is_key ≡ false }
    ensures { IsSeen table.now txn (IsBelow start.now) result }
{
    let mut seen = Seen::nothing();
    let mut rest = table.range(start..);
    while let Some((name, lock)) = rest.next() {
        if !begins_with(name, start) {
            return seen;
        }
        seen = seen.with(*lock, txn);
    }
    seen
}

/// What the lock of a key says, or of a prefix and all that begins with it.
fn own(table: &BTreeMap<Name, Lock>, name: &Name, txn: u64) -> Seen
    ensures { IsSeen table.now txn (IsOwn name.now) result }
{
    if name.is_key {
        return Seen::nothing().with(lock_of(table, name), txn);
    }
    below(table, name, txn)
}

/// A key of these bytes.
pub(crate) fn key_of(alloc: Global, bytes: &[u8]) -> Result<Key, NoMemory>
    requires { IsKeyLength (length bytes.now) }
    ensures { IfOk result (λ key. key ≡ bytes.now) }
{
    match Key::new(alloc, bytes) {
        Ok(key) => Ok(key),
        Err(KeyFault::NoMemory) => Err(NoMemory),
        Err(KeyFault::Length(_)) => unreachable!(),
    }
}

/// What the locks of all names say whose writes meet a write of this name. A search for each length
/// of prefixes in use finds those that the name begins with.
pub(crate) fn seen_of(
    alloc: Global,
    table: &BTreeMap<Name, Lock>,
    lengths: &[bool; 33],
    name: &Name,
    txn: u64,
) -> Result<Seen, NoMemory>
    requires { KnowsLengths table.now lengths.now }
    ensures { IfOk result (λ seen. IsSeen table.now txn (IsMet name.now) seen) }
{
    let mut seen = own(table, name, txn);
    let bytes = name.bytes.bytes();
    for length in 1..33 {
        if lengths[length] && length <= bytes.len() {
            let shorter = Name {
                store: name.store,
                bytes: key_of(alloc, &bytes[..length])?,
                is_key: false,
            };
            seen = seen.with(lock_of(table, &shorter), txn);
        }
    }
    Ok(seen)
}
