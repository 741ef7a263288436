//! The pairs of a store, in the order of their keys.

use hse_io::NoMemory;
use std::alloc::Global;

/// A key and its value.
#[derive(Drop)]
pub(crate) struct Pair {
    pub(crate) key: Vec<u8>,
    pub(crate) value: Vec<u8>,
}

/// An equal pair.
pub(crate) fn copy_of(alloc: Global, pair: &Pair) -> Result<Pair, NoMemory> {
    Ok(Pair {
        key: Vec::from_slice(alloc, &pair.key)?,
        value: Vec::from_slice(alloc, &pair.value)?,
    })
}

/// Equal pairs.
pub(crate) fn copy_all(alloc: Global, pairs: &[Pair]) -> Result<Vec<Pair>, NoMemory> {
    let mut copy = Vec::new(alloc);
    for pair in pairs {
        copy.push(copy_of(alloc, pair)?)?;
    }
    Ok(copy)
}

/// How many of the pairs have a lesser key, by going over all.
fn count_before(pairs: &[Pair], key: &[u8]) -> usize {
    pairs.iter().filter(|pair| is_less(&pair.key, key)).count()
}

/// Whether one key comes before another.
pub(crate) fn is_less(one: &[u8], other: &[u8]) -> bool {
    one.cmp(other).is_lt()
}

/// The value of a key.
pub(crate) fn value_of<'a>(pairs: &'a [Pair], key: &[u8]) -> Option<&'a [u8]> {
    for pair in pairs {
        if pair.key.as_slice() == key {
            return Some(pair.value.as_slice());
        }
    }
    None
}

/// Sets the value of a key.
pub(crate) fn put_pair(pairs: &mut Vec<Pair>, pair: Pair) -> Result<(), NoMemory> {
    delete_key(pairs, &pair.key);
    let at = count_before(pairs, &pair.key).min(pairs.len());
    pairs.insert(at, pair)?;
    Ok(())
}

/// Removes a key, where it is there.
pub(crate) fn delete_key(pairs: &mut Vec<Pair>, key: &[u8]) {
    pairs.retain(|pair| pair.key.as_slice() != key);
}

/// Removes the keys that begin with a prefix.
pub(crate) fn delete_prefix(pairs: &mut Vec<Pair>, prefix: &[u8]) {
    pairs.retain(|pair| !pair.key.starts_with(prefix));
}
