//! Puts fields behind bytes that have room for them.
ghost use Rattle.std.specs.Prelude.{◌≡◌, ◌+◌, ◌≤◌, ◌<◌, ◌++◌, ◌-◌, length, replicate, vec_capacity};
ghost use Rattle.byteorder.specs.Endian.{big_bytes};
ghost use Rattle.hse_fields.specs.BlockText.{key_text};
ghost use Rattle.hse_fields.specs.LogLimits.{longest_key};
ghost use Rattle.hse_fields.specs.LogText.{sized};
ghost use Rattle.kblock.specs.Entries.{entry_of};

use crate::entry::KeyEntry;
use hse_fields::{PAGE_SIZE, ValuePlace};

/// Puts bytes behind the others.
pub(crate) fn put(into: &mut Vec<u8>, bytes: &[u8])
    requires { length into.old.items + length bytes.now ≤ vec_capacity into.old }
    ensures items { into.new.items ≡ into.old.items ++ bytes.now }
    ensures capacity { vec_capacity into.old ≤ vec_capacity into.new }
{
    into.extend_from_slice(bytes).unwrap();
}

/// Puts so many zeros behind the bytes.
fn put_zeros(into: &mut Vec<u8>, count: u64)
    requires { length into.old.items + count ≤ vec_capacity into.old }
    ensures items { into.new.items ≡ into.old.items ++ replicate count 0 }
    ensures capacity { vec_capacity into.old ≤ vec_capacity into.new }
{
    for _ in 0..count {
        into.push(0).unwrap();
    }
}

/// Puts the kind, the number and the key of an entry behind the bytes.
fn put_key(into: &mut Vec<u8>, kind: u8, number: u64, key: &[u8])
    requires room { length into.old.items + (11 + length key.now) ≤ vec_capacity into.old }
    requires short { length key.now ≤ longest_key }
    ensures items { into.new.items ≡ into.old.items
        ++ (big_bytes 1 kind ++ (big_bytes 8 number ++ sized 2 key.now)) }
    ensures capacity { vec_capacity into.old ≤ vec_capacity into.new }
{
    put(into, &[kind]);
    put(into, &number.to_be_bytes());
    put(into, &(key.len() as u16).to_be_bytes());
    put(into, key);
}

/// Puts a value's place behind the bytes.
fn put_place(into: &mut Vec<u8>, place: ValuePlace)
    requires { length into.old.items + 12 ≤ vec_capacity into.old }
    ensures items { into.new.items ≡ into.old.items ++ (big_bytes 4 place.block
        ++ (big_bytes 4 place.offset ++ big_bytes 4 place.len)) }
    ensures capacity { vec_capacity into.old ≤ vec_capacity into.new }
{
    put(into, &place.block.to_be_bytes());
    put(into, &place.offset.to_be_bytes());
    put(into, &place.len.to_be_bytes());
}

/// Puts an entry behind the bytes.
pub(crate) fn put_entry(into: &mut Vec<u8>, entry: &KeyEntry<'_>)
    requires room { length into.old.items + length (key_text (entry_of entry.now))
        ≤ vec_capacity into.old }
    requires short { length entry.now.key.now ≤ longest_key }
    ensures items { into.new.items ≡ into.old.items ++ key_text (entry_of entry.now) }
    ensures capacity { vec_capacity into.old ≤ vec_capacity into.new }
{
    match entry.value {
        Some(place) => {
            put_key(into, 1, entry.number, entry.key);
            put_place(into, place);
        }
        None => put_key(into, 2, entry.number, entry.key),
    }
}

/// Puts a page behind the bytes: the number of its keys, its keys' bytes, and zeros up to its end.
pub(crate) fn put_page(into: &mut Vec<u8>, count: u16, keys: &[u8])
    requires room { length into.old.items + 4096 ≤ vec_capacity into.old }
    requires fits { 2 + length keys.now ≤ 4096 }
    ensures items { into.new.items ≡ into.old.items ++ ((big_bytes 2 count ++ keys.now)
        ++ replicate (4094 - length keys.now) 0) }
    ensures capacity { vec_capacity into.old ≤ vec_capacity into.new }
{
    let zeros = PAGE_SIZE - 2 - keys.len() as u64;
    put(into, &count.to_be_bytes());
    put(into, keys);
    put_zeros(into, zeros);
}

/// Puts a number behind the bytes.
pub(crate) fn put_count(into: &mut Vec<u8>, count: u32)
    requires { length into.old.items + 4 ≤ vec_capacity into.old }
    ensures items { into.new.items ≡ into.old.items ++ big_bytes 4 count }
    ensures capacity { vec_capacity into.old ≤ vec_capacity into.new }
{
    put(into, &count.to_be_bytes());
}
