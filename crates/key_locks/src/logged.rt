//! The names that commits wrote.
ghost use Rattle.std.specs.Prelude.{◌≡◌, map};
ghost use Rattle.key_locks.specs.Seen.{first_of};
ghost use Rattle.key_locks.specs.Since.{IsFirstSince};
ghost use Rattle.key_locks.specs.Logged.{logged_write};
ghost use Rattle.key_locks.specs.Names.{write_at};
ghost use Rattle.hse_rows.specs.writes.Overlap.{overlaps, meets};

use crate::name::Name;
use std::collections::VecDeque;

/// A name that the commit with this number wrote.
#[derive(Drop)]
pub(crate) struct Logged {
    pub number: u64,
    pub name: Name,
}

impl Name {
    /// Whether writes of two names overlap.
    pub fn meets(&self, other: &Name) -> bool
        ensures { result ≡ overlaps (write_at self.now) (write_at other.now) }
    {
        self.store == other.store && bytes_meet(self, other)
    }
}

/// The same key, or one prefix covers the other name.
fn bytes_meet(one: &Name, other: &Name) -> bool
    ensures { result ≡ meets (write_at one.now).change (write_at other.now).change }
{
    let first = one.bytes.bytes();
    let second = other.bytes.bytes();
    match (one.is_key, other.is_key) {
        (true, true) => first == second,
        (true, false) => first.starts_with(second),
        (false, true) => second.starts_with(first),
        (false, false) => second.starts_with(first) || first.starts_with(second),
    }
}

/// The lesser of a number and another one, if there is one.
fn lesser(first: Option<u64>, number: u64) -> Option<u64>
    ensures { result ≡ first_of first number }
{
    match first {
        Some(first) => Some(first.min(number)),
        None => Some(number),
    }
}

/// The first commit after a snapshot that wrote what overlaps a write of this name.
pub(crate) fn first_since(logged: &VecDeque<Logged>, snapshot: u64, name: &Name) -> Option<u64>
    ensures { IsFirstSince (write_at name.now) snapshot (map logged_write logged.now.items) result }
{
    let mut first = None;
    for i in 0..logged.len() {
        let entry = &logged[i];
        if entry.number > snapshot && name.meets(&entry.name) {
            first = lesser(first, entry.number);
        }
    }
    first
}
