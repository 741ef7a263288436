//! Where a cursor stands, and its last key, with room for the longest key.
ghost use Rattle.std.specs.Prelude.{◌≡◌, ◌≤◌, [], length, None, IfOk, IfSome};
ghost use Rattle.std.specs.Option.{option_map};
ghost use Rattle.hse_rows.specs.script.Cursor.{front};
ghost use Rattle.hse_rows.specs.writes.Lengths.{longest_key};
ghost use Rattle.cursors.specs.Marks.{position_by};

use hse_io::NoMemory;
use hse_rows::LONGEST_KEY;
use std::alloc::Global;
use std::marker::Model;

/// How a cursor stands to a key.
#[derive(Clone, Copy, Debug, PartialEq, Eq)]
pub(crate) enum Stand {
    /// Before all keys.
    Front,
    /// At the key, or where it would stand.
    At,
    /// Behind it.
    Past,
}

/// A key in room for the longest one.
#[derive(Drop)]
pub(crate) struct KeyRoom {
    bytes: Vec<u8>,
}

impl Model for KeyRoom {
    ghost use Rattle.std.specs.Prelude.{List, ℕ, ◌≤◌, vec_capacity};
    ghost use Rattle.hse_rows.specs.writes.Lengths.{longest_key};

    ghost Value = { List ℕ };

    ghost view = { λ r. r.bytes.items };

    ghost invariant = { λ r. longest_key ≤ vec_capacity r.bytes };
}

impl KeyRoom {
    /// Room with no key.
    pub(crate) fn empty(alloc: Global) -> Result<KeyRoom, NoMemory>
        ensures { IfOk result (λ room. room ≡ []) }
    {
        let bytes = Vec::with_capacity(alloc, LONGEST_KEY)?;
        Ok(KeyRoom { bytes })
    }

    /// Another key in its place. It takes no memory.
    pub(crate) fn set(&mut self, key: &[u8])
        requires { length key.now ≤ longest_key }
        ensures { self.new ≡ key.now }
    {
        self.bytes.clear();
        self.bytes.extend_from_slice(key).unwrap();
    }

    /// The key.
    pub(crate) fn key(&self) -> &[u8]
        ensures { result.now ≡ self.now }
    {
        &self.bytes
    }
}

/// A position.
#[derive(Drop)]
pub(crate) struct Mark {
    stand: Stand,
    room: KeyRoom,
}

impl Model for Mark {
    ghost use Rattle.hse_rows.specs.script.Cursor.{Position};
    ghost use Rattle.cursors.specs.Marks.{position_by};

    ghost Value = { Position };

    ghost view = { λ m. position_by m.stand m.room };
}

impl Mark {
    /// Before all keys.
    pub(crate) fn front(alloc: Global) -> Result<Mark, NoMemory>
        ensures { IfOk result (λ mark. mark ≡ front) }
    {
        let room = KeyRoom::empty(alloc)?;
        Ok(Mark {
            stand: Stand::Front,
            room,
        })
    }

    /// At a key, or behind it. It takes no memory.
    pub(crate) fn set(&mut self, stand: Stand, key: &[u8])
        requires { length key.now ≤ longest_key }
        ensures { self.new ≡ position_by stand key.now }
    {
        self.stand = stand;
        self.room.set(key);
    }

    /// How it stands to which key.
    pub(crate) fn parts(&self) -> (Stand, &[u8])
        ensures { position_by result.0 result.1.now ≡ self.now }
    {
        (self.stand, self.room.key())
    }
}

/// The last key of a range, where there is one.
#[derive(Drop)]
pub(crate) struct Last {
    is_there: bool,
    room: KeyRoom,
}

impl Model for Last {
    ghost use Rattle.std.specs.Prelude.{List, ℕ, Option};
    ghost use Rattle.cursors.specs.Marks.{last_by};

    ghost Value = { Option (List ℕ) };

    ghost view = { λ l. last_by l.is_there l.room };
}

impl Last {
    /// None.
    pub(crate) fn none(alloc: Global) -> Result<Last, NoMemory>
        ensures { IfOk result (λ last. last ≡ None) }
    {
        let room = KeyRoom::empty(alloc)?;
        Ok(Last {
            is_there: false,
            room,
        })
    }

    /// Another last key, or none. It takes no memory.
    pub(crate) fn set(&mut self, key: Option<&[u8]>)
        requires { IfSome key (λ key. length key.now ≤ longest_key) }
        ensures { self.new ≡ option_map (λ key. key.now) key.entry }
    {
        match key {
            None => self.is_there = false,
            Some(key) => {
                self.is_there = true;
                self.room.set(key);
            }
        }
    }

    /// The last key.
    pub(crate) fn key(&self) -> Option<&[u8]>
        ensures { option_map (λ key. key.now) result ≡ self.now }
    {
        if self.is_there {
            return Some(self.room.key());
        }
        None
    }
}
