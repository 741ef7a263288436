//! A block of keys that was opened.
ghost use Rattle.std.specs.Prelude.{◌≡◌, ◌<◌, length, slice_get, None, Some};
ghost use Rattle.std.specs.List.{find, sum_by};
ghost use Rattle.kblock.specs.Entries.{entry_of, found_of};
ghost use Rattle.kblock.specs.Form.{ArePages};
ghost use Rattle.kblock.specs.Opened.{entries_of, has_key};
ghost use Rattle.kblock.specs.Placing.{count_below};
ghost use Rattle.kblock.specs.Walking.{placed_pages};
ghost use Rattle.hse_fields.specs.BlockText.{header_size};

use crate::entry::KeyEntry;
use crate::nth::nth_on;
use crate::placing::place_on;
use crate::search::{body, find_on};
use crate::walk::{KeyWalk, walk_on};
use std::marker::Model;

/// A block of keys, which stands for its keys in order, page by page.
#[derive(Drop)]
pub struct KeyBlock {
    pub(crate) bytes: Vec<u8>,
    pub(crate) pages: u32,
    pub(crate) count: u32,
}

impl Model for KeyBlock {
    ghost use Rattle.std.specs.Prelude.{List};
    ghost use Rattle.hse_fields.specs.BlockText.{KeyEntry};
    ghost use Rattle.kblock.specs.Opened.{pages_in, IsOpened};

    ghost Value = { List (List KeyEntry) };

    ghost view = { λ b. pages_in b.pages b.bytes.items };

    ghost invariant = { λ b. IsOpened b.pages b.count b.bytes.items };
}

impl KeyBlock {
    /// How many keys the block has. They are within their limits and in order, page by page.
    pub fn len(&self) -> u64
        ensures count { result ≡ sum_by length self.now }
        ensures known { ArePages None self.now }
    {
        self.count as u64
    }

    /// The entry of a key; there is none exactly where no entry has that key. It takes no memory: a
    /// binary search among the pages, which reads the first key of each that it comes to, and a walk
    /// in one page of 4,096 bytes, without a copy of it, which reads each of its entries at most
    /// once.
    pub fn find(&self, key: &[u8]) -> Option<KeyEntry<'_>>
        ensures { found_of result ≡ find (has_key key.now) (entries_of self.now) }
    {
        find_on(body(&self.bytes, self.pages), self.pages, key)
    }

    /// How many keys stand below an edge. It takes no memory: a binary search among the pages, and a walk
    /// in one page.
    pub fn place(&self, edge: &[u8]) -> u64
        ensures { result ≡ count_below edge.now (entries_of self.now) }
    {
        place_on(body(&self.bytes, self.pages), self.pages, edge)
    }

    /// A walk over the entries, in order, which reads each once.
    pub fn walk(&self) -> KeyWalk<'_>
        ensures { result ≡ placed_pages header_size self.now }
    {
        walk_on(body(&self.bytes, self.pages), self.pages)
    }

    /// The entry at this index, counted from 0 over all pages. It takes no memory: a binary search
    /// among the numbers behind the pages, and a walk in one page up to the entry.
    pub fn entry(&self, at: u64) -> KeyEntry<'_>
        requires { at < sum_by length self.now }
        ensures { slice_get (entries_of self.now) at ≡ Some (entry_of result) }
    {
        nth_on(body(&self.bytes, self.pages), self.pages, at)
    }
}
