//! How many bytes entries have.
ghost use Rattle.std.specs.Prelude.{◌≡◌, ◌+◌, ◌<◌, ◌^◌, ◌↔◌, length, IsTrue};
ghost use Rattle.std.specs.List.{flat_map};
ghost use Rattle.manifest.specs.Entries.{entry_as};
ghost use Rattle.manifest.specs.Text.{base_text, entry_text, store_text};
ghost use Rattle.manifest.specs.Views.{metadata_as, stores_as};

use crate::{Base, BaseStore, Entry};

/// How many bytes no payload of a batch has.
const TOO_LONG: u64 = 1 << 32;

/// Whether a payload of so many bytes and these stores is one of a batch.
fn have_room(size: u64, stores: &[BaseStore]) -> bool
    requires { size < 2 ^ 32 }
    ensures { IsTrue result ↔ size + length (flat_map store_text (stores_as stores.now)) < 2 ^ 32 }
{
    let mut total = size;
    let mut rest = stores;
    while let [store, more @ ..] = rest {
        total += 15 + store.name.bytes().len() as u64;
        if total >= TOO_LONG {
            return false;
        }
        rest = more;
    }
    true
}

/// Whether a base has fewer than 2^32 bytes.
fn is_short_base(base: &Base) -> bool
    ensures { IsTrue result ↔ length (base_text (metadata_as base.now)) < 2 ^ 32 }
{
    let runs = base.taken.len() as u64;
    if runs >= 1 << 29 {
        return false;
    }
    let size = 25 + 8 * runs;
    if size >= TOO_LONG {
        return false;
    }
    have_room(size, &base.stores)
}

impl Base {
    /// Whether the base has fewer than 2^32 bytes, as a batch's payload has.
    pub fn is_short(&self) -> bool
        ensures { IsTrue result ↔ length (base_text (metadata_as self.now)) < 2 ^ 32 }
    {
        is_short_base(self)
    }
}

impl Entry {
    /// Whether the entry has fewer than 2^32 bytes, as a batch's payload has.
    pub fn is_short(&self) -> bool
        ensures { IsTrue result ↔ length (entry_text (entry_as self.now)) < 2 ^ 32 }
    {
        match self {
            Entry::Base(base) => is_short_base(base),
            Entry::Create(_, name, _, _) => 12 + (name.bytes().len() as u64) < TOO_LONG,
            Entry::Drop(_, _) => true,
        }
    }
}
