//! Entries of the log.
ghost use Rattle.std.specs.Prelude.{◌≡◌, ◌<◌, ◌^◌, ◌++◌, length, OnOk, OnErr};
ghost use Rattle.hse_shell.specs.Change.{put, del};
ghost use Rattle.hse_shell.specs.LogText.{entry_text, charge_of};

use hse_fields::put_pieces;
use hse_io::NoMemory;

/// The id of the one store.
pub(crate) const STORE: u64 = 1;

/// How many changes an entry has here.
const CHANGES: u32 = 1;

/// The first byte of a put.
const PUT: u8 = 1;

/// The first byte of a deletion.
const DEL: u8 = 2;

/// The pieces of an entry's text: its number, its one change up to the key, and what stands behind the key.
macro_rules! pieces {
    ($number:expr, $kind:expr, $key:expr $(, $behind:expr)*) => {
        &[
            &$number.to_be_bytes(),
            &CHANGES.to_be_bytes(),
            &[$kind],
            &STORE.to_be_bytes(),
            &($key.len() as u16).to_be_bytes(),
            $key,
            $($behind),*
        ]
    };
}

/// Appends the entry of a put under this number. Where memory is refused nothing is appended.
pub(crate) fn push_put(
    into: &mut Vec<u8>,
    number: u64,
    key: &[u8],
    value: &[u8],
) -> Result<(), NoMemory>
    requires key_fits { length key.now < 2 ^ 16 }
    requires value_fits { length value.now < 2 ^ 32 }
    ensures written { OnOk result
        (into.new.items ≡ into.old.items ++ entry_text number (put key.now value.now)) }
    ensures unchanged { OnErr result (into.new.items ≡ into.old.items) }
{
    put_pieces(
        into,
        pieces!(number, PUT, key, &(value.len() as u32).to_be_bytes(), value),
    )
}

/// Appends the entry of a deletion under this number. Where memory is refused nothing is appended.
pub(crate) fn push_del(into: &mut Vec<u8>, number: u64, key: &[u8]) -> Result<(), NoMemory>
    requires key_fits { length key.now < 2 ^ 16 }
    ensures written { OnOk result
        (into.new.items ≡ into.old.items ++ entry_text number (del key.now)) }
    ensures unchanged { OnErr result (into.new.items ≡ into.old.items) }
{
    put_pieces(into, pieces!(number, DEL, key))
}

/// How many bytes of the log's room the entry of a put takes.
pub(crate) fn charge_of_put(key: &[u8], value: &[u8]) -> u64
    requires { length value.now < 2 ^ 32 }
    ensures { result ≡ charge_of (put key.now value.now) }
{
    12 + (15 + key.len() as u64 + value.len() as u64) + 32
}

/// How many bytes of the log's room the entry of a deletion takes.
pub(crate) fn charge_of_del(key: &[u8]) -> u64
    ensures { result ≡ charge_of (del key.now) }
{
    12 + (11 + key.len() as u64) + 32
}
