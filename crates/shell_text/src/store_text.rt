//! The texts of stores.
ghost use Rattle.std.specs.Prelude.{◌≡◌, ◌++◌, OnOk, OnErr};
ghost use Rattle.shell_text.specs.Replies.{store_line, stores_text};

use crate::append::append;
use crate::reply::StoreText;
use hse_io::NoMemory;
use hse_rows::Mode;
use itoa::Buffer;

/// Appends how many stores there are, and a line for each. Where memory is refused nothing is
/// appended.
pub(crate) fn append_stores(stores: &[StoreText], into: &mut Vec<u8>) -> Result<(), NoMemory>
    ensures written { OnOk result (into.new.items ≡ into.old.items ++ stores_text stores.now) }
    ensures unchanged { OnErr result (into.new.items ≡ into.old.items) }
{
    let start = into.len();
    let mut digits = Buffer::new();
    let count = digits.format(stores.len()).as_bytes();
    if let Err(_) = append(into, &[b"stores ", count, b"\n"]) {
        return Err(NoMemory);
    }
    for store in stores {
        if let Err(_) = append_store(store, into) {
            into.truncate(start);
            return Err(NoMemory);
        }
    }
    Ok(())
}

/// Appends the line of a store: its name, its mode and the length of its prefixes.
fn append_store(store: &StoreText, into: &mut Vec<u8>) -> Result<(), NoMemory>
    ensures written { OnOk result (into.new.items ≡ into.old.items ++ store_line store.now) }
    ensures unchanged { OnErr result (into.new.items ≡ into.old.items) }
{
    let mut digits = Buffer::new();
    let prefix = digits.format(store.prefix).as_bytes();
    let mode: &[u8] = match store.mode {
        Mode::Plain => b" plain ",
        Mode::Tx => b" tx ",
    };
    append(into, &[store.name.bytes(), mode, prefix, b"\n"])
}
