//! The texts of items.
ghost use Rattle.std.specs.Prelude.{◌≡◌, ◌++◌, codes, OnOk, OnErr};
ghost use Rattle.hex.specs.Hex.{encode_lower};
ghost use Rattle.shell_text.specs.Replies.{item_text};

use crate::append::append;
use crate::plain::{MARK, is_plain};
use hse_io::NoMemory;

/// Appends bytes as they stand where they stand for themselves, and else as `x:` and lower-case
/// digits. Where memory is refused nothing is appended.
#[tactic(auto, unfolding(crate::specs::Replies::item_text))]
pub(crate) fn append_item(bytes: &[u8], into: &mut Vec<u8>) -> Result<(), NoMemory>
    ensures written { OnOk result (into.new.items ≡ into.old.items ++ item_text bytes.now) }
    ensures unchanged { OnErr result (into.new.items ≡ into.old.items) }
{
    if is_plain(bytes) {
        append(into, &[bytes])
    } else {
        append_hexed(bytes, into)
    }
}

/// Appends `x:` and two lower-case digits a byte.
fn append_hexed(bytes: &[u8], into: &mut Vec<u8>) -> Result<(), NoMemory>
    ensures written { OnOk result
        (into.new.items ≡ into.old.items ++ (codes "x:" ++ encode_lower bytes.now)) }
    ensures unchanged { OnErr result (into.new.items ≡ into.old.items) }
{
    let start = into.len();
    // Room for two digits a byte; the bytes stand in it until the digits do.
    if let Err(_) = append(into, &[MARK, bytes, bytes]) {
        return Err(NoMemory);
    }
    let (_, digits) = into.split_at_mut(start + MARK.len());
    match hex::encode_to_slice(bytes, digits) {
        Ok(()) => Ok(()),
        Err(_) => unreachable!(),
    }
}
