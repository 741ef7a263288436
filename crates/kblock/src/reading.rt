//! Reads the keys of a block.
ghost use Rattle.std.specs.Prelude.{◌≡◌, ◌≤◌, length, IfErr};
ghost use Rattle.hse_fields.specs.BlockGiven.{Gives, lent};
ghost use Rattle.hse_fields.specs.BlockReading.{key_of, place_after, place_of};
ghost use Rattle.kblock.specs.Entries.{entry_of};

use crate::entry::KeyEntry;
use hse_fields::{LONGEST_KEY, Left, ValuePlace, split_name, split_u8, split_u32, split_u64};

/// Where a value stands, and the bytes behind it.
#[tactic(auto, unfolding(hse_fields::specs::BlockReading::place_of))]
fn place(bytes: &[u8]) -> Result<(ValuePlace, &[u8]), Left>
    ensures { Gives (λ x. (x.0, x.1.now)) result (place_of bytes.now) }
{
    let (block, rest) = split_u32(bytes)?;
    let (offset, rest) = split_u32(rest)?;
    let (len, rest) = split_u32(rest)?;
    Ok((ValuePlace { block, offset, len }, rest))
}

/// Where a put's value stands; a deletion has none.
#[tactic(auto, unfolding(hse_fields::specs::BlockReading::place_after))]
fn place_after(kind: u8, bytes: &[u8]) -> Result<(Option<ValuePlace>, &[u8]), Left>
    ensures { Gives (λ x. (x.0, x.1.now)) result (place_after kind bytes.now) }
{
    if kind != 1 {
        return Ok((None, bytes));
    }
    let (place, rest) = place(bytes)?;
    Ok((Some(place), rest))
}

/// A key behind the last one, and the bytes behind it.
#[tactic(auto, unfolding(hse_fields::specs::BlockReading::key_of))]
pub(crate) fn read_key<'b>(
    last: Option<&[u8]>,
    bytes: &'b [u8],
) -> Result<(KeyEntry<'b>, &'b [u8]), Left>
    ensures { Gives (λ x. (entry_of x.0, x.1.now)) result (key_of (lent last.entry) bytes.now) }
{
    let (kind, rest) = split_u8(bytes)?;
    if kind != 1 && kind != 2 {
        return Err(Left {
            left: bytes.len() as u64,
        });
    }
    let (number, rest) = split_u64(rest)?;
    let (key, rest) = split_name(rest, 2, LONGEST_KEY, last, bytes.len() as u64)?;
    let (value, rest) = place_after(kind, rest)?;
    Ok((KeyEntry { number, key, value }, rest))
}
