//! Reads names that stand in order.
ghost use Rattle.std.specs.Prelude.{◌≡◌, ◌≤◌, length, IfOk};
ghost use Rattle.hse_fields.specs.BlockGiven.{lent, Gives};
ghost use Rattle.hse_fields.specs.BlockReading.{is_above, name_of, name_rises};
ghost use Rattle.hse_fields.specs.Fields.{number_of, IsTaken};

use crate::Short;
use crate::block::Left;
use crate::split::split_bytes;
use byteorder::{BigEndian, ByteOrder};
use std::cmp::Ordering;

/// Whether a name stands above the last one, if there is one.
fn is_above(last: Option<&[u8]>, name: &[u8]) -> bool
    ensures { result ≡ is_above (lent last.entry) name.now }
{
    match last {
        None => true,
        Some(last) => match last.cmp(name) {
            Ordering::Less => true,
            Ordering::Equal => false,
            Ordering::Greater => false,
        },
    }
}

/// Whether the name that is so many of these bytes stands above the last one. One that is cut off
/// does not tell.
fn rises(last: Option<&[u8]>, size: u64, bytes: &[u8]) -> bool
    ensures { result ≡ name_rises (lent last.entry) size bytes.now }
{
    if (bytes.len() as u64) < size {
        return true;
    }
    let (name, _) = bytes.split_at(size as usize);
    is_above(last, name)
}

/// A number of so many bytes, and the bytes behind it.
fn split_size(bytes: &[u8], width: u8) -> Result<(u64, &[u8]), Short>
    requires some { 1 ≤ width }
    requires few { width ≤ 8 }
    ensures { IsTaken width (λ x. (x.0, x.1.now)) result (number_of width bytes.now) }
{
    let (size, rest) = split_bytes(bytes, width as u64)?;
    Ok((BigEndian::read_uint(size, width as usize), rest))
}

/// A name of 1 to so many bytes behind its length, which has `width` bytes, and the bytes behind it.
/// `Left` comes with `left`, the number of bytes from the first one of the name's entry on, where the
/// name does not stand above the last one; else with those from the length on, where it is outside
/// its limits; and with what is there, where the length or the name is cut off.
#[tactic(auto, unfolding(crate::specs::BlockReading::name_of))]
pub fn split_name<'b>(
    bytes: &'b [u8],
    width: u8,
    most: u64,
    last: Option<&[u8]>,
    left: u64,
) -> Result<(&'b [u8], &'b [u8]), Left>
    requires some { 1 ≤ width }
    requires few { width ≤ 8 }
    ensures gives { Gives (λ x. (x.0.now, x.1.now)) result
        (name_of width most (lent last.entry) left bytes.now) }
    ensures within { IfOk result (λ x. (1 ≤ length x.0.now) × (length x.0.now ≤ most)) }
{
    let (size, rest) = split_size(bytes, width)?;
    if !rises(last, size, rest) {
        return Err(Left { left });
    }
    if size < 1 || size > most {
        return Err(Left {
            left: bytes.len() as u64,
        });
    }
    Ok(split_bytes(rest, size)?)
}
