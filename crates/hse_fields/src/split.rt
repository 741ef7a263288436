//! Takes fields from the beginning of bytes.
ghost use Rattle.std.specs.Prelude.{◌≡◌, length, nat_lt, if◌then◌else◌, Ok, Err};
ghost use Rattle.hse_fields.specs.Fields.{short, number_of, bytes_of, IsTaken};

use crate::Short;
use byteorder::{BigEndian, ByteOrder};

/// Tells where fewer bytes stand than are needed.
fn need(bytes: &[u8], need: u64) -> Result<(), Short>
    ensures { result ≡ (if nat_lt (length bytes.now) need
        then Err (short (length bytes.now) need) else Ok tt) }
{
    let have = bytes.len() as u64;
    if have < need {
        return Err(Short { have, need });
    }
    Ok(())
}

/// The first byte, and the bytes behind it. `Short` comes exactly where there is none.
pub fn split_u8(bytes: &[u8]) -> Result<(u8, &[u8]), Short>
    ensures { IsTaken 1 (λ x. (x.0, x.1.now)) result (number_of 1 bytes.now) }
{
    need(bytes, 1)?;
    let (field, rest) = bytes.split_at(1);
    Ok((field[0], rest))
}

/// The number in the first two bytes, the highest first, and the bytes behind them. `Short` comes
/// exactly where there are fewer.
pub fn split_u16(bytes: &[u8]) -> Result<(u16, &[u8]), Short>
    ensures { IsTaken 2 (λ x. (x.0, x.1.now)) result (number_of 2 bytes.now) }
{
    need(bytes, 2)?;
    let (field, rest) = bytes.split_at(2);
    Ok((BigEndian::read_u16(field), rest))
}

/// The number in the first four bytes, the highest first, and the bytes behind them. `Short` comes
/// exactly where there are fewer.
pub fn split_u32(bytes: &[u8]) -> Result<(u32, &[u8]), Short>
    ensures { IsTaken 4 (λ x. (x.0, x.1.now)) result (number_of 4 bytes.now) }
{
    need(bytes, 4)?;
    let (field, rest) = bytes.split_at(4);
    Ok((BigEndian::read_u32(field), rest))
}

/// The number in the first eight bytes, the highest first, and the bytes behind them. `Short` comes
/// exactly where there are fewer.
pub fn split_u64(bytes: &[u8]) -> Result<(u64, &[u8]), Short>
    ensures { IsTaken 8 (λ x. (x.0, x.1.now)) result (number_of 8 bytes.now) }
{
    need(bytes, 8)?;
    let (field, rest) = bytes.split_at(8);
    Ok((BigEndian::read_u64(field), rest))
}

/// The first bytes, so many of them, and the bytes behind them. `Short` comes exactly where there
/// are fewer.
pub fn split_bytes(bytes: &[u8], len: u64) -> Result<(&[u8], &[u8]), Short>
    ensures { IsTaken len (λ x. (x.0.now, x.1.now)) result (bytes_of len bytes.now) }
{
    need(bytes, len)?;
    Ok(bytes.split_at(len as usize))
}
