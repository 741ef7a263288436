//! Takes a field that stands at a place among bytes.
ghost use Rattle.std.specs.Prelude.{◌≡◌, drop};
ghost use Rattle.hse_fields.specs.Fields.{bytes_at, number_at, seen_by};

use crate::Short;
use crate::split::{split_bytes, split_u8, split_u16, split_u32, split_u64};

/// The bytes from a place on: none where it lies past the end.
fn rest(bytes: &[u8], at: u64) -> &[u8]
    ensures { result.now ≡ drop at bytes.now }
{
    if at > bytes.len() as u64 {
        return &[];
    }
    bytes.split_at(at as usize).1
}

/// The byte at a place. `Short` comes exactly where none stands there.
pub fn take_u8(bytes: &[u8], at: u64) -> Result<u8, Short>
    ensures { result ≡ number_at 1 bytes.now at }
{
    let (number, _) = split_u8(rest(bytes, at))?;
    Ok(number)
}

/// The number in the two bytes from a place on, the highest first. `Short` comes exactly where fewer
/// stand there.
pub fn take_u16(bytes: &[u8], at: u64) -> Result<u16, Short>
    ensures { result ≡ number_at 2 bytes.now at }
{
    let (number, _) = split_u16(rest(bytes, at))?;
    Ok(number)
}

/// The number in the four bytes from a place on, the highest first. `Short` comes exactly where
/// fewer stand there.
pub fn take_u32(bytes: &[u8], at: u64) -> Result<u32, Short>
    ensures { result ≡ number_at 4 bytes.now at }
{
    let (number, _) = split_u32(rest(bytes, at))?;
    Ok(number)
}

/// The number in the eight bytes from a place on, the highest first. `Short` comes exactly where
/// fewer stand there.
pub fn take_u64(bytes: &[u8], at: u64) -> Result<u64, Short>
    ensures { result ≡ number_at 8 bytes.now at }
{
    let (number, _) = split_u64(rest(bytes, at))?;
    Ok(number)
}

/// So many bytes from a place on. `Short` comes exactly where fewer stand there.
pub fn take_bytes(bytes: &[u8], at: u64, len: u64) -> Result<&[u8], Short>
    ensures { seen_by (λ taken. taken.now) result ≡ bytes_at len bytes.now at }
{
    let (taken, _) = split_bytes(rest(bytes, at), len)?;
    Ok(taken)
}
