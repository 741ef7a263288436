//! Reads the entries of a block of values.
ghost use Rattle.std.specs.Prelude.{◌≡◌, ◌≤◌, length, IfErr};
ghost use Rattle.hse_fields.specs.BlockGiven.{Gives};
ghost use Rattle.hse_fields.specs.BlockReading.{behind_of, values_of};
ghost use Rattle.hse_fields.specs.LogReading.{sized_of};

use hse_fields::{Left, split_bytes, split_u32};

/// A value of at most so many bytes behind its length, and the bytes behind it. A greater length is
/// refused at itself.
#[tactic(auto, unfolding(hse_fields::specs::LogReading::sized_of, hse_fields::specs::LogReading::size_of))]
pub(crate) fn read_value(bytes: &[u8], most: u64) -> Result<(&[u8], &[u8]), Left>
    ensures { Gives (λ x. (x.0.now, x.1.now)) result (sized_of 4 0 most bytes.now) }
{
    let (size, rest) = split_u32(bytes)?;
    if size as u64 > most {
        return Err(Left {
            left: bytes.len() as u64,
        });
    }
    Ok(split_bytes(rest, size as u64)?)
}

/// The bytes behind so many values of at most so many bytes each.
pub(crate) fn behind_values(bytes: &[u8], count: u32, most: u64) -> Result<&[u8], Left>
    ensures gives { Gives (λ x. x.now) result (behind_of (values_of most count bytes.now)) }
    ensures inside { IfErr result (λ refusal. refusal.left ≤ length bytes.now) }
{
    let mut rest = bytes;
    for _ in 0..count {
        match read_value(rest, most) {
            Ok((_, behind)) => rest = behind,
            Err(refusal) => return Err(refusal),
        }
    }
    Ok(rest)
}
