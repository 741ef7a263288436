//! Reads a page of keys.
ghost use Rattle.std.specs.Prelude.{◌≡◌, ◌≤◌, length, IfErr};
ghost use Rattle.hse_fields.specs.BlockGiven.{Gives, lent};
ghost use Rattle.hse_fields.specs.BlockReading.{count_in, keys_of, page_of, zeros_of};
ghost use Rattle.kblock.specs.Reading.{ends, page_ends};

use crate::reading::read_key;
use byteorder::{BigEndian, ByteOrder};
use hse_fields::{Left, split_u16};

/// How many keys a page says that it has.
pub(crate) fn keys_in(page: &[u8]) -> u16
    requires { 2 ≤ length page.now }
    ensures { result ≡ count_in page.now }
{
    let (count, _) = page.split_at(2);
    BigEndian::read_u16(count)
}

/// The last one of so many keys behind the last key, and the bytes behind them.
fn keys_end<'b>(
    last: Option<&'b [u8]>,
    bytes: &'b [u8],
    count: u16,
) -> Result<(Option<&'b [u8]>, &'b [u8]), Left>
    ensures { Gives (λ x. (lent x.0, x.1.now)) result
        (ends (lent last.entry) (keys_of (lent last.entry) count bytes.now)) }
{
    let mut above = last;
    let mut rest = bytes;
    for _ in 0..count {
        match read_key(above, rest) {
            Ok((entry, behind)) => {
                above = Some(entry.key);
                rest = behind;
            }
            Err(refusal) => return Err(refusal),
        }
    }
    Ok((above, rest))
}

/// Zeros alone.
fn zeros(bytes: &[u8]) -> Result<(), Left>
    ensures { Gives (λ x. tt) result (zeros_of bytes.now) }
{
    let mut rest = bytes;
    while let [first, more @ ..] = rest {
        if *first != 0 {
            return Err(Left {
                left: rest.len() as u64,
            });
        }
        rest = more;
    }
    Ok(())
}

/// The last key of a page whose keys stand behind the last one.
#[tactic(auto, unfolding(hse_fields::specs::BlockReading::page_of))]
pub(crate) fn page_end<'b>(last: Option<&'b [u8]>, page: &'b [u8]) -> Result<Option<&'b [u8]>, Left>
    ensures gives { Gives (λ x. lent x) result
        (page_ends (lent last.entry) (page_of (lent last.entry) page.now)) }
    ensures inside { IfErr result (λ refusal. refusal.left ≤ length page.now) }
{
    let (count, rest) = split_u16(page)?;
    if count == 0 {
        return Err(Left {
            left: page.len() as u64,
        });
    }
    let (end, rest) = keys_end(last, rest, count)?;
    zeros(rest)?;
    Ok(end)
}
