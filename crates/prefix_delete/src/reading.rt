//! Reads the entries of a block of prefix deletes.
ghost use Rattle.std.specs.Prelude.{◌≡◌, ◌≤◌, length, map, IfErr};
ghost use Rattle.hse_fields.specs.BlockReading.{prefix_of, prefixes_of};
ghost use Rattle.hse_rows.specs.writes.Lengths.{longest_prefix};
ghost use Rattle.prefix_delete.specs.Blocks.{in_block, last_prefix};
ghost use Rattle.prefix_delete.specs.Read.{Gives};
ghost use Rattle.hse_fields.specs.BlockGiven.{lent};

use crate::entry::Entry;
use hse_fields::{Refusal, split_name, split_u64};
use hse_rows::{LONGEST_PREFIX, Prefix, PrefixFault};
use std::alloc::Global;

/// A prefix of 1 to 32 bytes.
fn prefix(alloc: Global, bytes: &[u8]) -> Result<Prefix, Refusal>
    requires some { 1 ≤ length bytes.now }
    requires short { length bytes.now ≤ longest_prefix }
    ensures { Gives (λ prefix. prefix) result (Ok bytes.now) }
{
    match Prefix::new(alloc, bytes, LONGEST_PREFIX as u8) {
        Ok(prefix) => Ok(prefix),
        Err(PrefixFault::Length(_)) => unreachable!(),
        Err(PrefixFault::NoMemory) => Err(Refusal::NoMemory),
    }
}

/// An entry behind the last prefix, and the bytes behind it.
#[tactic(auto, unfolding(hse_fields::specs::BlockReading::prefix_of))]
fn entry<'b>(
    alloc: Global,
    last: Option<&[u8]>,
    bytes: &'b [u8],
) -> Result<(Entry, &'b [u8]), Refusal>
    ensures { Gives (λ x. (in_block x.0, x.1.now)) result (prefix_of (lent last.entry) bytes.now) }
{
    let (number, behind) = split_u64(bytes)?;
    let left = bytes.len() as u64;
    let (name, rest) = split_name(behind, 1, LONGEST_PREFIX as u64, last, left)?;
    let prefix = prefix(alloc, name)?;
    Ok((Entry { prefix, number }, rest))
}

/// The last prefix of these entries, or else the one before them.
pub(crate) fn last_of<'a>(last: Option<&'a [u8]>, entries: &'a [Entry]) -> Option<&'a [u8]>
    ensures { lent result ≡ last_prefix (lent last.entry) entries.now }
{
    match entries.last() {
        Some(entry) => Some(entry.prefix.bytes()),
        None => last,
    }
}

/// So many entries behind the last prefix, and the bytes behind them.
pub(crate) fn entries<'b>(
    alloc: Global,
    last: Option<&[u8]>,
    bytes: &'b [u8],
    count: u32,
) -> Result<(Vec<Entry>, &'b [u8]), Refusal>
    ensures { Gives (λ x. (map in_block x.0.items, x.1.now)) result
        (prefixes_of (lent last.entry) count bytes.now) }
{
    let mut entries = Vec::new(alloc);
    let mut rest = bytes;
    for _ in 0..count {
        let (next, behind) = entry(alloc, last_of(last, &entries), rest)?;
        entries.push(next)?;
        rest = behind;
    }
    Ok((entries, rest))
}
