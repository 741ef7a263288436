//! The blocks of prefix deletes.
ghost use Rattle.std.specs.Prelude.{◌≡◌, ℕ, ◌+◌, ◌<◌, ◌≤◌, ◌^◌, ◌++◌, List, [], length as number_of_all, map, take, None, Ok, IfOk, OnOk, OnErr, IfErr};
ghost use Rattle.hse_fields.specs.BlockForm.{AreRising};
ghost use Rattle.hse_fields.specs.BlockReading.{prefix_block_of, prefixes_with};
ghost use Rattle.hse_fields.specs.BlockText.{header_size, prefixes_text};
ghost use Rattle.prefix_delete.specs.Blocks.{in_block, last_prefix, Refuses};
ghost use Rattle.prefix_delete.specs.Read.{Gives};
ghost use Rattle.hse_fields.specs.BlockGiven.{lent};

use crate::entry::Entry;
use crate::fault::PrefixBlockFault;
use crate::reading::entries;
use hse_fields::{
    BlockHeader, Damaged, HEADER_SIZE, PREFIX_KIND, Refusal, block_body, put_pieces,
    read_plain_header, write_header,
};
use hse_io::NoMemory;
use std::alloc::Global;

/// The entries of a block behind this last prefix.
#[tactic(auto, unfolding(hse_fields::specs::BlockReading::prefix_block_of))]
pub(crate) fn block_entries(
    alloc: Global,
    last: Option<&[u8]>,
    bytes: &[u8],
) -> Result<Vec<Entry>, PrefixBlockFault>
    ensures read { IfOk result (λ entries.
        prefix_block_of (lent last.entry) bytes.now ≡ Ok (map in_block entries.items)) }
    ensures refused { IfErr result (Refuses (prefix_block_of (lent last.entry) bytes.now)) }
    ensures rising { IfOk result (λ entries.
        AreRising (lent last.entry) (map in_block entries.items)) }
{
    match read_plain_header(bytes, PREFIX_KIND) {
        Ok(head) => entries_with(alloc, last, bytes, head),
        Err(damage) => Err(PrefixBlockFault::Damaged(damage.0)),
    }
}

/// The entries behind this header and this last prefix.
#[tactic(auto, unfolding(hse_fields::specs::BlockReading::prefixes_with))]
fn entries_with(
    alloc: Global,
    last: Option<&[u8]>,
    bytes: &[u8],
    head: BlockHeader,
) -> Result<Vec<Entry>, PrefixBlockFault>
    requires header { 16 ≤ head.used }
    requires within { head.used ≤ number_of_all bytes.now }
    ensures read { IfOk result (λ entries.
        prefixes_with (lent last.entry) head bytes.now ≡ Ok (map in_block entries.items)) }
    ensures refused { IfErr result (Refuses (prefixes_with (lent last.entry) head bytes.now)) }
    ensures rising { IfOk result (λ entries.
        AreRising (lent last.entry) (map in_block entries.items)) }
{
    match entries(alloc, last, block_body(bytes, head.used), head.count) {
        Ok((entries, rest)) => {
            if rest.is_empty() {
                return Ok(entries);
            }
            Err(PrefixBlockFault::Damaged(4))
        }
        Err(Refusal::Left(left)) => Err(PrefixBlockFault::Damaged(head.used as u64 - left)),
        Err(Refusal::NoMemory) => Err(PrefixBlockFault::NoMemory),
    }
}
