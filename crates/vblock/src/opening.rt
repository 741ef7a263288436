//! Opens a block of values.
ghost use Rattle.std.specs.Prelude.{◌≡◌, ◌<◌, ◌≤◌, ◌^◌, length, Ok, Err, IfErr, OnOk};
ghost use Rattle.hse_fields.specs.BlockGiven.{Tells};
ghost use Rattle.hse_fields.specs.BlockReading.{value_block_of, values_with};
ghost use Rattle.hse_rows.specs.writes.Lengths.{longest_value_in};
ghost use Rattle.vblock.specs.Opened.{values_in, IsOpened};

use crate::ValueBlock;
use crate::reading::behind_values;
use hse_fields::{BlockHeader, Damaged, VALUE_KIND, block_body, read_plain_header};
use hse_rows::longest_value;

/// Opens a block of values by its bytes, those of a slot, of a device with slots of so many bytes. It
/// takes no memory, and lets the values stay where they are. `Damaged` has the place of the first
/// field that the grammar refuses: the kind, a byte that is not zero, used bytes fewer than the
/// header's or more than there are, a number of entries that is 0 or of pages that is not, or the
/// first entry that passes the used bytes or whose length is above that of a value there, which is at
/// most 1,048,576 and 64 bytes less than a slot; bytes left over are refused at the used bytes. What
/// stands behind these is not read.
#[tactic(auto, unfolding(hse_fields::specs::BlockReading::value_block_of))]
pub fn open_value_block(slot: u64, bytes: Vec<u8>) -> Result<ValueBlock, Damaged>
    ensures { Tells (λ block. block) result
        (value_block_of (longest_value_in slot) bytes.items) }
{
    match read_plain_header(&bytes, VALUE_KIND) {
        Ok(head) => opened(bytes, head, longest_value(slot)),
        Err(refused) => Err(refused),
    }
}

/// Opens a block of values of at most so many bytes each, which has this header.
fn opened(bytes: Vec<u8>, head: BlockHeader, most: u64) -> Result<ValueBlock, Damaged>
    requires header { 16 ≤ head.used }
    requires within { head.used ≤ length bytes.items }
    requires small { most < 2 ^ 32 }
    ensures { Tells (λ block. block) result (values_with most head bytes.items) }
{
    match test_values(&bytes, head, most) {
        Ok(()) => Ok(ValueBlock {
            bytes,
            used: head.used,
            count: head.count,
        }),
        Err(damage) => Err(damage),
    }
}

/// Tests the entries behind this header.
fn test_values(bytes: &[u8], head: BlockHeader, most: u64) -> Result<(), Damaged>
    requires header { 16 ≤ head.used }
    requires within { head.used ≤ length bytes.now }
    requires small { most < 2 ^ 32 }
    ensures formed { OnOk result (IsOpened head.used head.count bytes.now) }
    ensures told { OnOk result
        (values_with most head bytes.now ≡ Ok (values_in head.used head.count bytes.now)) }
    ensures refused { IfErr result (λ damage. values_with most head bytes.now ≡ Err damage.0) }
{
    match behind_values(block_body(bytes, head.used), head.count, most) {
        Ok(rest) => {
            if rest.is_empty() {
                return Ok(());
            }
            Err(Damaged(4))
        }
        Err(refusal) => Err(refusal.placed(head.used as u64)),
    }
}
