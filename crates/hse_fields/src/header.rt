//! Reads and writes the header of a block.
ghost use Rattle.std.specs.Prelude.{◌≡◌, ◌≤◌, ◌++◌, drop, length, IfErr, IfOk};
ghost use Rattle.hse_fields.specs.BlockGiven.{Gives, Tells};
ghost use Rattle.hse_fields.specs.BlockReading.{body_of, byte_of, header_of, numbers_of, plain_header_of, used_of};
ghost use Rattle.hse_fields.specs.BlockText.{block_header};

use crate::block::{BlockHeader, Damaged, HEADER_SIZE, Left};
use crate::split::{split_u8, split_u32};

/// One byte, which must be this one, and the bytes behind it are given.
#[tactic(auto, unfolding(crate::specs::BlockReading::byte_of))]
fn byte(bytes: &[u8], wanted: u8) -> Result<&[u8], Left>
    ensures gives { Gives (λ x. x.now) result (byte_of wanted bytes.now) }
    ensures inside { IfErr result (λ refusal. refusal.left ≤ length bytes.now) }
    ensures behind { IfOk result (λ rest. length rest.now ≤ length bytes.now) }
{
    let (byte, rest) = split_u8(bytes)?;
    if byte != wanted {
        return Err(Left {
            left: bytes.len() as u64,
        });
    }
    Ok(rest)
}

/// The kind, the zero bytes and the used bytes, of a block of so many bytes.
#[tactic(auto, unfolding(crate::specs::BlockReading::used_of))]
fn used(bytes: &[u8], kind: u8, most: u64) -> Result<(u32, &[u8]), Left>
    ensures gives { Gives (λ x. (x.0, x.1.now)) result (used_of kind most bytes.now) }
    ensures inside { IfErr result (λ refusal. refusal.left ≤ length bytes.now) }
    ensures behind { IfOk result (λ x. length x.1.now ≤ length bytes.now) }
    ensures within { IfOk result (λ x. (16 ≤ x.0) × (x.0 ≤ most)) }
{
    let first = byte(bytes, kind)?;
    let second = byte(first, 0)?;
    let third = byte(second, 0)?;
    let fourth = byte(third, 0)?;
    let (used, rest) = split_u32(fourth)?;
    if (used as u64) < HEADER_SIZE || used as u64 > most {
        return Err(Left {
            left: fourth.len() as u64,
        });
    }
    Ok((used, rest))
}

/// The numbers of a header.
#[tactic(auto, unfolding(crate::specs::BlockReading::numbers_of))]
fn numbers(bytes: &[u8], kind: u8) -> Result<BlockHeader, Left>
    ensures gives { Gives (λ x. x) result (numbers_of kind (length bytes.now) bytes.now) }
    ensures inside { IfErr result (λ refusal. refusal.left ≤ length bytes.now) }
    ensures within { IfOk result (λ x. (16 ≤ x.used) × (x.used ≤ length bytes.now)) }
{
    let (used, rest) = used(bytes, kind, bytes.len() as u64)?;
    let (count, rest) = split_u32(rest)?;
    let (pages, _) = split_u32(rest)?;
    Ok(BlockHeader { used, count, pages })
}

/// The header of a block of this kind, before its numbers are compared. `Damaged` has the place of
/// the first byte that is not the block's kind or not zero, or of used bytes that are fewer than the
/// header's or more than there are.
pub fn read_header(bytes: &[u8], kind: u8) -> Result<BlockHeader, Damaged>
    ensures told { Tells (λ x. x) result (header_of kind bytes.now) }
    ensures within { IfOk result (λ head. (16 ≤ head.used) × (head.used ≤ length bytes.now)) }
{
    match numbers(bytes, kind) {
        Ok(head) => Ok(head),
        Err(refusal) => Err(refusal.placed(bytes.len() as u64)),
    }
}

/// The header of a block without pages. `Damaged` also has the place of a number of entries that is
/// 0, or of pages that is not.
#[tactic(auto, unfolding(crate::specs::BlockReading::plain_header_of))]
pub fn read_plain_header(bytes: &[u8], kind: u8) -> Result<BlockHeader, Damaged>
    ensures told { Tells (λ x. x) result (plain_header_of kind bytes.now) }
    ensures within { IfOk result (λ head. (16 ≤ head.used) × (head.used ≤ length bytes.now)) }
{
    let head = read_header(bytes, kind)?;
    if head.count == 0 {
        return Err(Damaged(8));
    }
    if head.pages != 0 {
        return Err(Damaged(12));
    }
    Ok(head)
}

/// The used bytes of a block behind its header.
pub fn block_body(bytes: &[u8], used: u32) -> &[u8]
    requires header { 16 ≤ used }
    requires within { used ≤ length bytes.now }
    ensures { result.now ≡ body_of used bytes.now }
{
    let (front, _) = bytes.split_at(used as usize);
    let (_, body) = front.split_at(HEADER_SIZE as usize);
    body
}

/// Writes a header over the first bytes of a block.
pub fn write_header(bytes: &mut [u8], kind: u8, head: BlockHeader)
    requires { 16 ≤ length bytes.old }
    ensures { bytes.new ≡ block_header kind head.used head.count head.pages ++ drop 16 bytes.old }
{
    let used = head.used.to_be_bytes();
    let count = head.count.to_be_bytes();
    let pages = head.pages.to_be_bytes();
    let header = [
        kind, 0, 0, 0, used[0], used[1], used[2], used[3], count[0], count[1], count[2], count[3],
        pages[0], pages[1], pages[2], pages[3],
    ];
    let (front, _) = bytes.split_at_mut(HEADER_SIZE as usize);
    front.copy_from_slice(&header);
}
