//! Opens a block of keys.
ghost use Rattle.std.specs.Prelude.{◌≡◌, ◌+◌, ◌*◌, ◌≤◌, length, Ok, Err, None, IfErr, IfOk};
ghost use Rattle.hse_fields.specs.BlockGiven.{lent, Gives, Tells};
ghost use Rattle.hse_fields.specs.BlockReading.{count_all, counts_of, key_block_of, key_header_of, pages_of};
ghost use Rattle.hse_fields.specs.BlockText.{header_size, page_cost};
ghost use Rattle.kblock.specs.Form.{AreKeyPages};
ghost use Rattle.kblock.specs.Opened.{body_with, pages_in, IsOpened};
ghost use Rattle.kblock.specs.Reading.{number_is, passes};

use crate::KeyBlock;
use crate::page::{keys_in, page_end};
use hse_fields::{
    BlockHeader, Damaged, HEADER_SIZE, KEY_KIND, Left, PAGE_SIZE, block_body, read_header,
    split_u32,
};

/// Opens a block of keys by its bytes, those of a slot. It takes no memory, and lets the keys stay
/// where they are. `Damaged` has the place of the first field that the grammar refuses: of the
/// header, where used bytes that the pages do not make stand at 4 and a number of keys that the
/// pages do not have at 8; then of the first page that is refused, where a key that does not ascend
/// stands at its first byte; then of the numbers behind the pages. What stands behind the used bytes
/// is not read.
pub fn open_key_block(bytes: Vec<u8>) -> Result<KeyBlock, Damaged>
    ensures { Tells (λ block. block) result (key_block_of None bytes.items) }
{
    open_key_block_behind(None, bytes)
}

/// The same of a block whose first key stands above a last one, as those of a set do from block to
/// block. Where it does not, its place is 18, that of the first key.
pub fn open_key_block_behind(last: Option<&[u8]>, bytes: Vec<u8>) -> Result<KeyBlock, Damaged>
    ensures told { Tells (λ block. block) result (key_block_of (lent last.entry) bytes.items) }
    ensures known { IfOk result (λ block. AreKeyPages (lent last.entry) block) }
{
    match test_block(last, &bytes) {
        Ok(head) => Ok(KeyBlock {
            bytes,
            pages: head.pages,
            count: head.count,
        }),
        Err(damage) => Err(damage),
    }
}

/// Tests a block whose keys stand behind the last one, and gives its header.
fn test_block(last: Option<&[u8]>, bytes: &[u8]) -> Result<BlockHeader, Damaged>
    ensures formed { IfOk result (λ head. IsOpened head.pages head.count bytes.now) }
    ensures read { IfOk result (λ head.
        key_block_of (lent last.entry) bytes.now ≡ Ok (pages_in head.pages bytes.now)) }
    ensures known { IfOk result (λ head.
        AreKeyPages (lent last.entry) (pages_in head.pages bytes.now)) }
    ensures refused { IfErr result (λ damage.
        key_block_of (lent last.entry) bytes.now ≡ Err damage.0) }
{
    let head = match key_header(bytes) {
        Ok(head) => head,
        Err(damage) => return Err(damage),
    };
    let body = block_body(bytes, head.used);
    match test_pages(last, body, head.pages) {
        Ok(()) => test_end(last, bytes, body, head),
        Err(damage) => Err(damage),
    }
}

/// Tests the numbers behind the pages, which are read, of a block with this header.
fn test_end(
    last: Option<&[u8]>,
    bytes: &[u8],
    body: &[u8],
    head: BlockHeader,
) -> Result<BlockHeader, Damaged>
    requires header { key_header_of bytes.now ≡ Ok head }
    requires within { head.used ≤ length bytes.now }
    requires pages { head.used ≡ header_size + page_cost * head.pages }
    requires body { body.now ≡ body_with head.pages bytes.now }
    requires read { passes (pages_of header_size (lent last) head.pages body.now) ≡ Ok tt }
    ensures formed { IfOk result (λ head. IsOpened head.pages head.count bytes.now) }
    ensures read { IfOk result (λ head.
        key_block_of (lent last.entry) bytes.now ≡ Ok (pages_in head.pages bytes.now)) }
    ensures refused { IfErr result (λ damage.
        key_block_of (lent last.entry) bytes.now ≡ Err damage.0) }
{
    let (_, numbers) = body.split_at((PAGE_SIZE * head.pages as u64) as usize);
    match test_numbers(body, numbers, head.pages) {
        Ok(()) => Ok(head),
        Err(refusal) => Err(refusal.placed(head.used as u64)),
    }
}

/// How many keys so many pages say that they have.
fn count_all(pages: &[u8], count: u32) -> u64
    requires { 4096 * count ≤ length pages.now }
    ensures { result ≡ count_all count pages.now }
{
    let mut all = 0;
    let mut rest = pages;
    for _ in 0..count {
        let (page, behind) = rest.split_at(PAGE_SIZE as usize);
        all += keys_in(page) as u64;
        rest = behind;
    }
    all
}

/// The header of a block of keys, whose numbers agree with its pages.
#[tactic(auto, unfolding(hse_fields::specs::BlockReading::key_header_of))]
fn key_header(bytes: &[u8]) -> Result<BlockHeader, Damaged>
    ensures told { Tells (λ head. head) result (key_header_of bytes.now) }
    ensures pages { IfOk result (λ head. head.used ≡ header_size + page_cost * head.pages) }
    ensures within { IfOk result (λ head. head.used ≤ length bytes.now) }
{
    let head = read_header(bytes, KEY_KIND)?;
    if head.used as u64 != HEADER_SIZE + 4_100 * head.pages as u64 {
        return Err(Damaged(4));
    }
    if head.count == 0 {
        return Err(Damaged(8));
    }
    let (_, pages) = bytes.split_at(HEADER_SIZE as usize);
    if head.count as u64 != count_all(pages, head.pages) {
        return Err(Damaged(8));
    }
    Ok(head)
}

/// Tests the keys of so many pages, which stand behind the last key.
fn test_pages(last: Option<&[u8]>, pages: &[u8], count: u32) -> Result<(), Damaged>
    requires { 4096 * count ≤ length pages.now }
    ensures { Tells (λ x. tt) result
        (passes (pages_of header_size (lent last.entry) count pages.now)) }
{
    let mut start = HEADER_SIZE;
    let mut above = last;
    let mut rest = pages;
    for _ in 0..count {
        let (page, behind) = rest.split_at(PAGE_SIZE as usize);
        match page_end(above, page) {
            Ok(end) => {
                above = end;
                rest = behind;
                start += PAGE_SIZE;
            }
            Err(refusal) => return Err(refusal.placed(start + PAGE_SIZE)),
        }
    }
    Ok(())
}

/// Tests the number of keys before a page, and gives the bytes behind it.
#[tactic(auto, unfolding(crate::specs::Reading::number_is))]
fn number(bytes: &[u8], before: u64) -> Result<&[u8], Left>
    ensures gives { Gives (λ x. x.now) result (number_is before bytes.now) }
    ensures inside { IfErr result (λ refusal. refusal.left ≤ length bytes.now) }
    ensures behind { IfOk result (λ rest. length rest.now ≤ length bytes.now) }
{
    let (number, rest) = split_u32(bytes)?;
    if number as u64 != before {
        return Err(Left {
            left: bytes.len() as u64,
        });
    }
    Ok(rest)
}

/// Tests the numbers behind so many pages.
fn test_numbers(pages: &[u8], numbers: &[u8], count: u32) -> Result<(), Left>
    requires { 4096 * count ≤ length pages.now }
    ensures gives { Gives (λ x. tt) result (counts_of 0 count pages.now numbers.now) }
    ensures inside { IfErr result (λ refusal. refusal.left ≤ length numbers.now) }
{
    let mut before = 0;
    let mut rest = pages;
    let mut left = numbers;
    for _ in 0..count {
        let (page, behind) = rest.split_at(PAGE_SIZE as usize);
        match number(left, before) {
            Ok(others) => left = others,
            Err(refusal) => return Err(refusal),
        }
        before += keys_in(page) as u64;
        rest = behind;
    }
    Ok(())
}
