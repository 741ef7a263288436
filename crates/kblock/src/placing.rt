//! Counts the keys below an edge, without memory.
ghost use Rattle.std.specs.Prelude.{◌≡◌, ◌*◌, ◌≤◌, drop, length, None, Ok};
ghost use Rattle.std.specs.Ordering.{nat_cmp, is_lt};
ghost use Rattle.std.specs.Cmp.Lexicographic.{slice_cmp};
ghost use Rattle.hse_fields.specs.BlockReading.{counts_of, keys_of, pages_of};
ghost use Rattle.hse_fields.specs.BlockText.{header_size, page_cost, page_size};
ghost use Rattle.kblock.specs.Opened.{entries_of, read_of};
ghost use Rattle.kblock.specs.Placing.{below_in, count_below};
ghost use Rattle.kblock.specs.Searching.{IsRead};

use crate::nth::number;
use crate::page::keys_in;
use crate::reading::read_key;
use crate::search::{page, pages_to};
use hse_fields::PAGE_SIZE;
use std::cmp::Ordering;

/// Whether a key stands below an edge.
fn is_below(key: &[u8], edge: &[u8]) -> bool
    ensures { result ≡ is_lt (slice_cmp nat_cmp key.now edge.now) }
{
    match key.cmp(edge) {
        Ordering::Less => true,
        Ordering::Equal => false,
        Ordering::Greater => false,
    }
}

/// How many of so many keys of a page stand below an edge.
fn place_in(keys: &[u8], count: u16, edge: &[u8]) -> u16
    requires { IsRead (keys_of None count keys.now) }
    ensures { result ≡ below_in edge.now (keys_of None count keys.now) }
{
    let mut below = 0;
    let mut rest = keys;
    for _ in 0..count {
        let Ok((entry, behind)) = read_key(None, rest) else {
            unreachable!();
        };
        if is_below(entry.key, edge) {
            below += 1;
        }
        rest = behind;
    }
    below
}

/// How many keys stand below an edge, in so many pages, which their numbers stand behind: those
/// before the last page that does not begin above it, and those in that page.
pub(crate) fn place_on(body: &[u8], count: u32, edge: &[u8]) -> u64
    requires room { page_cost * count ≤ length body.now }
    requires read { IsRead (pages_of header_size None count body.now) }
    requires numbered { counts_of 0 count body.now (drop (page_size * count) body.now) ≡ Ok tt }
    ensures { result ≡ count_below edge.now
        (entries_of (read_of (pages_of header_size None count body.now))) }
{
    let behind = pages_to(body, count, edge);
    if behind == 0 {
        return 0;
    }
    let page = page(body, behind - 1);
    let (_, keys) = page.split_at(2);
    let (_, numbers) = body.split_at((PAGE_SIZE * count as u64) as usize);
    number(numbers, behind - 1) as u64 + place_in(keys, keys_in(page), edge) as u64
}
