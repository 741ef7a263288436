//! Looks for a key among pages and in a page, without memory.
ghost use Rattle.std.specs.Prelude.{◌≡◌, ◌+◌, ◌*◌, ◌≤◌, length, None};
ghost use Rattle.std.specs.Cmp.Lexicographic.{slice_cmp};
ghost use Rattle.std.specs.Ordering.{nat_cmp, is_eq};
ghost use Rattle.std.specs.List.{find};
ghost use Rattle.hse_fields.specs.BlockReading.{keys_of, pages_of};
ghost use Rattle.hse_fields.specs.BlockText.{header_size, page_cost};
ghost use Rattle.kblock.specs.Opened.{body_with, entries_of, has_key, read_of};
ghost use Rattle.kblock.specs.Entries.{found_of};
ghost use Rattle.kblock.specs.Searching.{begins_above, found_in, page_at, IsBehind, IsRead, IsUpTo};

use crate::entry::KeyEntry;
use crate::page::keys_in;
use crate::reading::read_key;
use hse_fields::{HEADER_SIZE, PAGE_SIZE};
use std::cmp::Ordering;

/// The page at this index.
pub(crate) fn page(pages: &[u8], at: u32) -> &[u8]
    requires { 4096 * (at + 1) ≤ length pages.now }
    ensures page { result.now ≡ page_at at pages.now }
    ensures long { length result.now ≡ 4096 }
{
    let (_, rest) = pages.split_at((PAGE_SIZE * at as u64) as usize);
    let (page, _) = rest.split_at(PAGE_SIZE as usize);
    page
}

/// Whether a page begins above this key.
pub(crate) fn begins_above(page: &[u8], key: &[u8]) -> bool
    requires { 2 ≤ length page.now }
    ensures { result ≡ begins_above key.now page.now }
{
    let (_, keys) = page.split_at(2);
    match read_key(None, keys) {
        Ok((entry, _)) => match entry.key.cmp(key) {
            Ordering::Greater => true,
            Ordering::Equal => false,
            Ordering::Less => false,
        },
        Err(_) => true,
    }
}

/// Whether two keys are the same.
fn is_same(key: &[u8], other: &[u8]) -> bool
    ensures { result ≡ is_eq (slice_cmp nat_cmp key.now other.now) }
{
    match key.cmp(other) {
        Ordering::Equal => true,
        Ordering::Greater => false,
        Ordering::Less => false,
    }
}

/// The entry of a key, among so many of a page. It reads each of them at most once.
pub(crate) fn find_in<'b>(keys: &'b [u8], count: u16, key: &[u8]) -> Option<KeyEntry<'b>>
    requires { IsRead (keys_of None count keys.now) }
    ensures { found_of result ≡ found_in key.now (keys_of None count keys.now) }
{
    let mut rest = keys;
    for _ in 0..count {
        let Ok((entry, behind)) = read_key(None, rest) else {
            return None;
        };
        if is_same(entry.key, key) {
            return Some(entry);
        }
        rest = behind;
    }
    None
}

/// How many of so many pages do not begin above a key, by a binary search.
pub(crate) fn pages_to(pages: &[u8], count: u32, key: &[u8]) -> u32
    requires { 4096 * count ≤ length pages.now }
    ensures within { result ≤ count }
    ensures below { IsUpTo key.now pages.now result }
    ensures above { IsBehind key.now pages.now count result }
{
    let mut low = 0;
    let mut high = count;
    while low < high {
        let middle = low + (high - low) / 2;
        if begins_above(page(pages, middle), key) {
            high = middle;
        } else {
            low = middle + 1;
        }
    }
    low
}

/// The bytes of so many pages and of the numbers behind them.
pub(crate) fn body(bytes: &[u8], pages: u32) -> &[u8]
    requires { header_size + page_cost * pages ≤ length bytes.now }
    ensures { result.now ≡ body_with pages bytes.now }
{
    let (used, _) = bytes.split_at((HEADER_SIZE + 4_100 * pages as u64) as usize);
    let (_, body) = used.split_at(HEADER_SIZE as usize);
    body
}

/// The entry of a key, in so many pages: the one that is the last not to begin above it has it, or
/// none.
pub(crate) fn find_on<'b>(pages: &'b [u8], count: u32, key: &[u8]) -> Option<KeyEntry<'b>>
    requires room { 4096 * count ≤ length pages.now }
    requires read { IsRead (pages_of header_size None count pages.now) }
    ensures { found_of result
        ≡ find (has_key key.now) (entries_of (read_of (pages_of header_size None count pages.now))) }
{
    let behind = pages_to(pages, count, key);
    if behind == 0 {
        return None;
    }
    let page = page(pages, behind - 1);
    let (_, keys) = page.split_at(2);
    find_in(keys, keys_in(page), key)
}
