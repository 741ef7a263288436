//! Finds the entry at an index among pages, without memory.
ghost use Rattle.std.specs.Prelude.{◌≡◌, ◌+◌, ◌*◌, ◌<◌, ◌≤◌, drop, length, slice_get, None, Ok, Some};
ghost use Rattle.std.specs.List.{sum_by};
ghost use Rattle.hse_fields.specs.BlockReading.{count_in, counts_of, key_of, pages_of};
ghost use Rattle.hse_fields.specs.BlockText.{header_size, page_cost, page_size};
ghost use Rattle.kblock.specs.Entries.{entry_of};
ghost use Rattle.kblock.specs.Opened.{entries_of, read_of};
ghost use Rattle.kblock.specs.Searching.{nth_of, number_at, page_keys, IsBefore, IsFrom, IsRead};

use crate::entry::KeyEntry;
use crate::reading::read_key;
use crate::search::page;
use byteorder::{BigEndian, ByteOrder};
use hse_fields::PAGE_SIZE;

/// The number of keys before the page at this index.
pub(crate) fn number(numbers: &[u8], at: u32) -> u32
    requires { 4 * (at + 1) ≤ length numbers.now }
    ensures { result ≡ number_at at numbers.now }
{
    let (_, rest) = numbers.split_at((4 * at as u64) as usize);
    let (number, _) = rest.split_at(4);
    BigEndian::read_u32(number)
}

/// Before how many of so many pages no more keys than so many stand, by a binary search.
fn pages_from(numbers: &[u8], count: u32, at: u64) -> u32
    requires { 4 * count ≤ length numbers.now }
    ensures within { result ≤ count }
    ensures below { IsFrom at numbers.now result }
    ensures above { IsBefore at numbers.now count result }
{
    let mut low = 0;
    let mut high = count;
    while low < high {
        let middle = low + (high - low) / 2;
        if number(numbers, middle) as u64 > at {
            high = middle;
        } else {
            low = middle + 1;
        }
    }
    low
}

/// A key that can be read, and the bytes behind it.
fn first_key(bytes: &[u8]) -> (KeyEntry<'_>, &[u8])
    requires { IsRead (key_of None bytes.now) }
    ensures { key_of None bytes.now ≡ Ok (entry_of result.0, result.1.now) }
{
    match read_key(None, bytes) {
        Ok(read) => read,
        Err(_) => unreachable!(),
    }
}

/// The entry at this index in a page. It reads each entry up to it once.
fn nth_in(page: &[u8], at: u64) -> KeyEntry<'_>
    requires long { 2 ≤ length page.now }
    requires read { IsRead (page_keys page.now) }
    requires within { at < count_in page.now }
    ensures { nth_of at (page_keys page.now) ≡ Some (entry_of result) }
{
    let (_, keys) = page.split_at(2);
    let mut rest = keys;
    for _ in 0..at {
        let (_, behind) = first_key(rest);
        rest = behind;
    }
    let (entry, _) = first_key(rest);
    entry
}

/// The entry at this index, counted over so many pages, which their numbers stand behind.
pub(crate) fn nth_on(body: &[u8], count: u32, at: u64) -> KeyEntry<'_>
    requires room { page_cost * count ≤ length body.now }
    requires read { IsRead (pages_of header_size None count body.now) }
    requires numbered { counts_of 0 count body.now (drop (page_size * count) body.now) ≡ Ok tt }
    requires within { at < sum_by length (read_of (pages_of header_size None count body.now)) }
    ensures { slice_get (entries_of (read_of (pages_of header_size None count body.now))) at
        ≡ Some (entry_of result) }
{
    let (_, numbers) = body.split_at((PAGE_SIZE * count as u64) as usize);
    let index = pages_from(numbers, count, at) - 1;
    nth_in(page(body, index), at - number(numbers, index) as u64)
}
