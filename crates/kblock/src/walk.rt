//! The entries of a block, one after the other.
ghost use Rattle.std.specs.Prelude.{◌≡◌, ◌+◌, ◌*◌, ◌<◌, ◌≤◌, ◌^◌, ◌∷◌, [], length, IfSome, MatchOption, None};
ghost use Rattle.hse_fields.specs.BlockReading.{pages_of};
ghost use Rattle.hse_fields.specs.BlockText.{header_size, page_size};
ghost use Rattle.kblock.specs.Entries.{entry_of};
ghost use Rattle.kblock.specs.Opened.{read_of};
ghost use Rattle.kblock.specs.Searching.{IsRead};
ghost use Rattle.kblock.specs.Walking.{behind_spot, placed_pages, IsSpot};

use crate::entry::KeyEntry;
use crate::page::keys_in;
use crate::reading::read_key;
use hse_fields::{HEADER_SIZE, PAGE_SIZE};
use std::marker::Model;

/// Where a walk stands: before the keys that are left of a page, and the pages behind it.
#[derive(Clone, Copy)]
struct Spot<'b> {
    /// The place of the next key in the block.
    at: u64,
    keys: &'b [u8],
    left: u16,
    pages: &'b [u8],
    count: u32,
}

/// A walk over the entries of a block, which stands for those that are left, with their places.
#[derive(Drop)]
pub struct KeyWalk<'b> {
    spot: Spot<'b>,
}

impl<'b> Model for KeyWalk<'b> {
    ghost use Rattle.std.specs.Prelude.{ℕ, List};
    ghost use Rattle.hse_fields.specs.BlockText.{KeyEntry};
    ghost use Rattle.kblock.specs.Walking.{behind_spot, IsSpot};

    ghost Value = { List (ℕ × KeyEntry) };

    ghost view = { λ walk. behind_spot walk.spot };

    ghost invariant = { λ walk. IsSpot walk.spot };
}

impl<'b> KeyWalk<'b> {
    /// The next entry, and its place in the block; `None` where none is left. It takes no memory.
    pub fn next(&mut self) -> Option<(u64, KeyEntry<'b>)>
        ensures next { MatchOption result (self.old ≡ [])
            (λ x. self.old ≡ (x.0, entry_of x.1) ∷ self.new) }
        ensures within { IfSome result (λ x. x.0 + 11 + length x.1.key.now < 2 ^ 48) }
    {
        let spot = turned(self.spot);
        if spot.left == 0 {
            return None;
        }
        let (place, entry, behind) = stepped(spot);
        self.spot = behind;
        Some((place, entry))
    }
}

/// A walk over so many pages of a block.
pub(crate) fn walk_on(body: &[u8], count: u32) -> KeyWalk<'_>
    requires room { 4096 * count ≤ length body.now }
    requires read { IsRead (pages_of header_size None count body.now) }
    ensures { result ≡ placed_pages header_size (read_of (pages_of header_size None count body.now)) }
{
    KeyWalk {
        spot: Spot {
            at: HEADER_SIZE,
            keys: &[],
            left: 0,
            pages: body,
            count,
        },
    }
}

/// The same spot, at the beginning of the next page where none is left of its page.
fn turned(spot: Spot<'_>) -> Spot<'_>
    requires { IsSpot spot }
    ensures same { behind_spot result ≡ behind_spot spot.entry }
    ensures is { IsSpot result }
    ensures ended { result.left ≡ 0 → behind_spot spot.entry ≡ [] }
{
    if spot.left > 0 || spot.count == 0 {
        return spot;
    }
    let (page, pages) = spot.pages.split_at(PAGE_SIZE as usize);
    let (_, keys) = page.split_at(2);
    Spot {
        at: spot.at + spot.keys.len() as u64 + 2,
        keys,
        left: keys_in(page),
        pages,
        count: spot.count - 1,
    }
}

/// The next entry of a page, its place, and the spot behind it.
fn stepped(spot: Spot<'_>) -> (u64, KeyEntry<'_>, Spot<'_>)
    requires some { 1 ≤ spot.left }
    requires is { IsSpot spot }
    ensures first { behind_spot spot.entry
        ≡ (result.0, entry_of result.1) ∷ behind_spot result.2 }
    ensures is { IsSpot result.2 }
    ensures within { result.0 + 11 + length result.1.key.now < 2 ^ 48 }
{
    let Ok((entry, keys)) = read_key(None, spot.keys) else {
        unreachable!();
    };
    let behind = Spot {
        at: spot.at + (spot.keys.len() - keys.len()) as u64,
        keys,
        left: spot.left - 1,
        pages: spot.pages,
        count: spot.count,
    };
    (spot.at, entry, behind)
}
