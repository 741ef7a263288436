//! The live stores, listed by name.
ghost use Rattle.std.specs.Prelude.{◌≡◌, ◌≤◌, ◌++◌, ◌∷◌, [], map, take, drop, length, IfOk, OnOk};
ghost use Rattle.hse_rows.specs.machine.Calls.{list_stores};
ghost use Rattle.hse_rows.specs.machine.Core.{Core};
ghost use Rattle.hse_rows.specs.machine.CoreReply.{reply};
ghost use Rattle.hse_rows.specs.machine.Replies as answer;
ghost use Rattle.hse_rows.specs.writes.Sorted.{placed};
ghost use Rattle.kvdb.specs.Listing.{line_as, line_cmp};
ghost use Rattle.kvdb.specs.Serves.{Serves};

use crate::engine::Kvdb;
use hse_io::NoMemory;
use hse_rows::{Mode, StoreName};
use media_disk::Disk;
use std::alloc::Global;

/// A live store: its name, its mode, and the length of its prefixes.
#[derive(Drop)]
pub struct StoreLine {
    pub name: StoreName,
    pub mode: Mode,
    pub prefix: u8,
}

/// How many lines stand before a line: it goes before the first whose name is above its own.
fn place(lines: &[StoreLine], line: &StoreLine) -> usize
    ensures within { result ≤ length lines.now }
    ensures place { take result lines.now ++ line.now ∷ drop result lines.now
        ≡ placed line_cmp lines.now line.now }
{
    let mut at = 0;
    let mut rest = lines;
    while let [first, more @ ..] = rest {
        if line.name.cmp(&first.name).is_lt() {
            return at;
        }
        at += 1;
        rest = more;
    }
    at
}

/// Puts a line to its place.
fn put(lines: &mut Vec<StoreLine>, line: StoreLine) -> Result<(), NoMemory>
    ensures { OnOk result (lines.new.items ≡ placed line_cmp lines.old.items line) }
{
    let at = place(lines, &line);
    lines.insert(at, line)?;
    Ok(())
}

impl<D: Disk> Kvdb<D> {
    /// The live stores in the order of their names.
    pub fn stores(&self, alloc: Global) -> Result<Vec<StoreLine>, NoMemory>
        ensures { (m : Core) → Serves D.Device self.now m
            → IfOk result (λ lines. reply m list_stores ≡ answer.listed (map line_as lines.items)) }
    {
        let mut lines = Vec::new(alloc);
        let mut rest = self.state.view().stores();
        while let [store, more @ ..] = rest {
            put(
                &mut lines,
                StoreLine {
                    name: store.name.share(alloc)?,
                    mode: store.mode,
                    prefix: store.prefix,
                },
            )?;
            rest = more;
        }
        Ok(lines)
    }
}
