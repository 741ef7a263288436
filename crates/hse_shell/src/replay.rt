//! What a log says: the commits of its batches, and what they leave in the store.
ghost use Rattle.std.specs.Prelude.{◌≡◌, ◌+◌, ◌<◌, ◌≤◌, ◌↔◌, ℕ, List, Some, OnOk, IfOk, IsErrOf, IsTrue, length};
ghost use Rattle.std.specs.FinMap as map;
ghost use Rattle.gate_log.specs.Places.{region_of};
ghost use Rattle.gate_log.specs.Reading.{IsFront, LiesInside, payloads_of};
ghost use Rattle.hse_rows.specs.writes.Change.{change_of};
ghost use Rattle.wal.specs.Logged.{logged_change, logged_all, entries_of};
ghost use Rattle.hse_shell.specs.Stored.{device_size, log_region, IsLogSequence, changed, changed_all, replayed};
ghost use Rattle.hse_shell.specs.Replayed.{IsOpening, IsInBounds};

use crate::entry::STORE;
use crate::log::DEVICE_SIZE;
use crate::open::OpenFault;
use crate::rows::Rows;
use gate_log::{Front, Tail};
use hse_io::{LONGEST_LINE, NoMemory};
use hse_rows::{ChangeRef, StoreId, WriteSet};
use std::alloc::Global;
use wal::{Commit, SegmentFault, StorePrefix, segment_in};

/// The number of the first commit.
const FIRST_NUMBER: u64 = 2;

/// The greatest sequence of a region.
const LAST_SEQUENCE: u64 = 1 << 62;

/// The place of a region's sequence.
const SEQUENCE_PLACE: u64 = 1;

/// The one store allows no prefix delete.
const LIVE_STORES: [StorePrefix; 1] = [StorePrefix {
    store: StoreId(STORE),
    length: 0,
}];

/// What a log says: the store's rows, the last number, what the commits take of the room, and where the log ends.
#[derive(Drop)]
pub(crate) struct Replayed {
    pub(crate) rows: Rows,
    pub(crate) number: u64,
    pub(crate) charges: u64,
    pub(crate) tail: Tail,
}

/// Does a change to the rows, where it is the store's.
fn apply(rows: &mut Rows, store: StoreId, change: ChangeRef<'_>) -> Result<(), NoMemory>
    ensures { OnOk result (rows.new ≡ changed rows.old (logged_change store.0 (change_of change.entry))) }
{
    if store.0 != STORE {
        return Ok(());
    }
    match change {
        ChangeRef::Put(key, value) => rows.put(key, value),
        ChangeRef::Del(key) => {
            rows.remove(key);
            Ok(())
        }
        // The log has none of the store's.
        ChangeRef::PDel(_) => Ok(()),
    }
}

/// Does a commit's changes to the rows, in order.
fn apply_all(rows: &mut Rows, writes: &WriteSet) -> Result<(), NoMemory>
    ensures { OnOk result (rows.new ≡ changed_all rows.old (logged_all writes.now)) }
{
    for place in 0..writes.len() {
        let (store, change) = writes.at(place);
        apply(rows, store, change)?;
    }
    Ok(())
}

/// The rows that these commits leave, in order.
fn rows_of(alloc: Global, commits: &[Commit]) -> Result<Rows, NoMemory>
    ensures { IfOk result (λ rows. rows ≡ replayed map.empty (entries_of commits.now)) }
{
    let mut rows = Rows::new(alloc);
    for commit in commits {
        apply_all(&mut rows, &commit.writes)?;
    }
    Ok(rows)
}

/// Whether the log's region has this sequence: it has the first of every four.
fn is_log_sequence(sequence: u64) -> bool
    ensures { IsTrue result ↔ IsLogSequence sequence }
{
    sequence % 4 == 1 && sequence <= LAST_SEQUENCE
}

/// What the log says of which this is the front. `NotFormed` has the place of the first field that is refused.
pub(crate) fn replay(alloc: Global, front: Front) -> Result<Replayed, OpenFault>
    requires { LiesInside device_size (payloads_of front.batches.items) front.end }
    ensures opening { (image : List ℕ) → length image ≡ device_size
        → IsFront (region_of log_region image) (Some front) → IsOpening image result }
    ensures device { IsErrOf result OpenFault.Device → ⊥ }
    ensures bounds { IfOk result IsInBounds }
{
    if !is_log_sequence(front.sequence) {
        return Err(OpenFault::NotFormed(SEQUENCE_PLACE));
    }
    let segment = match segment_in(
        alloc,
        DEVICE_SIZE,
        LONGEST_LINE as u64,
        FIRST_NUMBER,
        &[],
        &LIVE_STORES,
        front,
    ) {
        Ok(segment) => segment,
        Err(SegmentFault::Damaged(place)) => return Err(OpenFault::NotFormed(place)),
        Err(SegmentFault::NoMemory) => return Err(OpenFault::NoMemory),
    };
    let Ok(rows) = rows_of(alloc, &segment.commits) else {
        return Err(OpenFault::NoMemory);
    };
    Ok(Replayed {
        rows,
        number: segment.next - 1,
        charges: segment.charges,
        tail: segment.tail,
    })
}
