//! Whether a change may stand behind the last one of its commit.
ghost use Rattle.std.specs.Prelude.{◌≡◌, []};
ghost use Rattle.hse_fields.specs.LogOrder.{rank, kind_may_follow, store_may_follow, may_follow};
ghost use Rattle.hse_fields.specs.LogReading.{change, name_may_follow};
ghost use Rattle.hse_rows.specs.writes.Change.{target};
ghost use Rattle.wal.specs.Given.{kind_as};
ghost use Rattle.wal.specs.Logged.{last_of};
ghost use Rattle.wal.specs.Kinds.{kind_of};

use crate::kind::Kind;
use hse_rows::{Change, Write};

fn kind_of_change(change: &Change) -> Kind
    ensures { kind_as result ≡ kind_of change.now }
{
    match change {
        Change::Put(_, _) => Kind::Put,
        Change::Del(_) => Kind::Del,
        Change::PDel(_) => Kind::PDel,
    }
}

/// A change's key, or its prefix.
fn name_of(change: &Change) -> &[u8]
    ensures { result.now ≡ target change.now }
{
    match change {
        Change::Put(key, _) => key.bytes(),
        Change::Del(key) => key.bytes(),
        Change::PDel(prefix) => prefix.bytes(),
    }
}

/// Prefix deletes come first.
fn rank_of(kind: Kind) -> u8
    ensures { result ≡ rank (kind_as kind) }
{
    match kind {
        Kind::Put | Kind::Del => 1,
        Kind::PDel => 0,
    }
}

fn rank_of_change(change: &Change) -> u8
    ensures { result ≡ rank (kind_of change.now) }
{
    rank_of(kind_of_change(change))
}

/// Whether a change of this kind may.
pub(crate) fn may_kind_follow(last: Option<&Write>, kind: Kind) -> bool
    ensures { result ≡ kind_may_follow (last_of last.entry) (kind_as kind) }
{
    match last {
        None => true,
        Some(last) => rank_of_change(&last.change) <= rank_of(kind),
    }
}

/// Whether a change of this kind may that is of this store.
pub(crate) fn may_store_follow(last: Option<&Write>, kind: Kind, store: u64) -> bool
    ensures { result ≡ store_may_follow (last_of last.entry) (kind_as kind) store }
{
    match last {
        None => true,
        Some(last) => { rank_of_change(&last.change) < rank_of(kind) || last.store.0 <= store }
    }
}

/// Whether a change may of this kind, this store and this name.
fn may_name_follow(last: Option<&Write>, kind: Kind, store: u64, name: &[u8]) -> bool
    ensures { result ≡ may_follow (last_of last.entry)
        (change (kind_as kind) store name.now []) }
{
    match last {
        None => true,
        Some(last) => rank_of_change(&last.change)
            .cmp(&rank_of(kind))
            .then(
                last.store
                    .0
                    .cmp(&store)
                    .then(name_of(&last.change).cmp(name)),
            )
            .is_lt(),
    }
}

/// Whether a change may whose name is so many of these bytes. A name that is cut off does not tell.
#[tactic(auto, unfolding(hse_fields::specs::LogReading::name_may_follow))]
pub(crate) fn may_front_follow(
    last: Option<&Write>,
    kind: Kind,
    store: u64,
    size: u64,
    bytes: &[u8],
) -> bool
    ensures { result ≡ name_may_follow (last_of last.entry) (kind_as kind) store size bytes.now }
{
    if (bytes.len() as u64) < size {
        return true;
    }
    may_name_follow(last, kind, store, bytes.split_at(size as usize).0)
}
