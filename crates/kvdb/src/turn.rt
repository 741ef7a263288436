//! A turn, with what it is to write.
ghost use Rattle.std.specs.Prelude.{◌≤◌};
ghost use Rattle.wal.specs.Writing.{room_in};
ghost use Rattle.kvdb.specs.Room.{bytes_of, count_of, need_of, HasRoomForAny, HasRoomForAny-prop};

use crate::side::TurnKind;
use back::{Back, EntryPlan};
use gate_log::Batch;
use hse_rows::{Mode, StoreName};
use media_disk::Disk;
use thiserror::Error;

/// What a turn is asked for.
#[derive(Drop)]
pub enum TurnWish {
    /// All commits up to the present last number, made safe.
    Sync,
    /// A new store of this name, mode and prefix length.
    Create(StoreName, Mode, u8),
    /// No store of this name any more.
    Drop(StoreName),
}

/// Why no turn was taken. The first that is so is the one that is answered, but that out of memory
/// may come in place of any.
#[derive(Clone, Copy, Debug, PartialEq, Eq, Error)]
pub enum TurnFault {
    /// A live store has the name.
    #[error("a store has this name")]
    StoreExists,
    /// No live store has the name.
    #[error("no store has this name")]
    NoStore,
    /// The prefix length is this one, above 32.
    #[error("a prefix length of {0}")]
    PrefixLength(u64),
    /// A device call failed since the last opening.
    #[error("the engine is broken")]
    Broken,
    /// The live transaction of this begin order, the first of these, has a write in the store.
    #[error("held by transaction {0}")]
    StoreHeld(u64),
    /// So many stores are live as may be.
    #[error("{0} stores are live")]
    TooMany(u64),
    /// No number is left for an event.
    #[error("no number is left")]
    Spent,
    /// A turn of this kind is out.
    #[error("a turn is out")]
    Busy(TurnKind),
    /// The whole state after the entry needs so many bytes, and a half has room for so many.
    #[error("the manifest needs {0} bytes and a half has room for {1}")]
    ManifestFull(u64, u64),
    #[error("out of memory")]
    NoMemory,
}

/// A turn that was taken: the device side, with the commits that it is to write, and behind them the entry of a
/// creation or a drop as it is planned. It is spent by `run`, or by `stop`.
pub struct Turn<D: Disk> {
    pub(crate) back: Back<D>,
    pub(crate) kind: TurnKind,
    pub(crate) number: u64,
    pub(crate) batch: Option<Batch>,
    pub(crate) plan: Option<EntryPlan>,
    ghost long: { 4 ≤ bytes_of batch },
    ghost counted: { 1 ≤ count_of batch },
    ghost fits: { need_of batch ≤ room_in back.log },
    ghost planned: { HasRoomForAny back.manifest plan } by { HasRoomForAny-prop back.manifest plan },
}

/// A turn that has run. It is spent by `Kvdb::end_turn`, or by `stop`.
pub struct Ran<D: Disk> {
    pub(crate) back: Back<D>,
    pub(crate) kind: TurnKind,
    pub(crate) number: u64,
    pub(crate) has_failed: bool,
}

/// The engine is broken until it is opened anew.
#[derive(Clone, Copy, Debug, PartialEq, Eq, Error)]
#[error("the engine is broken")]
pub struct Broken;
