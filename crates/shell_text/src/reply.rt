//! What the replies to lines say.
use crate::listed::{Item, Listed};
use hse_rows::{Mode, StoreName};

/// A store, as `stores` lists it.
#[derive(Drop)]
pub struct StoreText {
    /// The store's name.
    pub name: StoreName,
    /// Who may write it.
    pub mode: Mode,
    /// The length of its prefixes in bytes, 0 where it has none.
    pub prefix: u8,
}

/// Stores, as `stores` lists them.
pub type StoreTexts = Listed<StoreText>;

/// A part of a device.
#[derive(Clone, Copy, Debug, PartialEq, Eq)]
pub enum RegionText {
    /// The superblock.
    Super,
    /// A half of the manifest, by its number.
    Manifest(u8),
    /// A segment of the log, by its number.
    Log(u8),
    /// A slot for blocks, by its number.
    Slot(u32),
}

/// What a turn is for.
#[derive(Clone, Copy, Debug, PartialEq, Eq)]
pub enum TurnText {
    /// To make all commits safe.
    Sync,
    /// To freeze the active layer.
    Freeze,
    /// To install what a job built.
    Install,
    /// To make a store.
    Create,
    /// To drop a store.
    Drop,
}

/// How far the turn is.
#[derive(Clone, Copy, Debug, PartialEq, Eq)]
pub enum PhaseText {
    /// Nobody has taken it.
    In,
    /// It was taken, and its device calls are to be made.
    Taken,
    /// Its device calls were made.
    Run,
}

/// How a transaction ended.
#[derive(Clone, Copy, Debug, PartialEq, Eq)]
pub enum DoneText {
    /// By its commit.
    Committed,
    /// It was aborted.
    Aborted,
}

/// The reply to a line.
#[derive(Drop)]
pub enum Reply {
    /// Done.
    Ok,
    /// Done, under this number.
    Number(u64),
    /// The value of a key.
    Value(Item),
    /// The key has no value.
    Absent,
    /// The key that a cursor stands at.
    At(Item),
    /// A cursor is at its end.
    Eof,
    /// A key and its value.
    Pair(Item, Item),
    /// The stores, in the order of their names.
    Stores(StoreTexts),
    /// The last number, the frozen layers, the active layer's charge in bytes, the free slots and
    /// the manifest's sequence.
    Info(u64, u64, u64, u64, u64),
    /// The device calls of the turn are made.
    Written,
    /// The line was refused.
    Refused(Refused),
}

/// Why a line was refused.
#[derive(Drop)]
pub enum Refused {
    /// The line is outside the grammar.
    Line,
    /// Memory was refused.
    Memory,
    /// A live store has the name.
    StoreExists,
    /// No store has the name.
    NoStore,
    /// The store's mode forbids it.
    StoreMode,
    /// A key of so many bytes.
    KeyLength(u64),
    /// A value of so many bytes.
    ValueLength(u64),
    /// A prefix length of so many bytes.
    PrefixLength(u64),
    /// The device failed since the last opening.
    Broken,
    /// So many are there already, which is the limit.
    TooMany(u64),
    /// The numbers are used up.
    Spent,
    /// A turn for this is out.
    Busy(TurnText),
    /// The turn is so far, and the phase does not follow.
    Turn(PhaseText),
    /// The manifest needs so many bytes and has room for so many.
    ManifestFull(u64, u64),
    /// The live transaction of this name has a change in the store.
    StoreHeld(StoreName),
    /// The name is live.
    NameUsed,
    /// Nothing has the name.
    NoName,
    /// The transaction ended so.
    Done(DoneText),
    /// The transaction needs so many bytes and may have so many.
    TxnSize(u64, u64),
    /// The log needs so many bytes and has room for so many.
    LogFull(u64, u64),
    /// The write is canceled: the live transaction of this name has an overlapping change.
    Held(StoreName),
    /// The write is canceled: the commit of this number, after the snapshot, overlaps.
    Since(u64),
    /// The cursor is a reverse one.
    ForwardOnly,
    /// A region of the device is out of form at this byte of it.
    NotFormed(RegionText, u64),
    /// The device has this version of the format.
    Version(u32),
    /// The device failed.
    Device,
}
