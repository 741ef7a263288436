//! What the lines of a script ask for.
ghost use Rattle.std.specs.Prelude.{◌≡◌};

use crate::listed::Item;
use hse_io::NoMemory;
use hse_rows::{Mode, StoreName};
use std::alloc::AllocError;
use thiserror::Error;

/// Who reads or writes.
#[derive(Drop)]
pub enum Actor {
    /// None of the transactions: the word `@`.
    At,
    /// The transaction of this name.
    Name(StoreName),
}

/// What a turn is taken for.
#[derive(Drop)]
pub enum TakeText {
    /// `sync`: to make all commits safe.
    Sync,
    /// `create`: to make a store of this mode and this length of prefixes.
    Create(StoreName, Mode, u64),
    /// `drop`: to drop a store.
    Drop(StoreName),
}

/// What a line asks for. A field stands for the word in the same place.
#[derive(Drop)]
pub enum Line {
    /// Nothing: the line is empty or begins with `#`, and has no reply.
    Silent,
    /// `create-store`: makes a store of this mode and this length of prefixes.
    CreateStore(StoreName, Mode, u64),
    /// `drop-store`: drops a store.
    DropStore(StoreName),
    /// `stores`: lists the stores.
    Stores,
    /// `begin`: begins a transaction.
    Begin(StoreName),
    /// `put`: sets a key of a store to a value.
    Put(Actor, StoreName, Item, Item),
    /// `del`: deletes a key of a store.
    Del(Actor, StoreName, Item),
    /// `pdel`: deletes all keys of a store that a prefix covers.
    Pdel(Actor, StoreName, Item),
    /// `get`: reads a key of a store.
    Get(Actor, StoreName, Item),
    /// `commit`: commits a transaction.
    Commit(StoreName),
    /// `abort`: aborts a transaction.
    Abort(StoreName),
    /// `cursor`: makes a cursor for who reads a store, in reverse where the flag is true, over the
    /// keys that begin with the filter.
    Cursor(StoreName, Actor, StoreName, bool, Item),
    /// `seek`: moves a cursor to a key.
    Seek(StoreName, Item),
    /// `seek-range`: moves a cursor to a first key and ends it at a last one.
    SeekRange(StoreName, Item, Item),
    /// `read`: reads a cursor's next pair.
    Read(StoreName),
    /// `update`: gives a cursor a new view.
    Update(StoreName),
    /// `close-cursor`: closes a cursor.
    CloseCursor(StoreName),
    /// `take`: takes the turn.
    Take(TakeText),
    /// `write`: makes the turn's device calls.
    Write,
    /// `end`: gives the turn back.
    End,
    /// `sync`: makes all commits safe.
    Sync,
    /// `info`: tells the engine's figures.
    Info,
    /// `reopen`: opens the device anew.
    Reopen,
}

/// Why a line was not read.
#[derive(Clone, Copy, Debug, PartialEq, Eq, Error)]
pub enum TextFault {
    /// The line is outside the grammar.
    #[error("the line is outside the grammar")]
    BadLine,
    /// Memory was refused.
    #[error("out of memory")]
    NoMemory,
}
