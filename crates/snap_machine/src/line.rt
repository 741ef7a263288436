//! What a line asks for.

use crate::change::Change;
use crate::state::Mode;

/// Who asks: the outside, or the transaction of a name.
#[derive(Clone, Copy, Drop)]
pub(crate) enum Actor<'a> {
    At,
    Named(&'a [u8]),
}

/// What a turn is taken for.
#[derive(Clone, Copy, Drop)]
pub(crate) enum Take<'a> {
    Sync,
    Freeze,
    Create(&'a [u8], Mode, u64),
    Drop(&'a [u8]),
}

/// What a line asks for.
#[derive(Drop)]
pub(crate) enum Line<'a> {
    Silent,
    Stores,
    Begin(&'a [u8]),
    Write(Actor<'a>, &'a [u8], Change),
    Get(Actor<'a>, &'a [u8], Vec<u8>),
    Commit(&'a [u8]),
    Abort(&'a [u8]),
    Cursor(&'a [u8], Actor<'a>, &'a [u8], bool, Vec<u8>),
    Seek(&'a [u8], Vec<u8>),
    SeekRange(&'a [u8], Vec<u8>, Vec<u8>),
    Read(&'a [u8]),
    Update(&'a [u8]),
    CloseCursor(&'a [u8]),
    Take(Take<'a>),
    Whole(Take<'a>),
    WriteTurn,
    End,
    Next,
    Tree(&'a [u8]),
    Info,
    Reopen,
}
