//! The words of the blocks that a set of rows is kept in.

ghost use Rattle.std.specs.Prelude.{◌≡◌, ◌≤◌, ◌-◌};
ghost use Rattle.hse_fields.specs.BlockGiven.{damaged};

use crate::Short;
use thiserror::Error;

/// How many bytes a block's header has.
pub const HEADER_SIZE: u64 = 16;

/// How many bytes a page of keys has.
pub const PAGE_SIZE: u64 = 4_096;

/// The first byte of a block of values.
pub const VALUE_KIND: u8 = 0x56;

/// The first byte of a block of prefix deletes.
pub const PREFIX_KIND: u8 = 0x50;

/// The first byte of a block of keys.
pub const KEY_KIND: u8 = 0x4B;

/// The numbers in a block's header.
#[derive(Clone, Copy, Debug, PartialEq, Eq)]
pub struct BlockHeader {
    /// How many bytes are used, the header's among them.
    pub used: u32,
    /// How many entries there are.
    pub count: u32,
    /// How many pages there are: 0 but in a block of keys.
    pub pages: u32,
}

/// Where a key's value stands.
#[derive(Clone, Copy, Debug, PartialEq, Eq)]
pub struct ValuePlace {
    /// Which block of values, counted in the set from 0.
    pub block: u32,
    /// Where the value's entry begins in that block, in bytes.
    pub offset: u32,
    /// How many bytes the value has.
    pub len: u32,
}

/// The entry does not fit into what is left of the block.
#[derive(Clone, Copy, Debug, PartialEq, Eq, Error)]
#[error("{room} bytes are left where {need} are needed")]
pub struct BlockFull {
    /// What the entry needs, in bytes.
    pub need: u64,
    /// What is left of the block.
    pub room: u64,
}

/// A block that is not of its grammar, with the place of the first field that is refused.
#[derive(Clone, Copy, Debug, PartialEq, Eq, Error)]
#[error("the block is damaged at {0}")]
pub struct Damaged(pub u64);

/// How many bytes stand from the first refused field on.
#[derive(Clone, Copy, Debug, PartialEq, Eq)]
pub struct Left {
    pub left: u64,
}

impl From<Short> for Left {
    ghost use Rattle.std.specs.Prelude.{◌≡◌};

    ghost from_gives = { λ short left. left.left ≡ short.have };

    fn from(short: Short) -> Self {
        Left { left: short.have }
    }
}

impl Left {
    /// Its place, by where the bytes end.
    pub fn placed(self, end: u64) -> Damaged
        requires { self.left ≤ end }
        ensures { result ≡ damaged (end - self.left) }
    {
        Damaged(end - self.left)
    }
}
