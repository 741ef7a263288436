//! Why bytes were not read.

use crate::block::Left;
use crate::short::Short;
use hse_io::NoMemory;
use std::alloc::{AllocError, AllocFailed};

/// Why bytes were not read.
#[derive(Clone, Copy, Debug, PartialEq, Eq)]
pub enum Refusal {
    /// So many bytes stand from the first refused field on, to the end of what is read.
    Left(u64),
    NoMemory,
}

impl From<Short> for Refusal {
    ghost use Rattle.std.specs.Prelude.{◌≡◌};
    ghost use Rattle.hse_fields.specs.declared.refusal.Refusal.TheVariants.{Left};

    ghost from_gives = { λ short refusal. refusal ≡ Left short.have };

    fn from(short: Short) -> Self {
        Refusal::Left(short.have)
    }
}

impl From<Left> for Refusal {
    ghost use Rattle.std.specs.Prelude.{◌≡◌};
    ghost use Rattle.hse_fields.specs.declared.refusal.Refusal.TheVariants.{Left as BytesLeft};

    ghost from_gives = { λ refused refusal. refusal ≡ BytesLeft refused.left };

    fn from(refused: Left) -> Self {
        Refusal::Left(refused.left)
    }
}

impl From<NoMemory> for Refusal {
    ghost use Rattle.std.specs.Prelude.{◌≡◌};
    ghost use Rattle.hse_fields.specs.declared.refusal.Refusal.TheVariants.{NoMemory as OutOfMemory};

    ghost from_gives = { λ _ refusal. refusal ≡ OutOfMemory };

    fn from(_: NoMemory) -> Self {
        Refusal::NoMemory
    }
}

impl From<AllocError> for Refusal {
    ghost use Rattle.std.specs.Prelude.{◌≡◌};
    ghost use Rattle.hse_fields.specs.declared.refusal.Refusal.TheVariants.{NoMemory as OutOfMemory};

    ghost from_gives = { λ _ refusal. refusal ≡ OutOfMemory };

    fn from(_: AllocError) -> Self {
        Refusal::NoMemory
    }
}

impl<T: Drop> From<AllocFailed<T>> for Refusal {
    ghost use Rattle.std.specs.Prelude.{◌≡◌};
    ghost use Rattle.hse_fields.specs.declared.refusal.Refusal.TheVariants.{NoMemory as OutOfMemory};

    ghost from_gives = { λ _ refusal. refusal ≡ OutOfMemory };

    fn from(_: AllocFailed<T>) -> Self {
        Refusal::NoMemory
    }
}
