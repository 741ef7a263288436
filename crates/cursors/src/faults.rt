//! Why a call of a cursor was refused.
use hse_io::NoMemory;
use thiserror::Error;

/// Why no cursor was made, or none was given another view.
#[derive(Clone, Copy, Debug, PartialEq, Eq, Error)]
pub enum CursorFault {
    /// The view has no such store.
    #[error("no such store")]
    NoStore,
    #[error("out of memory")]
    NoMemory,
}

/// A reverse cursor has no ranges.
#[derive(Clone, Copy, Debug, PartialEq, Eq, Error)]
#[error("the cursor is a reverse one")]
pub struct ForwardOnly;

impl From<NoMemory> for CursorFault {
    ghost use Rattle.std.specs.Prelude.{◌≡◌};
    ghost use Rattle.cursors.specs.declared.faults.CursorFault.TheVariants.{NoMemory as OutOfMemory};

    ghost from_gives = { λ _ fault. fault ≡ OutOfMemory };

    fn from(_: NoMemory) -> Self {
        CursorFault::NoMemory
    }
}
