//! Where the device side is.

use back::Back;
use media_disk::Disk;

/// What a turn is for.
#[derive(Clone, Copy, Debug, PartialEq, Eq)]
pub enum TurnKind {
    Sync,
    Freeze,
    Install,
    Create,
    Drop,
}

/// Where the device side is: here, or out with the turn of this kind and number.
pub(crate) enum Side<D: Disk> {
    In(Back<D>),
    Out(TurnKind, u64),
}
