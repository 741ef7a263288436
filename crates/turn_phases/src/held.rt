//! The turn that is held.

use kvdb::{Ran, Turn};
use media_disk::Disk;

/// The turn that is out of an engine, by its phase: none, one that was taken, or one that has run.
pub(crate) enum Held<D: Disk> {
    Nothing,
    Taken(Turn<D>),
    Run(Ran<D>),
}
