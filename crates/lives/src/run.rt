//! An engine and its marks.
ghost use Rattle.std.specs.Prelude.{◌<◌, vec_len, vec_capacity};

use hse_io::Mark;
use media_disk::Disk;
use turn_phases::TurnPhases;

/// An engine with the turn that is out of it, the marks so far, and how many lives of the run are over. A mark
/// says since when a number of a life is safe: whatever a crash since then leaves stores that life, or a
/// later one, from this number on. There is room for the mark of the closing.
pub struct Lives<D: Disk> {
    pub(crate) phases: TurnPhases<D>,
    pub(crate) marks: Vec<Mark>,
    pub(crate) life: u64,
    ghost spare: { vec_len marks < vec_capacity marks },
    ghost counted: { life < vec_len marks },
}
