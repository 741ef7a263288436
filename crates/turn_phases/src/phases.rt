//! An engine and the turn that is out of it.
ghost use Rattle.std.specs.Prelude.{◌≡◌};
ghost use Rattle.kvdb.specs.Sides.{out_of};
ghost use Rattle.turn_phases.specs.HeldTurns.{turn_of};

use crate::held::Held;
use kvdb::Kvdb;
use media_disk::Disk;

/// An engine and the turn that is out of it, if one is. The turn is the engine's own: it has the kind and
/// number that the engine's side says. So the device is always in one of the two.
pub struct TurnPhases<D: Disk> {
    pub(crate) db: Kvdb<D>,
    pub(crate) held: Held<D>,
    ghost paired: { out_of db.side ≡ turn_of held },
}
