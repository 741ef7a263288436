//! The end of a turn.
ghost use Rattle.std.specs.Prelude.{◌≡◌, true};
ghost use Rattle.hse_rows.specs.machine.Core.{Core};
ghost use Rattle.hse_rows.specs.machine.Calls.{write_turn};
ghost use Rattle.hse_rows.specs.machine.CoreDone.{failing};
ghost use Rattle.engine_state.specs.Serves.{IsSound};
ghost use Rattle.kvdb.specs.Ending.{Ends, IsEnded, IsTaken};
ghost use Rattle.kvdb.specs.Serves.{Serves};
ghost use Rattle.kvdb.specs.Turns.{RanOf};
ghost use Rattle.kvdb.specs.declared.side.Side.TheVariants as side;

use crate::engine::Kvdb;
use crate::side::Side;
use crate::turn::{Broken, Ran};
use media_disk::Disk;
use std::mem::replace;

impl<D: Disk> Kvdb<D> {
    /// Notes that the device calls of the turn that is out have failed: the engine is broken until it is
    /// opened anew. It takes no memory and makes no device call.
    ///
    /// The conditions: a device call of this turn failed, and it is out of this engine.
    pub fn mark_broken(&mut self, ran: &Ran<D>)
        requires failed { ran.now.has_failed ≡ true }
        requires out { self.old.side ≡ side.Out ran.now.kind ran.now.number }
        ensures marked { (m : Core) → IsTaken m → Serves D.Device self.old m
            → Serves D.Device self.new (failing m write_turn) }
        ensures broken { self.new.state.is_broken ≡ true }
        ensures side { self.new.side ≡ self.old.side }
        ensures moment { self.new.moment ≡ self.old.moment }
    {
        let _failed = ran.has_failed;
        self.state.break_down();
    }

    /// Gives a turn back that has run, and answers its number; then all up to it is safe. `Broken` comes
    /// exactly where a device call of it failed, and then the engine is broken. It takes no memory and makes
    /// no device call.
    ///
    /// The condition: this turn is out of this engine.
    pub fn end_turn(&mut self, ran: Ran<D>) -> Result<u64, Broken>
        requires out { self.old.side ≡ side.Out ran.kind ran.number }
        ensures ends { (m : Core) → IsSound m → Serves D.Device self.old m → RanOf D.Device ran m
            → Ends D.Device m result self.new }
        ensures failed { IsEnded ran.has_failed ran.number result self.new.state.is_broken }
        ensures unmarked { (m : Core) → IsSound m → IsTaken m → Serves D.Device self.old m
            → ran.has_failed ≡ true → RanOf D.Device ran (failing m write_turn)
            → Ends D.Device (failing m write_turn) result self.new }
        ensures home { self.new.side ≡ side.In ran.back }
        ensures moment { self.new.moment ≡ self.old.moment }
    {
        let Ran {
            back,
            kind: _,
            number,
            has_failed,
        } = ran;
        let sequence = back.manifest.sequence();
        match replace(&mut self.side, Side::In(back)) {
            Side::In(_back) => unreachable!(),
            Side::Out(_, _) => {}
        }
        if has_failed {
            self.state.break_down();
            return Err(Broken);
        }
        self.state.settle(number);
        self.sequence = sequence;
        Ok(number)
    }
}
