//! The places of cursors.
ghost use Rattle.hse_rows.specs.machine.Calls as call;
ghost use Rattle.hse_rows.specs.machine.Core.{Core};
ghost use Rattle.hse_rows.specs.machine.CoreDone.{done};
ghost use Rattle.hse_rows.specs.machine.Replies as answer;
ghost use Rattle.engine_state.specs.Serves.{Serves};
ghost use Rattle.engine_state.specs.Says.{SaysFull};
ghost use Rattle.engine_state.specs.Steps.{Steps};

use crate::faults::CursorsFull;
use crate::limits::MOST_CURSORS;
use crate::state::EngineState;
use hse_rows::Shared;

/// A place among the cursors.
#[derive(Drop)]
pub struct CursorPlace {
    _taken: (),
}

impl<R: Shared> EngineState<R> {
    /// A place for one cursor more. `CursorsFull` comes exactly where 1,024 cursors are open. It takes
    /// no memory.
    pub fn cursor_place(&mut self) -> Result<CursorPlace, CursorsFull>
        ensures { (m : Core) → Serves R.RowSet self.old m
            → Steps R.RowSet (λ _. answer.accepted) SaysFull m call.take_place result self.new }
    {
        if self.cursors >= MOST_CURSORS {
            return Err(CursorsFull(MOST_CURSORS));
        }
        self.cursors += 1;
        Ok(CursorPlace { _taken: () })
    }

    /// A cursor is gone. It takes no memory.
    ///
    /// This is promised of a place that this state gave since its opening.
    pub fn give_place(&mut self, _place: CursorPlace)
        ensures { (m : Core) → Serves R.RowSet self.old m
            → Serves R.RowSet self.new (done m call.give_place) }
    {
        self.cursors = self.cursors.saturating_sub(1);
    }
}
