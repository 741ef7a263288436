//! Why a phase of a turn was not done.

use kvdb::TurnFault;
use thiserror::Error;

/// The phase of the one turn: none is out, it was taken, or it has made its device calls.
#[derive(Clone, Copy, Debug, PartialEq, Eq)]
pub enum TurnPhase {
    Home,
    Taken,
    Run,
}

/// Why a turn did not make its device calls.
#[derive(Clone, Copy, Debug, PartialEq, Eq, Error)]
pub enum RunFault {
    /// The turn is in this phase.
    #[error("no turn waits for its device calls")]
    Phase(TurnPhase),
    #[error("the device failed")]
    Device,
}

/// Why a turn was not ended.
#[derive(Clone, Copy, Debug, PartialEq, Eq, Error)]
pub enum EndFault {
    /// The turn is in this phase.
    #[error("no turn has run")]
    Phase(TurnPhase),
    /// A device call of the turn failed. It is given back.
    #[error("the engine is broken")]
    Broken,
}

/// Why a turn was not taken, run and ended in a row.
#[derive(Clone, Copy, Debug, PartialEq, Eq, Error)]
pub enum WholeFault {
    /// It was not taken.
    #[error("the turn was not taken")]
    Refused(TurnFault),
    #[error("the device failed")]
    Device,
}
