//! The one turn that device work takes.

use crate::device::{Entry, Log};
use crate::refusal::Refusal;
use crate::state::State;

/// What a turn is for.
#[derive(Clone, Copy, Drop)]
pub(crate) enum Kind {
    Sync,
    Freeze,
    Create,
    Drop,
}

/// A turn: the number that it answers, and what the device holds once it is written.
#[derive(Drop)]
pub(crate) struct Turn {
    pub(crate) kind: Kind,
    pub(crate) number: u64,
    pub(crate) state: State,
    pub(crate) log: Log,
    pub(crate) entry: Option<Entry>,
}

/// Where the turn is.
#[derive(Drop)]
pub(crate) enum Phase {
    In,
    Taken(Turn),
    Run(Turn),
}

/// The refusal of a line that finds a turn of this kind out.
fn busy(kind: Kind) -> Refusal {
    match kind {
        Kind::Sync => Refusal::Plain(b"err busy sync"),
        Kind::Freeze => Refusal::Plain(b"err busy freeze"),
        Kind::Create => Refusal::Plain(b"err busy create"),
        Kind::Drop => Refusal::Plain(b"err busy drop"),
    }
}

impl Phase {
    /// Refuses where a turn is out.
    pub(crate) fn expect_in(&self) -> Result<(), Refusal> {
        match self {
            Phase::In => Ok(()),
            Phase::Taken(turn) | Phase::Run(turn) => Err(busy(turn.kind)),
        }
    }

    /// The refusal of a phase that does not follow.
    pub(crate) fn wrong(&self) -> Refusal {
        match self {
            Phase::In => Refusal::Plain(b"err turn in"),
            Phase::Taken(_) => Refusal::Plain(b"err turn taken"),
            Phase::Run(_) => Refusal::Plain(b"err turn run"),
        }
    }
}
