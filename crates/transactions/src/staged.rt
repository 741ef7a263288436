//! The writes of a transaction with one more.
ghost use Rattle.std.specs.Prelude.{◌≡◌};
ghost use Rattle.hse_rows.specs.writes.Charge.{charge_of};

use hse_rows::WriteSet;
use ingest_tree::IngestTree;
use std::marker::Model;

/// The writes of a transaction with one more, beside its old ones.
#[derive(Drop)]
pub struct Staged {
    pub(crate) writes: WriteSet,
    pub(crate) own: IngestTree,
    pub(crate) last: u64,
}

impl Model for Staged {
    ghost use Rattle.transactions.specs.Txns.{StagedState};

    ghost Value = { StagedState };

    ghost view = { λ s. record { writes = s.writes; own = s.own; last = s.last } };
}

impl Staged {
    /// What a commit of these writes would take of the log, in bytes. It takes no memory.
    pub fn charge(&self) -> u64
        ensures { result ≡ charge_of self.now.writes }
    {
        self.writes.charge()
    }
}
