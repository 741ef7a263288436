//! How a creation or a drop will be written.

use gate_log::Batch;
use hse_io::NoMemory;
use thiserror::Error;

/// How a creation or a drop will be written: its entry behind those of the half in force, or the
/// base after it in the other half.
#[derive(Drop)]
pub enum EntryPlan {
    Log(Batch),
    Roll(Batch),
}

/// Why there is no plan.
#[derive(Clone, Copy, Debug, PartialEq, Eq, Error)]
pub enum PlanFault {
    /// How many slots are needed, and how many are free. A creation and a drop need none.
    #[error("{0} slots are needed and {1} are free")]
    Full(u64, u64),
    /// What the base after the entry needs, and the room that a new half has, in bytes.
    #[error("the manifest needs {0} bytes and a half has room for {1}")]
    ManifestFull(u64, u64),
    #[error("out of memory")]
    NoMemory,
}

impl From<NoMemory> for PlanFault {
    ghost use Rattle.std.specs.Prelude.{◌≡◌};
    ghost use Rattle.back.specs.declared.plan.PlanFault.TheVariants as fault;

    ghost from_gives = { λ _ same. same ≡ fault.NoMemory };

    fn from(_: NoMemory) -> Self {
        PlanFault::NoMemory
    }
}
