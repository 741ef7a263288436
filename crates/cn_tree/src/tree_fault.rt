//! Why a change of a tree was not made.
use hse_io::NoMemory;
use thiserror::Error;

/// Why a run of sets was not replaced.
#[derive(Clone, Copy, Debug, PartialEq, Eq, Error)]
pub enum TreeFault {
    /// There is no such run. The node has this many sets.
    #[error("the node has {0} sets")]
    NoRun(u64),
    #[error("out of memory")]
    NoMemory,
}

impl From<NoMemory> for TreeFault {
    ghost use Rattle.std.specs.Prelude.{◌≡◌};
    ghost use Rattle.cn_tree.specs.declared.tree_fault.TreeFault.TheVariants.{NoMemory as OutOfMemory};

    ghost from_gives = { λ _ fault. fault ≡ OutOfMemory };

    fn from(_: NoMemory) -> Self {
        TreeFault::NoMemory
    }
}
