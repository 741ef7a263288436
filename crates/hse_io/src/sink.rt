//! A sink of bytes.
ghost use Rattle.std.specs.Prelude.{◌≡◌, ◌++◌, List, ℕ, Option, OnOk, OnErr};
ghost use Rattle.std.specs.Io.KnownBytes.{Appends};
ghost use Rattle.hse_io.specs.Faults.{HasCause};

use thiserror::Error;

/// The sink failed.
#[derive(Clone, Copy, Debug, PartialEq, Eq, Error)]
#[error("the sink failed")]
pub struct Failed;

/// A stream that bytes are appended to. An implementation in memory tells what it holds, and clauses on that
/// hold where it does.
pub trait Sink {
    /// All that was appended, where the sink tells it.
    ghost contents: { Self → Option (List ℕ) };

    /// How often the sink has failed.
    ghost faults: { Self → ℕ };

    /// Appends all the bytes. After an `Err` some of them are appended, up to any place.
    fn write(&mut self, bytes: &[u8]) -> Result<(), Failed>
        ensures written { OnOk result (Appends (contents self.old) (contents self.new) bytes.now) }
        ensures partly { OnErr result ((begun rest : List ℕ) × (bytes.now ≡ begun ++ rest)
            × Appends (contents self.old) (contents self.new) begun) }
        ensures cause { HasCause (faults self.old) (faults self.new) result };
}
