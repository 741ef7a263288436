//! The key of a pair.
ghost use Rattle.std.specs.Prelude.{◌≡◌, length, IfOk, IfErr};
ghost use Rattle.hse_rows.specs.writes.Lengths.{IsKeyLength};
ghost use Rattle.hse_rows.specs.writes.Refusals.{RefusesLength};

use crate::bounded::Bounded;
use crate::length_fault::LengthFault;
use std::alloc::Global;

/// The most bytes that a key has.
pub const LONGEST_KEY: usize = 1344;

/// The bytes of a key, 1 to 1,344.
pub type Key = Bounded<1, LONGEST_KEY>;

/// Why no key, and no edge, was made.
pub type KeyFault = LengthFault;

impl Bounded<1, LONGEST_KEY> {
    /// A key of these bytes. `Length` comes exactly where they are not 1 to 1,344, with their
    /// number.
    pub fn new(alloc: Global, bytes: &[u8]) -> Result<Key, KeyFault>
        ensures made { IfOk result (λ key. key ≡ bytes.now) }
        ensures within { IfOk result (λ key. IsKeyLength (length key)) }
        ensures refused { IfErr result (RefusesLength IsKeyLength (length bytes.now)) }
    {
        Bounded::of(alloc, bytes)
    }
}
