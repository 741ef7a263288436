//! Where a place among keys is asked for.
ghost use Rattle.std.specs.Prelude.{◌≡◌, length, IfOk, IfErr};
ghost use Rattle.hse_rows.specs.writes.Lengths.{IsEdgeLength};
ghost use Rattle.hse_rows.specs.writes.Refusals.{RefusesLength};

use crate::bounded::Bounded;
use crate::key::{KeyFault, LONGEST_KEY};
use std::alloc::Global;

/// Bytes that keys are compared with, at most 1,344. Unlike a key they may be none.
pub type Edge = Bounded<0, LONGEST_KEY>;

impl Bounded<0, LONGEST_KEY> {
    /// An edge of these bytes. `Length` comes exactly where they are more than 1,344, with their
    /// number.
    pub fn new(alloc: Global, bytes: &[u8]) -> Result<Edge, KeyFault>
        ensures made { IfOk result (λ edge. edge ≡ bytes.now) }
        ensures within { IfOk result (λ edge. IsEdgeLength (length edge)) }
        ensures refused { IfErr result (RefusesLength IsEdgeLength (length bytes.now)) }
    {
        Bounded::of(alloc, bytes)
    }
}
