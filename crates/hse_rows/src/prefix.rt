//! The prefix of a prefix delete.
ghost use Rattle.std.specs.Prelude.{◌≡◌, ◌↔◌, IsTrue, length as number_of, IfOk, IfErr};
ghost use Rattle.hse_rows.specs.writes.Change.{Covers, covers};
ghost use Rattle.hse_rows.specs.writes.Lengths.{FitsPrefix};
ghost use Rattle.hse_rows.specs.writes.Refusals.{RefusesLength};

use crate::bounded::Bounded;
use crate::length_fault::LengthFault;
use std::alloc::Global;

/// The most bytes that a prefix has.
pub const LONGEST_PREFIX: usize = 32;

/// The bytes that the keys of a prefix delete begin with, 1 to 32.
pub type Prefix = Bounded<1, LONGEST_PREFIX>;

/// Why no prefix was made.
pub type PrefixFault = LengthFault;

impl Bounded<1, LONGEST_PREFIX> {
    /// A prefix of these bytes for a store whose prefixes have at most `length` bytes. `Length` comes
    /// exactly where the number of the bytes is 0, or above `length` or 32, with that number.
    pub fn new(alloc: Global, bytes: &[u8], length: u8) -> Result<Prefix, PrefixFault>
        ensures made { IfOk result (λ prefix. prefix ≡ bytes.now) }
        ensures within { IfOk result (λ prefix. FitsPrefix length (number_of prefix)) }
        ensures refused { IfErr result (RefusesLength (FitsPrefix length) (number_of bytes.now)) }
    {
        if bytes.len() > length as usize {
            return Err(PrefixFault::Length(bytes.len() as u64));
        }
        Bounded::of(alloc, bytes)
    }

    /// Whether the prefix covers a key: the key is at least as long and begins with it. It takes no
    /// memory.
    pub fn covers(&self, key: &[u8]) -> bool
        ensures test { result ≡ covers self.now key.now }
        ensures meaning { IsTrue result ↔ Covers self.now key.now }
    {
        covers_key(self.bytes(), key)
    }
}

/// Whether a prefix covers a key.
fn covers_key(prefix: &[u8], key: &[u8]) -> bool
    ensures test { result ≡ covers prefix.now key.now }
    ensures meaning { IsTrue result ↔ Covers prefix.now key.now }
{
    key.starts_with(prefix)
}
