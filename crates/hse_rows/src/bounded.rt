//! Bytes whose number is bounded.
ghost use Rattle.std.specs.Prelude.{◌≡◌, length, IfOk, IfErr};
ghost use Rattle.hse_rows.specs.writes.Lengths.{IsBetween};
ghost use Rattle.hse_rows.specs.writes.Refusals.{RefusesLength};

use crate::length_fault::LengthFault;
use crate::shared_bytes::SharedBytes;
use hse_io::NoMemory;
use std::alloc::Global;
use std::marker::Model;

/// Bytes that never change and that their owners share, `LEAST` of them at least and `MOST` at most.
/// They are in order by their bytes, and what others begin with stands before these.
#[derive(Drop, PartialEq, Eq, PartialOrd, Ord)]
pub struct Bounded<const LEAST: usize, const MOST: usize> {
    bytes: SharedBytes,
}

impl<const LEAST: usize, const MOST: usize> Model for Bounded<LEAST, MOST> {
    ghost use Rattle.std.specs.Prelude.{List, ℕ, length};
    ghost use Rattle.hse_rows.specs.writes.Lengths.{IsBetween};

    ghost Value = { List ℕ };

    ghost view = { λ b. b.bytes };

    ghost inverse = { λ bytes. record { bytes = bytes } };

    ghost invariant = { λ b. IsBetween LEAST MOST (length b.bytes) };
}

impl<const LEAST: usize, const MOST: usize> Bounded<LEAST, MOST> {
    /// A copy of these bytes. `Length` comes exactly where they are fewer than `LEAST` or more than
    /// `MOST`, with their number.
    pub(crate) fn of(alloc: Global, bytes: &[u8]) -> Result<Bounded<LEAST, MOST>, LengthFault>
        ensures made { IfOk result (λ bounded. bounded ≡ bytes.now) }
        ensures within { IfOk result (λ bounded. IsBetween LEAST MOST (length bounded)) }
        ensures refused { IfErr result (RefusesLength (IsBetween LEAST MOST) (length bytes.now)) }
    {
        if bytes.len() < LEAST || bytes.len() > MOST {
            return Err(LengthFault::Length(bytes.len() as u64));
        }
        let Ok(bytes) = SharedBytes::new(alloc, bytes) else {
            return Err(LengthFault::NoMemory);
        };
        Ok(Bounded { bytes })
    }

    /// The bytes. It takes no memory.
    pub fn bytes(&self) -> &[u8]
        ensures value { result.now ≡ self.now }
        ensures within { IsBetween LEAST MOST (length self.now) }
    {
        self.bytes.bytes()
    }

    /// One more owner of the same bytes.
    pub fn share(&self, _alloc: Global) -> Result<Bounded<LEAST, MOST>, NoMemory>
        ensures { IfOk result (λ bounded. bounded ≡ self.now) }
    {
        let bytes = self.bytes.share()?;
        Ok(Bounded { bytes })
    }
}
