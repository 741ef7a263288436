//! The value of a pair.
ghost use Rattle.std.specs.Prelude.{◌≡◌, ◌≤◌, length, IfOk, IfErr};
ghost use Rattle.hse_rows.specs.writes.Lengths.{longest_value_in};
ghost use Rattle.hse_rows.specs.writes.Refusals.{RefusesValue};

use crate::length_fault::LengthFault;
use crate::shared_bytes::SharedBytes;
use hse_io::NoMemory;
use std::alloc::Global;
use std::marker::Model;

/// The most bytes that a value has on any device.
pub const LONGEST_VALUE: u64 = 1_048_576;

/// The most bytes that a value has on a device with slots of so many bytes: as on any device, and 64
/// fewer than a slot.
pub fn longest_value(slot: u64) -> u64
    ensures { result ≡ longest_value_in slot }
{
    LONGEST_VALUE.min(slot.saturating_sub(64))
}

/// The bytes of a value.
#[derive(Drop)]
pub struct Value {
    bytes: SharedBytes,
}

impl Model for Value {
    ghost use Rattle.std.specs.Prelude.{List, ℕ};

    ghost Value = { List ℕ };

    ghost view = { λ v. v.bytes };
}

/// Why no value was made.
pub type ValueFault = LengthFault;

impl Value {
    /// A value of these bytes. `Length` comes exactly where they are more than `most`, with their
    /// number.
    pub fn new(alloc: Global, bytes: &[u8], most: u64) -> Result<Value, ValueFault>
        ensures made { IfOk result (λ value. value ≡ bytes.now) }
        ensures within { IfOk result (λ value. length value ≤ most) }
        ensures refused { IfErr result (RefusesValue most (length bytes.now)) }
    {
        if bytes.len() as u64 > most {
            return Err(ValueFault::Length(bytes.len() as u64));
        }
        let Ok(bytes) = SharedBytes::new(alloc, bytes) else {
            return Err(ValueFault::NoMemory);
        };
        Ok(Value { bytes })
    }

    /// The value's bytes. It takes no memory.
    pub fn bytes(&self) -> &[u8]
        ensures { result.now ≡ self.now }
    {
        self.bytes.bytes()
    }

    /// One more owner of the same value.
    pub fn share(&self, _alloc: Global) -> Result<Value, NoMemory>
        ensures { IfOk result (λ value. value ≡ self.now) }
    {
        let bytes = self.bytes.share()?;
        Ok(Value { bytes })
    }
}
