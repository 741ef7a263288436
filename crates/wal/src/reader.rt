//! The reader of a batch's payload.
ghost use Rattle.std.specs.Prelude.{◌≡◌, ◌≤◌, ◌<◌, ◌^◌, length, IfOk};
ghost use Rattle.hse_fields.specs.LogForm.{ValueFits};
ghost use Rattle.hse_fields.specs.LogReading.{sized_of, value_of};
ghost use Rattle.hse_fields.specs.laws.Fields.{IsBytes};
ghost use Rattle.wal.specs.Given.{Gives, kind_as};
ghost use Rattle.hse_fields.specs.declared.refusal.Refusal.TheVariants.{Left};

use crate::StorePrefix;
use crate::expected::Expected;
use crate::kind::Kind;
use hse_fields::{Refusal, split_bytes, split_u32};
use std::alloc::Global;

/// The bytes of a payload that are left, and what is asked of what stands there. Each of its calls
/// reads what stands first, and gives the bytes behind it.
#[derive(Clone, Copy)]
pub(crate) struct Reader<'b, 'a> {
    pub(crate) alloc: Global,
    pub(crate) bytes: &'b [u8],
    /// The most bytes that a value has.
    pub(crate) most: u64,
    /// The live stores.
    pub(crate) live: &'a [StorePrefix],
    /// Which entry may come next.
    pub(crate) expected: Expected<'a>,
}

/// A slice of bytes holds bytes, fewer than 2^63; a struct that holds the slice does not tell it.
pub(crate) fn are_bytes(bytes: &[u8])
    ensures bytes { IsBytes bytes.now }
    ensures short { length bytes.now < 2 ^ 63 }
{}

impl<'b, 'a> Reader<'b, 'a> {
    /// How the field that stands first is refused.
    pub(crate) fn refusal(self) -> Refusal
        ensures { result ≡ Left (length self.entry.bytes.now) }
    {
        Refusal::Left(self.bytes.len() as u64)
    }

    /// Bytes behind their length.
    #[tactic(auto, unfolding(hse_fields::specs::LogReading::sized_of, hse_fields::specs::LogReading::size_of))]
    fn sized_value(self) -> Result<(&'b [u8], &'b [u8]), Refusal>
        ensures gives { Gives (λ x. (x.0.now, x.1.now)) result
            (sized_of 4 0 self.entry.most self.entry.bytes.now) }
        ensures short { IfOk result (λ x. length x.0.now ≤ self.entry.most) }
    {
        let (size, rest) = split_u32(self.bytes)?;
        if size as u64 > self.most {
            return Err(self.refusal());
        }
        Ok(split_bytes(rest, size as u64)?)
    }

    /// A put's value; the other kinds have none.
    #[tactic(auto, unfolding(hse_fields::specs::LogReading::value_of))]
    pub(crate) fn value(self, kind: Kind) -> Result<(&'b [u8], &'b [u8]), Refusal>
        ensures gives { Gives (λ x. (x.0.now, x.1.now)) result
            (value_of (kind_as kind) self.entry.most self.entry.bytes.now) }
        ensures fits { IfOk result (λ x. ValueFits self.entry.most (kind_as kind) x.0.now) }
    {
        match kind {
            Kind::Put => self.sized_value(),
            Kind::Del => Ok((&[], self.bytes)),
            Kind::PDel => Ok((&[], self.bytes)),
        }
    }
}
