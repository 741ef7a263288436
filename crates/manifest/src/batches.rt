//! Reads the batches of a half.
ghost use Rattle.std.specs.Prelude.{◌≡◌, ◌+◌, ◌<◌, ◌^◌, None, Some};
ghost use Rattle.gate_log.specs.Gates.{first_gate};
ghost use Rattle.gate_log.specs.Places.{tail_of};
ghost use Rattle.gate_log.specs.Reading.{payloads_of};
ghost use Rattle.manifest.specs.Half.{entries_of, placed};
ghost use Rattle.manifest.specs.Loading.{base_as, PlacedIn, Tells};
ghost use Rattle.manifest.specs.Reading.{payload_of};
ghost use Rattle.manifest.specs.Views.{metadata_as};

use crate::entries::{first_payload, next_payload};
use crate::{Base, LoadFault};
use gate_log::{FIRST_GATE, FRAME_SIZE, Payload};
use hse_fields::Refusal;
use std::alloc::Global;

/// The refusal so many bytes before this place of the half.
fn placed_in(half: u8, end: u64, refusal: Refusal) -> LoadFault
    ensures { PlacedIn half end refusal result }
{
    match refusal {
        Refusal::Left(left) => LoadFault::Damaged(half, end.saturating_sub(left)),
        Refusal::NoMemory => LoadFault::NoMemory,
    }
}

/// The base that the first batch of a half is, which ends at this place.
fn first_batch(
    alloc: Global,
    half: u8,
    most: u16,
    bytes: &[u8],
    end: u64,
) -> Result<Base, LoadFault>
    ensures { Tells half metadata_as result (placed end (payload_of most None bytes.now)) }
{
    match first_payload(alloc, most, bytes) {
        Ok(base) => Ok(base),
        Err(refusal) => Err(placed_in(half, end, refusal)),
    }
}

/// Does what a further batch says, which ends at this place.
fn next_batch(
    alloc: Global,
    half: u8,
    most: u16,
    base: &mut Base,
    bytes: &[u8],
    end: u64,
) -> Result<(), LoadFault>
    ensures { Tells half (λ _. metadata_as base.new) result
        (placed end (payload_of most (Some (metadata_as base.old)) bytes.now)) }
{
    match next_payload(alloc, most, base, bytes) {
        Ok(()) => Ok(()),
        Err(refusal) => Err(placed_in(half, end, refusal)),
    }
}

/// The base after these batches of a half, and none where there is no batch.
pub(crate) fn base_of_batches(
    alloc: Global,
    half: u8,
    most: u16,
    batches: &[Payload],
) -> Result<Option<Base>, LoadFault>
    requires { tail_of (payloads_of batches.now) < 2 ^ 64 }
    ensures { Tells half base_as result
        (entries_of most None first_gate (payloads_of batches.now)) }
{
    let [first, more @ ..] = batches else {
        return Ok(None);
    };
    let mut gate = FIRST_GATE + FRAME_SIZE + first.bytes.len() as u64;
    let mut base = first_batch(alloc, half, most, &first.bytes, gate)?;
    let mut rest = more;
    while let [batch, behind @ ..] = rest {
        gate += FRAME_SIZE + batch.bytes.len() as u64;
        next_batch(alloc, half, most, &mut base, &batch.bytes, gate)?;
        rest = behind;
    }
    Ok(Some(base))
}
