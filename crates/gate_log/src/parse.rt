//! Reads a region's bytes.
ghost use Rattle.std.specs.Prelude.{◌≡◌, ℕ, ◌+◌, ◌^◌, ◌<◌, ◌≤◌, List, [], ◌∷◌, ◌++◌, length, IfSome, IfNone, IfOk, OnOk, IfErr, IsErrOf};
ghost use Rattle.byteorder.specs.Endian.{big_bytes};
ghost use Rattle.gate_log.specs.Gates.{IsCutOff, least_size};
ghost use Rattle.gate_log.specs.Reading.{payloads_of, IsFront, EndsInside, IsReading, IsInside};

use crate::gate::OPEN_GATE;
use crate::{End, Found, Front, Payload, RegionFault, Tail};
use byteorder::{BigEndian, ByteOrder};
use std::alloc::{AllocError, Global};

/// The first payload of what stands behind an open gate, and the bytes from its next gate on. There
/// is none where the length, the payload or the next gate is cut off.
fn first_payload(bytes: &[u8]) -> Option<(&[u8], &[u8])>
    ensures whole { IfSome result (λ parts. bytes.now
        ≡ big_bytes 4 (length parts.0.now) ++ (parts.0.now ++ parts.1.now)) }
    ensures short { IfSome result (λ parts. length parts.0.now < 2 ^ 32) }
    ensures gate { IfSome result (λ parts. 0 < length parts.1.now) }
    ensures cut_off { IfNone result (IsCutOff bytes.now) }
{
    if bytes.len() < 5 {
        return None;
    }
    let size = BigEndian::read_u32(bytes) as usize;
    if bytes.len() < 5 + size {
        return None;
    }
    let (_, behind) = bytes.split_at(4);
    Some(behind.split_at(size))
}

/// Adds a payload to the batches.
fn keep(alloc: Global, batches: &mut Vec<Payload>, payload: &[u8]) -> Result<(), AllocError>
    ensures { OnOk result (payloads_of batches.new.items
        ≡ payloads_of batches.old.items ++ payload.now ∷ []) }
{
    let bytes = payload.to_vec(alloc)?;
    batches.push(Payload { bytes })?;
    Ok(())
}

/// What the bytes of a region hold, up to what ends its batches.
pub(crate) fn front_in(alloc: Global, region: &[u8]) -> Result<Option<Front>, AllocError>
    requires { least_size ≤ length region.now }
    ensures found { IfOk result (IsFront region.now) }
    ensures inside { IfOk result (EndsInside (length region.now)) }
{
    if region[0] != OPEN_GATE {
        return Ok(None);
    }
    let sequence = BigEndian::read_u64(&region[1..9]);
    let mut batches = Vec::new(alloc);
    let mut rest = &region[9..];
    while rest[0] == OPEN_GATE {
        let Some((payload, behind)) = first_payload(&rest[1..]) else {
            let end = End::CutOff((region.len() - rest.len() + 1) as u64);
            return Ok(Some(Front {
                sequence,
                batches,
                end,
            }));
        };
        keep(alloc, &mut batches, payload)?;
        rest = behind;
    }
    let place = (region.len() - rest.len()) as u64;
    let end = End::Closed(Tail { place });
    Ok(Some(Front {
        sequence,
        batches,
        end,
    }))
}

/// A front as what was found, or the place at which its region is damaged.
pub(crate) fn found_in(front: Option<Front>) -> Result<Option<Found>, RegionFault>
    ensures found { (region : List ℕ) → IsFront region front → IsReading region result }
    ensures inside { (size : ℕ) → EndsInside size front → IsInside size result }
    ensures device { IsErrOf result RegionFault.Device → ⊥ }
{
    let Some(
        Front {
            sequence,
            batches,
            end,
        },
    ) = front
    else {
        return Ok(None);
    };
    match end {
        End::Closed(tail) => Ok(Some(Found {
            sequence,
            batches,
            tail,
        })),
        End::CutOff(place) => Err(RegionFault::Damaged(place)),
    }
}
