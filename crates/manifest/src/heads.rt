//! The heads of the halves, and which half is in force.
ghost use Rattle.std.specs.Prelude.{◌≡◌};
ghost use Rattle.manifest.specs.Half.{candidate, greater, head_of, head_fits, in_force};
ghost use Rattle.manifest.specs.HeadViews.{head_as};

use byteorder::{BigEndian, ByteOrder};
use gate_log::{FIRST_GATE, OPEN_GATE};

/// The greatest sequence of a half.
pub(crate) const GREATEST_SEQUENCE: u64 = 4_611_686_018_427_387_904;

/// How many bytes the head takes, with the first batch's gate.
pub(crate) const HEAD_SIZE: usize = 10;

/// The head of a half: closed, or open with its sequence and whether the first batch's gate is open.
#[derive(Clone, Copy)]
pub(crate) enum Head {
    Closed,
    Open(u64, bool),
}

/// The head in these bytes.
pub(crate) fn head_of_bytes(bytes: &[u8; HEAD_SIZE]) -> Head
    ensures { head_as result ≡ head_of bytes.now }
{
    if bytes[0] != OPEN_GATE {
        return Head::Closed;
    }
    let sequence = BigEndian::read_u64(&bytes[1..9]);
    Head::Open(sequence, bytes[FIRST_GATE as usize] == OPEN_GATE)
}

/// Whether the half may have this head.
fn may_have(half: u8, head: Head) -> bool
    ensures { result ≡ head_fits half (head_as head) }
{
    match head {
        Head::Closed => true,
        Head::Open(sequence, _) => sequence % 2 == half as u64 && sequence <= GREATEST_SEQUENCE,
    }
}

/// The sequence of a half that may be in force by its head.
fn candidate_of(head: Head) -> Option<u64>
    ensures { result ≡ candidate (head_as head) }
{
    match head {
        Head::Closed => None,
        Head::Open(sequence, has_batch) => {
            if has_batch {
                return Some(sequence);
            }
            None
        }
    }
}

/// The half of the greater sequence, or the half and the place that are refused.
fn greater_half(first: Option<u64>, second: Option<u64>) -> Result<u8, (u8, u64)>
    ensures { result ≡ greater first second }
{
    match first {
        None => match second {
            None => Err((0, 0)),
            Some(_) => Ok(1),
        },
        Some(one) => match second {
            None => Ok(0),
            Some(other) => {
                if one < other {
                    return Ok(1);
                }
                Ok(0)
            }
        },
    }
}

/// The half that these heads put in force, or the half and the place that are refused.
pub(crate) fn half_of_heads(first: Head, second: Head) -> Result<u8, (u8, u64)>
    ensures { result ≡ in_force (head_as first) (head_as second) }
{
    if !may_have(0, first) {
        return Err((0, 1));
    }
    if !may_have(1, second) {
        return Err((1, 1));
    }
    greater_half(candidate_of(first), candidate_of(second))
}
