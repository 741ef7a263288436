//! Where a row stands, as two numbers that tell most rows apart.
ghost use Rattle.std.specs.Prelude.{◌≡◌, ◌<◌, ◌∷◌, get_or};
ghost use Rattle.std.specs.Ordering.{ordering_then, nat_cmp};
ghost use Rattle.ingest_tree.specs.Marks.{front};

use std::cmp::Ordering;

/// The store's id, and the rank of the change with the first bytes of its key or prefix. Of two
/// rows whose marks differ the one of the smaller mark comes first.
#[derive(Clone, Copy)]
pub(crate) struct Mark {
    pub id: u64,
    pub front: u64,
}

impl Mark {
    /// That of no row.
    pub fn none() -> Mark
        ensures { (result.id ≡ 0) × (result.front ≡ 0) }
    {
        Mark { id: 0, front: 0 }
    }

    /// How it stands to the mark of these numbers.
    pub fn order(self, id: u128, front: u64) -> Ordering
        ensures { result ≡ ordering_then (nat_cmp self.id id) (nat_cmp self.front front) }
    {
        match (self.id as u128).cmp(&id) {
            Ordering::Less => Ordering::Less,
            Ordering::Greater => Ordering::Greater,
            Ordering::Equal => self.front.cmp(&front),
        }
    }
}

/// The byte at a place, and 0 behind the last.
fn digit(bytes: &[u8], at: usize) -> u64
    ensures value { result ≡ get_or bytes.now at 0 }
    ensures small { result < 256 }
{
    match bytes.get(at) {
        Some(byte) => *byte as u64,
        None => 0,
    }
}

/// This byte and the first seven of the others as a number.
pub(crate) fn front_with(first: u8, bytes: &[u8]) -> u64
    ensures { result ≡ front 8 (first ∷ bytes.now) }
{
    let high = digit(bytes, 0) * 0x1000000000000
        + digit(bytes, 1) * 0x10000000000
        + digit(bytes, 2) * 0x100000000;
    let low = digit(bytes, 3) * 0x1000000
        + digit(bytes, 4) * 0x10000
        + digit(bytes, 5) * 0x100
        + digit(bytes, 6);
    first as u64 * 0x100000000000000 + high + low
}
