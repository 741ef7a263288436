//! The prefix lengths of live stores.
ghost use Rattle.std.specs.Prelude.{◌≡◌};
ghost use Rattle.hse_fields.specs.LogReading.{name_fits};
ghost use Rattle.wal.specs.Given.{kind_as};
ghost use Rattle.wal.specs.Live.{prefix_fits};

use crate::kind::Kind;
use hse_rows::StoreId;

/// The most bytes that a live store's prefix deletes have.
#[derive(Clone, Copy, Debug, PartialEq, Eq)]
pub struct StorePrefix {
    pub store: StoreId,
    pub length: u8,
}

/// Whether a prefix delete of this store may have so many bytes: one of a store that is not listed
/// may, since that store is not live.
fn prefix_may(live: &[StorePrefix], store: u64, size: u64) -> bool
    ensures { result ≡ prefix_fits live.now store size }
{
    let mut rest = live;
    while let [first, more @ ..] = rest {
        if first.store.0 == store {
            return size <= first.length as u64;
        }
        rest = more;
    }
    true
}

/// Whether the name of a change of this kind and store may have so many bytes.
pub(crate) fn name_may(live: &[StorePrefix], kind: Kind, store: u64, size: u64) -> bool
    ensures { result ≡ name_fits (prefix_fits live.now) (kind_as kind) store size }
{
    match kind {
        Kind::Put | Kind::Del => true,
        Kind::PDel => prefix_may(live, store, size),
    }
}
