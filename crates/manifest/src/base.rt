//! What a manifest says: the state of a device's stores.
ghost use Rattle.std.specs.Prelude.{◌≤◌, ◌^◌};

use hse_rows::{Mode, StoreId, StoreName, TakenRun};

/// A live store.
#[derive(Drop)]
pub struct BaseStore {
    pub id: StoreId,
    pub name: StoreName,
    pub mode: Mode,
    /// The length of its prefixes, or 0.
    pub prefix: u8,
}

/// The state that a manifest says: the horizon, the least sequence of the log that is still needed,
/// the numbers of creations and drops above the horizon, ascending, and the live stores by id.
#[derive(Drop)]
pub struct Base {
    pub horizon: u64,
    pub first: u64,
    pub taken: Vec<TakenRun>,
    pub stores: Vec<BaseStore>,
    ghost small: { horizon ≤ 2 ^ 62 },
}
