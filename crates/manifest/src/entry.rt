//! An entry of a manifest.

use crate::Base;
use hse_rows::{Mode, StoreId, StoreName};

/// An entry of a manifest: a base; the creation of this number, with the store's name, mode and
/// prefix length; or the drop of this number, of this store.
#[derive(Drop)]
pub enum Entry {
    Base(Base),
    Create(u64, StoreName, Mode, u8),
    Drop(u64, StoreId),
}
