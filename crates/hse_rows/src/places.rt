//! Writes in the order of the normal form, as they stand in a vector.
ghost use Rattle.std.specs.Prelude.{◌≡◌, ◌+◌, ◌^◌, ◌<◌, ◌≤◌, length, vec_len, vec_capacity};
ghost use Rattle.std.specs.List.{filter};
ghost use Rattle.std.specs.List.Sorted.{IsBinarySearchResult, IsSearchInRange, IsStrictlySortedBy};
ghost use Rattle.hse_rows.specs.writes.Change.{write_of};
ghost use Rattle.hse_rows.specs.writes.NormalForm.{write_cmp, stays, added, replaced};
ghost use Rattle.hse_rows.specs.writes.Charge.{writes_bytes};

use crate::change::Change;
use crate::store::StoreId;
use crate::write::Write;

/// Where a write of this key or prefix stands, or else where it would.
pub(crate) fn place(writes: &[Write], store: StoreId, change: &Change) -> Result<usize, usize>
    ensures bound { IsSearchInRange result (length writes.now) }
    ensures position { IsBinarySearchResult
        (λ w. write_cmp w (write_of store change.now)) writes.now result }
{
    writes.binary_search_by(|write| write.order(store, change))
}

/// Drops what a later write hides.
fn drop_hidden(writes: &mut Vec<Write>, later: &Write)
    ensures items { writes.new.items ≡ filter (stays later.now) writes.old.items }
    ensures room { vec_len writes.new ≤ vec_len writes.old }
    ensures capacity { vec_capacity writes.new ≡ vec_capacity writes.old }
{
    writes.retain(|write| !write.is_hidden_by(later.store, &later.change));
}

/// Puts a write into its place, over one of the same key or prefix. There is room for one more.
fn put_in_place(writes: &mut Vec<Write>, write: Write)
    requires room { vec_len writes.old < vec_capacity writes.old }
    requires rising { IsStrictlySortedBy write_cmp writes.old.items }
    ensures { writes.new.items ≡ replaced writes.old.items write }
{
    match place(writes, write.store, &write.change) {
        Ok(at) => writes[at] = write,
        Err(at) => {
            let Ok(()) = writes.insert(at, write) else {
                unreachable!();
            };
        }
    }
}

/// Adds a write to a normal form. There is room for one more.
pub(crate) fn put(writes: &mut Vec<Write>, write: Write)
    requires room { vec_len writes.old < vec_capacity writes.old }
    requires rising { IsStrictlySortedBy write_cmp writes.old.items }
    ensures { writes.new.items ≡ added writes.old.items write }
{
    if let Change::PDel(_) = &write.change {
        drop_hidden(writes, &write);
    }
    put_in_place(writes, write);
}

/// How many bytes those writes take that a later one does not hide, by going over all.
fn walk_kept(writes: &[Write], store: StoreId, change: &Change) -> u64
    requires { writes_bytes writes.now < 2 ^ 64 }
    ensures { result ≡ writes_bytes (filter (stays (write_of store change.now)) writes.now) }
{
    let mut kept = 0;
    for write in writes {
        if !write.is_hidden_by(store, change) {
            kept += write.change.bytes();
        }
    }
    kept
}

/// The same of a normal form that takes `bytes`, with a search alone where a search serves.
pub(crate) fn kept_bytes(writes: &[Write], bytes: u64, store: StoreId, change: &Change) -> u64
    requires counted { bytes ≡ writes_bytes writes.now }
    requires rising { IsStrictlySortedBy write_cmp writes.now }
    ensures { result ≡ writes_bytes (filter (stays (write_of store change.now)) writes.now) }
{
    if let Change::PDel(_) = change {
        return walk_kept(writes, store, change);
    }
    match place(writes, store, change) {
        Ok(at) => bytes - writes[at].change.bytes(),
        Err(_) => bytes,
    }
}
