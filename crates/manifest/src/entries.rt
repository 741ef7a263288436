//! Reads the entries of the manifest.
ghost use Rattle.std.specs.Prelude.{◌≡◌, ◌≤◌, ◌^◌, None, Some};
ghost use Rattle.manifest.specs.Reading.{base_of, create_of, drop_of, entry_of, payload_of};
ghost use Rattle.manifest.specs.Views.{Gives, metadata_as};

use crate::Base;
use crate::change::{add_store, is_store, may_be, remove_store};
use crate::describe::described;
use crate::runs::{GREATEST_NUMBER, runs_behind};
use crate::stores::Known;
use hse_fields::{Refusal, split_u8, split_u32, split_u64};
use hse_rows::StoreId;
use std::alloc::Global;

/// The first byte of a base.
pub(crate) const BASE: u8 = 6;

/// The first byte of a creation.
pub(crate) const CREATE: u8 = 2;

/// The first byte of a drop.
pub(crate) const DROP: u8 = 3;

/// A base behind its kind, and the bytes behind it.
#[tactic(auto, unfolding(crate::specs::Reading::base_of))]
fn base(alloc: Global, most: u16, bytes: &[u8]) -> Result<(Base, &[u8]), Refusal>
    ensures { Gives (λ x. (metadata_as x.0, x.1.now)) result (base_of most bytes.now) }
{
    let (horizon, rest) = split_u64(bytes)?;
    if horizon > GREATEST_NUMBER {
        return Err(Refusal::Left(bytes.len() as u64));
    }
    let (first, behind) = split_u64(rest)?;
    if first != 1 {
        return Err(Refusal::Left(rest.len() as u64));
    }
    let (count, behind) = split_u32(behind)?;
    let (taken, behind) = runs_behind(alloc, horizon, count, behind)?;
    let (count, behind) = split_u32(behind)?;
    let known = Known {
        alloc,
        most,
        horizon,
        taken: &taken,
    };
    let (stores, behind) = known.stores(count, behind)?;
    let base = Base {
        horizon,
        first,
        taken,
        stores,
    };
    Ok((base, behind))
}

/// Does a creation behind its kind, and gives the bytes behind it.
#[tactic(auto, unfolding(crate::specs::Reading::create_of))]
fn create<'b>(
    alloc: Global,
    most: u16,
    base: &mut Base,
    bytes: &'b [u8],
) -> Result<&'b [u8], Refusal>
    ensures { Gives (λ rest. (metadata_as base.new, rest.now)) result
        (create_of most (metadata_as base.old) bytes.now) }
{
    let (number, rest) = split_u64(bytes)?;
    if !may_be(base, number) {
        return Err(Refusal::Left(bytes.len() as u64));
    }
    if base.stores.len() >= most as usize {
        return Err(Refusal::Left(bytes.len() as u64));
    }
    let (store, behind) = described(alloc, &base.stores, StoreId(number), rest)?;
    add_store(base, number, store)?;
    Ok(behind)
}

/// Does a drop behind its kind, and gives the bytes behind it.
#[tactic(auto, unfolding(crate::specs::Reading::drop_of))]
fn drop<'b>(base: &mut Base, bytes: &'b [u8]) -> Result<&'b [u8], Refusal>
    ensures { Gives (λ rest. (metadata_as base.new, rest.now)) result
        (drop_of (metadata_as base.old) bytes.now) }
{
    let (number, rest) = split_u64(bytes)?;
    if !may_be(base, number) {
        return Err(Refusal::Left(bytes.len() as u64));
    }
    let (id, behind) = split_u64(rest)?;
    if !is_store(id, &base.stores) {
        return Err(Refusal::Left(rest.len() as u64));
    }
    remove_store(base, number, id)?;
    Ok(behind)
}

/// The base that the first payload of a half is.
#[tactic(auto, unfolding(crate::specs::Reading::payload_of, crate::specs::Reading::entry_of))]
pub(crate) fn first_payload(alloc: Global, most: u16, bytes: &[u8]) -> Result<Base, Refusal>
    ensures { Gives metadata_as result (payload_of most None bytes.now) }
{
    let (kind, rest) = split_u8(bytes)?;
    if kind != BASE {
        return Err(Refusal::Left(bytes.len() as u64));
    }
    let (base, rest) = base(alloc, most, rest)?;
    if !rest.is_empty() {
        return Err(Refusal::Left(4 + bytes.len() as u64));
    }
    Ok(base)
}

/// Does the creation or the drop of this kind, and gives the bytes behind it.
#[tactic(auto, unfolding(crate::specs::Reading::entry_of))]
fn entry<'b>(
    alloc: Global,
    most: u16,
    base: &mut Base,
    kind: u8,
    left: u64,
    bytes: &'b [u8],
) -> Result<&'b [u8], Refusal>
    ensures { Gives (λ rest. (metadata_as base.new, rest.now)) result
        (entry_of most (Some (metadata_as base.old)) kind left bytes.now) }
{
    match kind {
        CREATE => create(alloc, most, base, bytes),
        DROP => drop(base, bytes),
        _ => Err(Refusal::Left(left)),
    }
}

/// Does the creation or the drop that a further payload is.
#[tactic(auto, unfolding(crate::specs::Reading::payload_of))]
pub(crate) fn next_payload(
    alloc: Global,
    most: u16,
    base: &mut Base,
    bytes: &[u8],
) -> Result<(), Refusal>
    ensures { Gives (λ _. metadata_as base.new) result
        (payload_of most (Some (metadata_as base.old)) bytes.now) }
{
    let (kind, rest) = split_u8(bytes)?;
    let behind = entry(alloc, most, base, kind, bytes.len() as u64, rest)?;
    if !behind.is_empty() {
        return Err(Refusal::Left(4 + bytes.len() as u64));
    }
    Ok(())
}
