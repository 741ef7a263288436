//! Reads what a store is.
ghost use Rattle.std.specs.Prelude.{◌≡◌, ◌≤◌, ◌<◌, length, IsTrue, IfOk, option_map};
ghost use Rattle.std.specs.List.{list_all};
ghost use Rattle.hse_rows.specs.writes.Names.{is_name_byte};
ghost use Rattle.manifest.specs.Metadata.{is_used};
ghost use Rattle.manifest.specs.Reading.{name_of, mode_with, mode_of, described_of};
ghost use Rattle.manifest.specs.Views.{Gives, store_as, stores_as};

use crate::BaseStore;
use hse_fields::{Refusal, split_bytes, split_u8};
use hse_rows::{LONGEST_PREFIX, Mode, NameFault, StoreId, StoreName};
use std::alloc::Global;

/// The most bytes that a name has.
const LONGEST_NAME: u8 = 31;

/// Whether one of these stores has this name.
fn is_name_used(name: &[u8], stores: &[BaseStore]) -> bool
    ensures { result ≡ is_used name.now (stores_as stores.now) }
{
    let mut rest = stores;
    while let [first, more @ ..] = rest {
        if first.name.bytes() == name {
            return true;
        }
        rest = more;
    }
    false
}

/// A name that no store has, and the bytes behind it.
#[tactic(auto, unfolding(crate::specs::Reading::name_of, hse_fields::specs::LogReading::size_of))]
fn name<'b>(
    alloc: Global,
    stores: &[BaseStore],
    bytes: &'b [u8],
) -> Result<(StoreName, &'b [u8]), Refusal>
    ensures { Gives (λ x. (x.0, x.1.now)) result (name_of (stores_as stores.now) bytes.now) }
{
    let (size, rest) = split_u8(bytes)?;
    if size < 1 || LONGEST_NAME < size {
        return Err(Refusal::Left(bytes.len() as u64));
    }
    let (text, behind) = split_bytes(rest, size as u64)?;
    let name = match StoreName::new(alloc, text) {
        Ok(name) => name,
        Err(NameFault::BadName) => return Err(Refusal::Left(rest.len() as u64)),
        Err(NameFault::NoMemory) => return Err(Refusal::NoMemory),
    };
    if is_name_used(text, stores) {
        return Err(Refusal::Left(rest.len() as u64));
    }
    Ok((name, behind))
}

/// The mode of this byte, if one has it.
fn mode_of_byte(byte: u8) -> Option<Mode>
    ensures { result ≡ mode_with byte }
{
    match byte {
        0 => Some(Mode::Plain),
        1 => Some(Mode::Tx),
        _ => None,
    }
}

/// A mode, and the bytes behind it.
#[tactic(auto, unfolding(crate::specs::Reading::mode_of))]
fn mode(bytes: &[u8]) -> Result<(Mode, &[u8]), Refusal>
    ensures { Gives (λ x. (x.0, x.1.now)) result (mode_of bytes.now) }
{
    let (byte, rest) = split_u8(bytes)?;
    let Some(mode) = mode_of_byte(byte) else {
        return Err(Refusal::Left(bytes.len() as u64));
    };
    Ok((mode, rest))
}

/// A store of this id, but for its id, and the bytes behind it.
#[tactic(auto, unfolding(crate::specs::Reading::described_of))]
pub(crate) fn described<'b>(
    alloc: Global,
    stores: &[BaseStore],
    id: StoreId,
    bytes: &'b [u8],
) -> Result<(BaseStore, &'b [u8]), Refusal>
    ensures { Gives (λ x. (store_as x.0, x.1.now)) result
        (described_of (stores_as stores.now) id.0 bytes.now) }
{
    let (name, rest) = name(alloc, stores, bytes)?;
    let (mode, rest) = mode(rest)?;
    let (prefix, behind) = split_u8(rest)?;
    if prefix as usize > LONGEST_PREFIX {
        return Err(Refusal::Left(rest.len() as u64));
    }
    let store = BaseStore {
        id,
        name,
        mode,
        prefix,
    };
    Ok((store, behind))
}
