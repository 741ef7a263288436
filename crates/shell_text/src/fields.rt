//! The words behind the verb of a line.
ghost use Rattle.std.specs.Prelude.{[], ◌∷◌};
ghost use Rattle.shell_text.specs.Grammar.{AreWords};
ghost use Rattle.shell_text.specs.Reading.{IsReading};
ghost use Rattle.shell_text.specs.Texts.{texts};
ghost use Rattle.shell_text.specs.Words.{actor_of, direction, item, mode_of, name, number};

use crate::line::{Actor, TextFault};
use crate::listed::Item;
use crate::words::{actor, direction, item, mode, name, number};
use hse_rows::{Mode, StoreName};
use std::alloc::Global;

/// A name.
pub(crate) fn one_name(alloc: Global, words: &[&[u8]]) -> Result<StoreName, TextFault>
    ensures { IsReading (λ of. AreWords (name of ∷ []) (texts words.now)) result }
{
    let [text] = words else {
        return Err(TextFault::BadLine);
    };
    let text = name(alloc, text)?;
    Ok(text)
}

/// A store's name, its mode and the length of its prefixes.
pub(crate) fn of_store(alloc: Global, words: &[&[u8]]) -> Result<(StoreName, Mode, u64), TextFault>
    ensures { IsReading (λ of.
        AreWords (name of.0 ∷ mode_of of.1 ∷ number of.2 ∷ []) (texts words.now)) result }
{
    let [store, access, prefix] = words else {
        return Err(TextFault::BadLine);
    };
    let store = name(alloc, store)?;
    let access = mode(access)?;
    let prefix = number(prefix)?;
    Ok((store, access, prefix))
}

/// Who asks, a store's name and a key or a prefix.
pub(crate) fn of_key(alloc: Global, words: &[&[u8]]) -> Result<(Actor, StoreName, Item), TextFault>
    ensures { IsReading (λ of.
        AreWords (actor_of of.0 ∷ name of.1 ∷ item of.2 ∷ []) (texts words.now)) result }
{
    let [who, rest @ ..] = words else {
        return Err(TextFault::BadLine);
    };
    let who = actor(alloc, who)?;
    let (store, key) = of_seek(alloc, rest)?;
    Ok((who, store, key))
}

/// Who asks, a store's name, a key and a value.
pub(crate) fn of_pair(
    alloc: Global,
    words: &[&[u8]],
) -> Result<(Actor, StoreName, Item, Item), TextFault>
    ensures { IsReading (λ of.
        AreWords (actor_of of.0 ∷ name of.1 ∷ item of.2 ∷ item of.3 ∷ []) (texts words.now)) result }
{
    let [who, store, key, value] = words else {
        return Err(TextFault::BadLine);
    };
    let who = actor(alloc, who)?;
    let store = name(alloc, store)?;
    let key = item(alloc, key)?;
    let value = item(alloc, value)?;
    Ok((who, store, key, value))
}

/// A cursor's name, who makes it, a store's name, whether it is a reverse one and its filter.
pub(crate) fn of_cursor(
    alloc: Global,
    words: &[&[u8]],
) -> Result<(StoreName, Actor, StoreName, bool, Item), TextFault>
    ensures { IsReading (λ of.
        AreWords (name of.0 ∷ actor_of of.1 ∷ name of.2 ∷ direction of.3 ∷ item of.4 ∷ []) (texts words.now)) result }
{
    let [cursor, who, store, reverse, filter] = words else {
        return Err(TextFault::BadLine);
    };
    let cursor = name(alloc, cursor)?;
    let who = actor(alloc, who)?;
    let store = name(alloc, store)?;
    let reverse = direction(reverse)?;
    let filter = item(alloc, filter)?;
    Ok((cursor, who, store, reverse, filter))
}

/// A cursor's name and a key.
pub(crate) fn of_seek(alloc: Global, words: &[&[u8]]) -> Result<(StoreName, Item), TextFault>
    ensures { IsReading (λ of. AreWords (name of.0 ∷ item of.1 ∷ []) (texts words.now)) result }
{
    let [cursor, key] = words else {
        return Err(TextFault::BadLine);
    };
    let cursor = name(alloc, cursor)?;
    let key = item(alloc, key)?;
    Ok((cursor, key))
}

/// A cursor's name, a first key and a last one.
pub(crate) fn of_range(alloc: Global, words: &[&[u8]]) -> Result<(StoreName, Item, Item), TextFault>
    ensures { IsReading (λ of.
        AreWords (name of.0 ∷ item of.1 ∷ item of.2 ∷ []) (texts words.now)) result }
{
    let [cursor, first, last] = words else {
        return Err(TextFault::BadLine);
    };
    let cursor = name(alloc, cursor)?;
    let first = item(alloc, first)?;
    let last = item(alloc, last)?;
    Ok((cursor, first, last))
}
