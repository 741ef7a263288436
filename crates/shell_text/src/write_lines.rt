//! The lines of transactions, and of those who read and write.
ghost use Rattle.std.specs.Prelude.{◌∷◌};
ghost use Rattle.shell_text.specs.Grammar.{Says};
ghost use Rattle.shell_text.specs.Reading.{IsReading};
ghost use Rattle.shell_text.specs.Texts.{texts};
ghost use Rattle.shell_text.specs.Verbs.{verb_word};

use crate::fields::{of_key, of_pair};
use crate::line::{Line, TextFault};
use crate::verb::Verb;
use std::alloc::Global;

/// Sets a key of a store to a value.
pub(crate) fn put(alloc: Global, rest: &[&[u8]]) -> Result<Line, TextFault>
    ensures { IsReading (λ line. Says line (verb_word Verb.Put ∷ texts rest.now)) result }
{
    let (who, store, key, value) = of_pair(alloc, rest)?;
    Ok(Line::Put(who, store, key, value))
}

/// Deletes a key of a store.
pub(crate) fn del(alloc: Global, rest: &[&[u8]]) -> Result<Line, TextFault>
    ensures { IsReading (λ line. Says line (verb_word Verb.Del ∷ texts rest.now)) result }
{
    let (who, store, key) = of_key(alloc, rest)?;
    Ok(Line::Del(who, store, key))
}

/// Deletes all keys of a store that a prefix covers.
pub(crate) fn pdel(alloc: Global, rest: &[&[u8]]) -> Result<Line, TextFault>
    ensures { IsReading (λ line. Says line (verb_word Verb.Pdel ∷ texts rest.now)) result }
{
    let (who, store, prefix) = of_key(alloc, rest)?;
    Ok(Line::Pdel(who, store, prefix))
}

/// Reads a key of a store.
pub(crate) fn get(alloc: Global, rest: &[&[u8]]) -> Result<Line, TextFault>
    ensures { IsReading (λ line. Says line (verb_word Verb.Get ∷ texts rest.now)) result }
{
    let (who, store, key) = of_key(alloc, rest)?;
    Ok(Line::Get(who, store, key))
}
