//! The lines that take the turn.
ghost use Rattle.std.specs.Prelude.{[], ◌∷◌, codes};
ghost use Rattle.shell_text.specs.Grammar.{AreWords, Says, taking};
ghost use Rattle.shell_text.specs.Reading.{IsReading};
ghost use Rattle.shell_text.specs.Texts.{texts};
ghost use Rattle.shell_text.specs.Verbs.{verb_word};

use crate::fields::{of_store, one_name};
use crate::line::{Line, TakeText, TextFault};
use crate::verb::Verb;
use std::alloc::Global;

/// Takes the turn.
pub(crate) fn take(alloc: Global, rest: &[&[u8]]) -> Result<Line, TextFault>
    ensures { IsReading (λ line. Says line (verb_word Verb.Take ∷ texts rest.now)) result }
{
    let wish = wish(alloc, rest)?;
    Ok(Line::Take(wish))
}

/// What the turn is taken for.
fn wish(alloc: Global, words: &[&[u8]]) -> Result<TakeText, TextFault>
    ensures { IsReading (λ wish. AreWords (taking wish) (texts words.now)) result }
{
    let [kind, rest @ ..] = words else {
        return Err(TextFault::BadLine);
    };
    wish_of(alloc, kind, rest)
}

/// What the turn is taken for, by the first word of it and the others.
fn wish_of(alloc: Global, kind: &[u8], rest: &[&[u8]]) -> Result<TakeText, TextFault>
    ensures { IsReading (λ wish. AreWords (taking wish) (kind.now ∷ texts rest.now)) result }
{
    match kind {
        b"sync" => take_sync(rest),
        b"create" => take_create(alloc, rest),
        b"drop" => take_drop(alloc, rest),
        _ => Err(TextFault::BadLine),
    }
}

/// To make all commits safe.
fn take_sync(rest: &[&[u8]]) -> Result<TakeText, TextFault>
    ensures { IsReading (λ wish. AreWords (taking wish) (codes "sync" ∷ texts rest.now)) result }
{
    if rest.is_empty() {
        Ok(TakeText::Sync)
    } else {
        Err(TextFault::BadLine)
    }
}

/// To make a store.
fn take_create(alloc: Global, rest: &[&[u8]]) -> Result<TakeText, TextFault>
    ensures { IsReading (λ wish. AreWords (taking wish) (codes "create" ∷ texts rest.now)) result }
{
    let (store, mode, prefix) = of_store(alloc, rest)?;
    Ok(TakeText::Create(store, mode, prefix))
}

/// To drop a store.
fn take_drop(alloc: Global, rest: &[&[u8]]) -> Result<TakeText, TextFault>
    ensures { IsReading (λ wish. AreWords (taking wish) (codes "drop" ∷ texts rest.now)) result }
{
    let store = one_name(alloc, rest)?;
    Ok(TakeText::Drop(store))
}
