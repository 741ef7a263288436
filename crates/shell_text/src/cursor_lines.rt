//! The lines of cursors.
ghost use Rattle.std.specs.Prelude.{◌∷◌};
ghost use Rattle.shell_text.specs.Grammar.{Says};
ghost use Rattle.shell_text.specs.Reading.{IsReading};
ghost use Rattle.shell_text.specs.Texts.{texts};
ghost use Rattle.shell_text.specs.Verbs.{verb_word};

use crate::fields::{of_cursor, of_range, of_seek};
use crate::line::{Line, TextFault};
use crate::verb::Verb;
use std::alloc::Global;

/// Makes a cursor.
pub(crate) fn cursor(alloc: Global, rest: &[&[u8]]) -> Result<Line, TextFault>
    ensures { IsReading (λ line. Says line (verb_word Verb.Cursor ∷ texts rest.now)) result }
{
    let (cursor, who, store, reverse, filter) = of_cursor(alloc, rest)?;
    Ok(Line::Cursor(cursor, who, store, reverse, filter))
}

/// Moves a cursor to a key.
pub(crate) fn seek(alloc: Global, rest: &[&[u8]]) -> Result<Line, TextFault>
    ensures { IsReading (λ line. Says line (verb_word Verb.Seek ∷ texts rest.now)) result }
{
    let (cursor, key) = of_seek(alloc, rest)?;
    Ok(Line::Seek(cursor, key))
}

/// Moves a cursor to the first key of a range.
pub(crate) fn seek_range(alloc: Global, rest: &[&[u8]]) -> Result<Line, TextFault>
    ensures { IsReading (λ line. Says line (verb_word Verb.SeekRange ∷ texts rest.now)) result }
{
    let (cursor, first, last) = of_range(alloc, rest)?;
    Ok(Line::SeekRange(cursor, first, last))
}
