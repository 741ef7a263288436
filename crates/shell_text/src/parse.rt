//! Lines, read.
ghost use Rattle.std.specs.Prelude.{◌≡◌, ◌↔◌, [], ◌∷◌, IsTrue};
ghost use Rattle.shell_text.specs.Grammar.{Says, IsSilent, Means};
ghost use Rattle.shell_text.specs.Reading.{IsReading};
ghost use Rattle.shell_text.specs.Texts.{texts};
ghost use Rattle.shell_text.specs.Verbs.{verb_word};

use crate::cursor_lines::{cursor, seek, seek_range};
use crate::line::{Line, TextFault};
use crate::name_lines::named;
use crate::split::words_of;
use crate::store_lines::create_store;
use crate::take_lines::take;
use crate::verb::{Verb, verb_of};
use crate::write_lines::{del, get, pdel, put};
use std::alloc::Global;

/// What a line asks for. `BadLine` comes exactly where the line is outside the grammar. A silent line takes no
/// memory.
pub fn parse_line(alloc: Global, bytes: &[u8]) -> Result<Line, TextFault>
    ensures meaning { IsReading (λ line. Means bytes.now line) result }
    ensures silent { IsSilent bytes.now → result ≡ Ok Line.Silent }
{
    if is_silent(bytes) {
        return Ok(Line::Silent);
    }
    match words_of(alloc, bytes) {
        Ok(words) => read(alloc, &words),
        Err(_) => Err(TextFault::NoMemory),
    }
}

/// Whether a line is empty or a comment.
fn is_silent(line: &[u8]) -> bool
    ensures { IsTrue result ↔ IsSilent line.now }
{
    match line {
        [] => true,
        [first, ..] => *first == b'#',
    }
}

/// What the words of a line ask for.
fn read(alloc: Global, words: &[&[u8]]) -> Result<Line, TextFault>
    ensures { IsReading (λ line. Says line (texts words.now)) result }
{
    let [first, rest @ ..] = words else {
        return Err(TextFault::BadLine);
    };
    match verb_of(first) {
        Some(verb) => read_rest(alloc, verb, rest),
        None => Err(TextFault::BadLine),
    }
}

/// What a verb and the words behind it ask for.
fn read_rest(alloc: Global, verb: Verb, rest: &[&[u8]]) -> Result<Line, TextFault>
    ensures { IsReading (λ line. Says line (verb_word verb ∷ texts rest.now)) result }
{
    match verb {
        Verb::CreateStore => create_store(alloc, rest),
        Verb::DropStore => named(alloc, verb, rest),
        Verb::Begin => named(alloc, verb, rest),
        Verb::Put => put(alloc, rest),
        Verb::Del => del(alloc, rest),
        Verb::Pdel => pdel(alloc, rest),
        Verb::Get => get(alloc, rest),
        Verb::Commit => named(alloc, verb, rest),
        Verb::Abort => named(alloc, verb, rest),
        Verb::Cursor => cursor(alloc, rest),
        Verb::Seek => seek(alloc, rest),
        Verb::SeekRange => seek_range(alloc, rest),
        Verb::Read => named(alloc, verb, rest),
        Verb::Update => named(alloc, verb, rest),
        Verb::CloseCursor => named(alloc, verb, rest),
        Verb::Take => take(alloc, rest),
        Verb::Stores => alone(rest, Line::Stores),
        Verb::Write => alone(rest, Line::Write),
        Verb::End => alone(rest, Line::End),
        Verb::Sync => alone(rest, Line::Sync),
        Verb::Info => alone(rest, Line::Info),
        Verb::Reopen => alone(rest, Line::Reopen),
    }
}

/// The line of a verb that stands alone.
fn alone(rest: &[&[u8]], line: Line) -> Result<Line, TextFault>
    ensures { IsReading (λ read. (read ≡ line) × (texts rest.now ≡ [])) result }
{
    if rest.is_empty() {
        Ok(line)
    } else {
        Err(TextFault::BadLine)
    }
}
