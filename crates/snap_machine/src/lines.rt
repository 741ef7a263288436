//! Lines, read.

use crate::change::Change;
use crate::line::{Actor, Line, Take};
use crate::pairs::Pair;
use crate::state::Mode;
use crate::words::{is_name, item_of, number_of, words_of};
use hse_io::NoMemory;
use std::alloc::Global;

/// Why a line is not read.
#[derive(Drop)]
pub(crate) enum BadLine {
    Words,
    NoMemory,
}

impl From<NoMemory> for BadLine {
    fn from(_: NoMemory) -> BadLine {
        BadLine::NoMemory
    }
}

/// What a line asks for.
pub(crate) fn line_of(alloc: Global, line: &[u8]) -> Result<Line<'_>, BadLine> {
    if line.is_empty() || line.starts_with(b"#") {
        return Ok(Line::Silent);
    }
    let words = words_of(alloc, line)?;
    match words.as_slice() {
        [verb] => alone(verb),
        [verb, one] => with_one(verb, one),
        [verb, one, two] => with_two(alloc, verb, one, two),
        [verb, one, two, three] => with_three(alloc, verb, one, two, three),
        [verb, one, two, three, four] => with_four(alloc, verb, one, two, three, four),
        [verb, one, two, three, four, five] => {
            cursor(alloc, verb, one, two, (three, four, five))
        }
        _ => Err(BadLine::Words),
    }
}

fn alone<'a>(verb: &[u8]) -> Result<Line<'a>, BadLine> {
    match verb {
        b"stores" => Ok(Line::Stores),
        b"write" => Ok(Line::WriteTurn),
        b"end" => Ok(Line::End),
        b"sync" => Ok(Line::Whole(Take::Sync)),
        b"freeze" => Ok(Line::Whole(Take::Freeze)),
        b"next" => Ok(Line::Next),
        b"info" => Ok(Line::Info),
        b"reopen" => Ok(Line::Reopen),
        _ => Err(BadLine::Words),
    }
}

fn with_one<'a>(verb: &[u8], one: &'a [u8]) -> Result<Line<'a>, BadLine> {
    if verb == b"take".as_slice() {
        return match one {
            b"sync" => Ok(Line::Take(Take::Sync)),
            b"freeze" => Ok(Line::Take(Take::Freeze)),
            _ => Err(BadLine::Words),
        };
    }
    let name = name(one)?;
    match verb {
        b"drop-store" => Ok(Line::Whole(Take::Drop(name))),
        b"begin" => Ok(Line::Begin(name)),
        b"commit" => Ok(Line::Commit(name)),
        b"abort" => Ok(Line::Abort(name)),
        b"read" => Ok(Line::Read(name)),
        b"update" => Ok(Line::Update(name)),
        b"close-cursor" => Ok(Line::CloseCursor(name)),
        b"tree" => Ok(Line::Tree(name)),
        _ => Err(BadLine::Words),
    }
}

fn with_two<'a>(
    alloc: Global,
    verb: &[u8],
    one: &'a [u8],
    two: &'a [u8],
) -> Result<Line<'a>, BadLine> {
    match verb {
        b"take" if one == b"drop".as_slice() => Ok(Line::Take(Take::Drop(name(two)?))),
        b"seek" => Ok(Line::Seek(name(one)?, item(alloc, two)?)),
        _ => Err(BadLine::Words),
    }
}

fn with_three<'a>(
    alloc: Global,
    verb: &[u8],
    one: &'a [u8],
    two: &'a [u8],
    three: &'a [u8],
) -> Result<Line<'a>, BadLine> {
    match verb {
        b"create-store" => Ok(Line::Whole(creation(one, two, three)?)),
        b"seek-range" => {
            let cursor = name(one)?;
            let first = item(alloc, two)?;
            let last = item(alloc, three)?;
            Ok(Line::SeekRange(cursor, first, last))
        }
        b"get" => {
            let who = actor(one)?;
            let store = name(two)?;
            Ok(Line::Get(who, store, item(alloc, three)?))
        }
        b"del" => {
            let who = actor(one)?;
            let store = name(two)?;
            Ok(Line::Write(who, store, Change::Del(item(alloc, three)?)))
        }
        b"pdel" => {
            let who = actor(one)?;
            let store = name(two)?;
            Ok(Line::Write(who, store, Change::PDel(item(alloc, three)?)))
        }
        _ => Err(BadLine::Words),
    }
}

fn with_four<'a>(
    alloc: Global,
    verb: &[u8],
    one: &'a [u8],
    two: &'a [u8],
    three: &'a [u8],
    four: &'a [u8],
) -> Result<Line<'a>, BadLine> {
    match verb {
        b"take" if one == b"create".as_slice() => Ok(Line::Take(creation(two, three, four)?)),
        b"put" => {
            let who = actor(one)?;
            let store = name(two)?;
            let key = item(alloc, three)?;
            let value = item(alloc, four)?;
            Ok(Line::Write(who, store, Change::Put(Pair { key, value })))
        }
        _ => Err(BadLine::Words),
    }
}

fn cursor<'a>(
    alloc: Global,
    verb: &[u8],
    one: &'a [u8],
    two: &'a [u8],
    rest: (&'a [u8], &'a [u8], &'a [u8]),
) -> Result<Line<'a>, BadLine> {
    if verb != b"cursor".as_slice() {
        return Err(BadLine::Words);
    }
    let (three, four, five) = rest;
    let cursor = name(one)?;
    let who = actor(two)?;
    let store = name(three)?;
    let reverse = match four {
        b"fwd" => false,
        b"rev" => true,
        _ => return Err(BadLine::Words),
    };
    Ok(Line::Cursor(cursor, who, store, reverse, item(alloc, five)?))
}

fn creation<'a>(store: &'a [u8], mode: &[u8], prefix: &[u8]) -> Result<Take<'a>, BadLine> {
    let store = name(store)?;
    let mode = match mode {
        b"plain" => Mode::Plain,
        b"tx" => Mode::Tx,
        _ => return Err(BadLine::Words),
    };
    match number_of(prefix) {
        Some(prefix) => Ok(Take::Create(store, mode, prefix)),
        None => Err(BadLine::Words),
    }
}

fn name(word: &[u8]) -> Result<&[u8], BadLine> {
    if is_name(word) {
        return Ok(word);
    }
    Err(BadLine::Words)
}

fn actor(word: &[u8]) -> Result<Actor<'_>, BadLine> {
    if word == b"@".as_slice() {
        return Ok(Actor::At);
    }
    Ok(Actor::Named(name(word)?))
}

fn item(alloc: Global, word: &[u8]) -> Result<Vec<u8>, BadLine> {
    match item_of(alloc, word)? {
        Some(bytes) => Ok(bytes),
        None => Err(BadLine::Words),
    }
}
