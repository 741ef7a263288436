//! The buffer of one line.
ghost use Rattle.std.specs.Prelude.{◌≡◌, ℕ, ◌+◌, ◌<◌, ◌≤◌, ◌++◌, [], length, take, IfOk, IfSome, IfNone};
ghost use Rattle.hse_io.specs.Lines.{first_line};
ghost use Rattle.hse_io.specs.Longest.{longest_line};

use crate::LONGEST_LINE;
use memchr::memchr;
use std::alloc::{AllocError, AllocFailed, Global};
use std::marker::Model;
use thiserror::Error;

/// Memory was refused.
#[derive(Clone, Copy, Debug, PartialEq, Eq, Error)]
#[error("out of memory")]
pub struct NoMemory;

impl From<AllocError> for NoMemory {
    fn from(_: AllocError) -> Self {
        NoMemory
    }
}

impl<T: Drop> From<AllocFailed<T>> for NoMemory {
    fn from(_: AllocFailed<T>) -> Self {
        NoMemory
    }
}

/// The bytes of one line, in room that is reserved once for the longest line.
#[derive(Drop)]
pub struct Line {
    text: Vec<u8>,
}

impl Model for Line {
    ghost use Rattle.std.specs.Prelude.{List, ℕ, ◌≤◌, length, vec_capacity};
    ghost use Rattle.hse_io.specs.Longest.{longest_line};

    ghost Value = { List ℕ };

    ghost view = { λ l. l.text.items };

    ghost invariant = { λ l. (longest_line ≤ vec_capacity l.text)
        × (length l.text.items ≤ longest_line) };
}

impl Line {
    /// An empty line, with room for the longest one.
    pub fn new(alloc: Global) -> Result<Line, NoMemory>
        ensures empty { IfOk result (λ line. line ≡ []) }
    {
        Ok(Line {
            text: Vec::with_capacity(alloc, LONGEST_LINE)?,
        })
    }

    /// The line's bytes.
    pub fn bytes(&self) -> &[u8]
        ensures value { result.now ≡ self.now }
        ensures fits { length self.now ≤ longest_line }
    {
        &self.text
    }

    /// Drops all bytes of the line, and keeps its room.
    pub(crate) fn clear(&mut self)
        ensures { self.new ≡ [] }
    {
        self.text.clear();
    }

    /// Appends the bytes before the first line feed, or all where there is none, and answers how
    /// many they are. `None`: the line would be too long, and stays as it was.
    pub(crate) fn append_line(&mut self, bytes: &[u8]) -> Option<usize>
        ensures count { IfSome result (λ n. n ≡ length (first_line bytes.now)) }
        ensures appended { IfSome result (λ _. self.new ≡ self.old ++ first_line bytes.now) }
        ensures too_long { IfNone result
            (longest_line < length self.old + length (first_line bytes.now)) }
        ensures kept { IfNone result (self.new ≡ self.old) }
        ensures fits { length self.new ≤ longest_line }
    {
        let count = line_length(bytes);
        if count > LONGEST_LINE - self.text.len() {
            return None;
        }
        self.text.extend_from_slice(&bytes[..count]).unwrap();
        Some(count)
    }
}

/// How many bytes stand before the first line feed, or in all where there is none.
fn line_length(bytes: &[u8]) -> usize
    ensures value { result ≡ length (first_line bytes.now) }
    ensures within { result ≤ length bytes.now }
    ensures taken { take result bytes.now ≡ first_line bytes.now }
{
    memchr(b'\n', bytes).unwrap_or(bytes.len())
}
