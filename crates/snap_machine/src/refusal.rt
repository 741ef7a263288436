//! Why a line is refused, and the words for it.

use crate::text::Text;
use hse_io::NoMemory;
use std::alloc::{AllocError, AllocFailed, Global};

/// Why a line is refused. A name is printed as it was written.
#[derive(Drop)]
pub(crate) enum Refusal {
    /// The words stand alone.
    Plain(&'static [u8]),
    /// A number stands behind them.
    Number(&'static [u8], u64),
    /// What is needed, and the room that there is.
    Room(&'static [u8], u64, u64),
    /// A name stands behind them.
    Name(&'static [u8], Vec<u8>),
    /// Memory was refused for the answer.
    NoMemory,
}

impl From<NoMemory> for Refusal {
    fn from(_: NoMemory) -> Refusal {
        Refusal::NoMemory
    }
}

impl From<AllocError> for Refusal {
    fn from(_: AllocError) -> Refusal {
        Refusal::NoMemory
    }
}

impl<T: Drop> From<AllocFailed<T>> for Refusal {
    fn from(_: AllocFailed<T>) -> Refusal {
        Refusal::NoMemory
    }
}

/// Refuses with these words alone where the test holds.
pub(crate) fn refuse_if(test: bool, words: &'static [u8]) -> Result<(), Refusal> {
    if test {
        return Err(Refusal::Plain(words));
    }
    Ok(())
}

/// Refuses a length outside its limits with the length.
pub(crate) fn refuse_length(
    words: &'static [u8],
    length: u64,
    least: u64,
    most: u64,
) -> Result<(), Refusal> {
    if length < least || most < length {
        return Err(Refusal::Number(words, length));
    }
    Ok(())
}

/// Refuses with need and room where the need is greater.
pub(crate) fn refuse_need(words: &'static [u8], need: u64, room: u64) -> Result<(), Refusal> {
    if room < need {
        return Err(Refusal::Room(words, need, room));
    }
    Ok(())
}

/// The line that says why.
pub(crate) fn refusal_text(alloc: Global, refusal: &Refusal) -> Result<Vec<u8>, NoMemory> {
    let mut text = Text::new(alloc);
    match refusal {
        Refusal::Plain(words) => text.word(words)?,
        Refusal::Number(words, number) => {
            text.word(words)?;
            text.number(*number)?;
        }
        Refusal::Room(words, need, room) => {
            text.word(words)?;
            text.number(*need)?;
            text.number(*room)?;
        }
        Refusal::Name(words, name) => {
            text.word(words)?;
            text.word(name.as_slice())?;
        }
        Refusal::NoMemory => return Err(NoMemory),
    }
    text.end()
}
