//! The words of a line, and what each stands for.
ghost use Rattle.std.specs.Prelude.{◌≡◌, ◌≢◌, codes};
ghost use Rattle.shell_text.specs.Reading.{IsReading};
ghost use Rattle.shell_text.specs.Words.{IsActor, IsItem, IsNameWord, IsNumber, direction_word, mode_word};

use crate::line::{Actor, TextFault};
use crate::listed::Item;
use crate::plain::{MARK, is_plain};
use hex::FromHexError;
use hse_rows::{Mode, NameFault, StoreName};
use itoa::Buffer;
use std::alloc::Global;
use std::str;

/// The name that a word is.
pub(crate) fn name(alloc: Global, word: &[u8]) -> Result<StoreName, TextFault>
    ensures { IsReading (λ name. IsNameWord word.now name) result }
{
    match StoreName::new(alloc, word) {
        Ok(name) => Ok(name),
        Err(NameFault::BadName) => Err(TextFault::BadLine),
        Err(NameFault::NoMemory) => Err(TextFault::NoMemory),
    }
}

/// The bytes that an item stands for.
pub(crate) fn item(alloc: Global, word: &[u8]) -> Result<Item, TextFault>
    ensures { IsReading (λ bytes. IsItem word.now bytes) result }
{
    if is_plain(word) {
        return match Vec::from_slice(alloc, word) {
            Ok(bytes) => Ok(Item::of(bytes)),
            Err(_) => Err(TextFault::NoMemory),
        };
    }
    let Some(digits) = word.strip_prefix(MARK) else {
        return Err(TextFault::BadLine);
    };
    match hex::decode(alloc, digits) {
        Ok(bytes) => Ok(Item::of(bytes)),
        Err(FromHexError::OutOfMemory) => Err(TextFault::NoMemory),
        Err(_) => Err(TextFault::BadLine),
    }
}

/// The number that a word is: the one that is printed so, hence with no sign and no leading zero.
pub(crate) fn number(word: &[u8]) -> Result<u64, TextFault>
    ensures { IsReading (λ number. IsNumber word.now number) result }
{
    let Ok(text) = str::from_utf8(word) else {
        return Err(TextFault::BadLine);
    };
    let Ok(number) = text.parse::<u64>() else {
        return Err(TextFault::BadLine);
    };
    let mut digits = Buffer::new();
    if digits.format(number).as_bytes() == word {
        Ok(number)
    } else {
        Err(TextFault::BadLine)
    }
}

/// The mode that a word names.
pub(crate) fn mode(word: &[u8]) -> Result<Mode, TextFault>
    ensures { IsReading (λ mode. word.now ≡ mode_word mode) result }
{
    match word {
        b"tx" => Ok(Mode::Tx),
        b"plain" => Ok(Mode::Plain),
        _ => Err(TextFault::BadLine),
    }
}

/// Whether a word names the reverse direction.
pub(crate) fn direction(word: &[u8]) -> Result<bool, TextFault>
    ensures { IsReading (λ reverse. word.now ≡ direction_word reverse) result }
{
    match word {
        b"fwd" => Ok(false),
        b"rev" => Ok(true),
        _ => Err(TextFault::BadLine),
    }
}

/// Who a word says reads or writes.
pub(crate) fn actor(alloc: Global, word: &[u8]) -> Result<Actor, TextFault>
    ensures { IsReading (λ actor. IsActor word.now actor) result }
{
    match word {
        b"@" => Ok(Actor::At),
        _ => named_actor(alloc, word),
    }
}

/// The transaction whose name a word is.
fn named_actor(alloc: Global, word: &[u8]) -> Result<Actor, TextFault>
    requires { word.now ≢ codes "@" }
    ensures { IsReading (λ actor. IsActor word.now actor) result }
{
    let name = name(alloc, word)?;
    Ok(Actor::Name(name))
}
