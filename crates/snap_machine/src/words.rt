//! The words of a line, and what each may stand for.

use crate::text::is_plain;
use hse_io::NoMemory;
use std::alloc::Global;

/// The most bytes of a name.
const LONGEST_NAME: usize = 31;

/// The words of a line, which single spaces separate.
pub(crate) fn words_of(alloc: Global, line: &[u8]) -> Result<Vec<&[u8]>, NoMemory> {
    let mut words = Vec::new(alloc);
    for word in line.split(|byte| *byte == b' ') {
        words.push(word)?;
    }
    Ok(words)
}

/// Whether a word is a name.
pub(crate) fn is_name(word: &[u8]) -> bool {
    !word.is_empty() && word.len() <= LONGEST_NAME && word.iter().all(|byte| is_name_byte(*byte))
}

fn is_name_byte(byte: u8) -> bool {
    byte.is_ascii_alphanumeric() || byte == b'-' || byte == b'_'
}

/// The number that a word is: decimal digits below 2^64, without a leading zero.
pub(crate) fn number_of(word: &[u8]) -> Option<u64> {
    if word.len() > 1 && word.starts_with(b"0") {
        return None;
    }
    if word.is_empty() {
        return None;
    }
    let mut number: u64 = 0;
    for byte in word {
        if !byte.is_ascii_digit() {
            return None;
        }
        let digit = byte.wrapping_sub(b'0');
        number = number.checked_mul(10)?.checked_add(u64::from(digit))?;
    }
    Some(number)
}

/// The bytes that an item stands for, or none where the word is no item.
pub(crate) fn item_of(alloc: Global, word: &[u8]) -> Result<Option<Vec<u8>>, NoMemory> {
    if is_plain(word) {
        return Ok(Some(Vec::from_slice(alloc, word)?));
    }
    let Some(digits) = word.strip_prefix(b"x:".as_slice()) else {
        return Ok(None);
    };
    bytes_of(alloc, digits)
}

/// The bytes of so many pairs of hexadecimal digits.
fn bytes_of(alloc: Global, digits: &[u8]) -> Result<Option<Vec<u8>>, NoMemory> {
    let mut bytes = Vec::new(alloc);
    let mut high = None;
    for byte in digits {
        let Some(low) = digit_of(*byte) else {
            return Ok(None);
        };
        match high {
            None => high = Some(low),
            Some(high_digit) => {
                bytes.push(joined(high_digit, low))?;
                high = None;
            }
        }
    }
    if high.is_some() {
        return Ok(None);
    }
    Ok(Some(bytes))
}

fn joined(high: u8, low: u8) -> u8 {
    high.wrapping_mul(16).wrapping_add(low)
}

fn digit_of(byte: u8) -> Option<u8> {
    match byte {
        b'0'..=b'9' => Some(byte.wrapping_sub(b'0')),
        b'a'..=b'f' => Some(byte.wrapping_sub(b'a').wrapping_add(10)),
        b'A'..=b'F' => Some(byte.wrapping_sub(b'A').wrapping_add(10)),
        _ => None,
    }
}
