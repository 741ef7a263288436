//! The text of a reply.

use hse_io::NoMemory;
use itoa::Buffer;
use std::alloc::Global;

/// Words that are separated by single spaces, in lines that each end with a line feed.
#[derive(Drop)]
pub(crate) struct Text {
    bytes: Vec<u8>,
    begins: bool,
}

/// A byte that stands for itself in a word.
pub(crate) fn is_plain_byte(byte: u8) -> bool {
    0x21 <= byte && byte <= 0x7e
}

/// Whether bytes are printed as they are: a word that does not begin as one of digits does.
pub(crate) fn is_plain(bytes: &[u8]) -> bool {
    !bytes.is_empty() && !bytes.starts_with(b"x:") && bytes.iter().all(|byte| is_plain_byte(*byte))
}

impl Text {
    /// No line yet.
    pub(crate) fn new(alloc: Global) -> Text {
        Text {
            bytes: Vec::new(alloc),
            begins: true,
        }
    }

    /// One word more in the line.
    pub(crate) fn word(&mut self, word: &[u8]) -> Result<(), NoMemory> {
        if !self.begins {
            self.bytes.push(b' ')?;
        }
        self.begins = false;
        self.bytes.extend_from_slice(word)?;
        Ok(())
    }

    /// A number as a word.
    pub(crate) fn number(&mut self, number: u64) -> Result<(), NoMemory> {
        let mut digits = Buffer::new();
        self.word(digits.format(number).as_bytes())
    }

    /// Bytes as a word: themselves where they may be, else in hexadecimal digits.
    pub(crate) fn item(&mut self, bytes: &[u8]) -> Result<(), NoMemory> {
        if is_plain(bytes) {
            return self.word(bytes);
        }
        self.word(b"x:")?;
        for byte in bytes {
            self.bytes.push(digit(*byte / 16))?;
            self.bytes.push(digit(*byte % 16))?;
        }
        Ok(())
    }

    /// The end of a line.
    pub(crate) fn line(&mut self) -> Result<(), NoMemory> {
        self.begins = true;
        self.bytes.push(b'\n')?;
        Ok(())
    }

    /// The text, after the end of its last line.
    pub(crate) fn end(self) -> Result<Vec<u8>, NoMemory> {
        let mut text = self;
        text.line()?;
        Ok(text.bytes)
    }

    /// The text, whose last line has its end.
    pub(crate) fn ended(self) -> Vec<u8> {
        self.bytes
    }
}

/// The lower-case hexadecimal digit of a number below 16.
fn digit(number: u8) -> u8 {
    if number < 10 {
        return b'0'.wrapping_add(number);
    }
    b'a'.wrapping_add(number.wrapping_sub(10))
}

/// A line of words alone.
pub(crate) fn words_line(alloc: Global, words: &[u8]) -> Result<Vec<u8>, NoMemory> {
    let mut text = Text::new(alloc);
    text.word(words)?;
    text.end()
}

/// A line of words and a number.
pub(crate) fn number_line(alloc: Global, words: &[u8], number: u64) -> Result<Vec<u8>, NoMemory> {
    let mut text = Text::new(alloc);
    text.word(words)?;
    text.number(number)?;
    text.end()
}

/// A line of words and bytes.
pub(crate) fn item_line(alloc: Global, words: &[u8], item: &[u8]) -> Result<Vec<u8>, NoMemory> {
    let mut text = Text::new(alloc);
    text.word(words)?;
    text.item(item)?;
    text.end()
}
