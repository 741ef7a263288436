//! The texts of single lines.
ghost use Rattle.std.specs.Prelude.{◌≡◌, ◌++◌, OnOk, OnErr};
ghost use Rattle.shell_text.specs.Replies.{ended, counted, paired};

use crate::append::append;
use hse_io::NoMemory;
use itoa::Buffer;

/// Appends the words and a line feed.
pub(crate) fn append_line(words: &[u8], into: &mut Vec<u8>) -> Result<(), NoMemory>
    ensures written { OnOk result (into.new.items ≡ into.old.items ++ ended words.now) }
    ensures unchanged { OnErr result (into.new.items ≡ into.old.items) }
{
    append(into, &[words, b"\n"])
}

/// Appends the words, other words and a line feed.
pub(crate) fn append_words(words: &[u8], others: &[u8], into: &mut Vec<u8>) -> Result<(), NoMemory>
    ensures written { OnOk result
        (into.new.items ≡ into.old.items ++ ended (words.now ++ others.now)) }
    ensures unchanged { OnErr result (into.new.items ≡ into.old.items) }
{
    append(into, &[words, others, b"\n"])
}

/// Appends the words, the number and a line feed.
pub(crate) fn append_counted(words: &[u8], number: u64, into: &mut Vec<u8>) -> Result<(), NoMemory>
    ensures written { OnOk result
        (into.new.items ≡ into.old.items ++ ended (counted words.now number)) }
    ensures unchanged { OnErr result (into.new.items ≡ into.old.items) }
{
    let mut digits = Buffer::new();
    append(into, &[words, digits.format(number).as_bytes(), b"\n"])
}

/// Appends the words, the two numbers with a space between them and a line feed.
pub(crate) fn append_paired(
    words: &[u8],
    one: u64,
    other: u64,
    into: &mut Vec<u8>,
) -> Result<(), NoMemory>
    ensures written { OnOk result
        (into.new.items ≡ into.old.items ++ ended (paired words.now one other)) }
    ensures unchanged { OnErr result (into.new.items ≡ into.old.items) }
{
    let mut one_digits = Buffer::new();
    let one = one_digits.format(one).as_bytes();
    let mut other_digits = Buffer::new();
    let other = other_digits.format(other).as_bytes();
    append(into, &[words, one, b" ", other, b"\n"])
}
