//! Replies, and their texts.
ghost use Rattle.std.specs.Prelude.{◌≡◌, [], ◌∷◌, ◌++◌, decimal, OnOk, OnErr};
ghost use Rattle.hse_shell.specs.Replies.{answer_line, opened_text, closed_text, not_formed_text};
ghost use Rattle.hse_shell.specs.ReplyView.{answer_of};

use hse_fields::put_pieces;
use hse_io::NoMemory;
use itoa::Buffer;

/// The reply to a line.
#[derive(Clone, Copy)]
pub(crate) enum Reply<'a> {
    /// Done, under this number.
    Ok(u64),
    /// The value of a key.
    Value(&'a [u8]),
    /// The key has no value.
    None,
    /// The line is outside the grammar.
    BadLine,
    /// Memory was refused.
    NoMemory,
    /// A key of this length is refused.
    KeyLength(u64),
    /// The log has too little room: the bytes needed, and the bytes there.
    LogFull(u64, u64),
}

/// Appends the reply's text and a line feed. Where memory is refused nothing is appended.
pub(crate) fn print(reply: &Reply<'_>, into: &mut Vec<u8>) -> Result<(), NoMemory>
    ensures written { OnOk result
        (into.new.items ≡ into.old.items ++ answer_line (answer_of reply.now)) }
    ensures unchanged { OnErr result (into.new.items ≡ into.old.items) }
{
    match reply {
        Reply::Ok(number) => numbered_line(b"ok ", *number, into),
        Reply::Value(bytes) => put_pieces(into, &[b"value ", bytes, b"\n"]),
        Reply::None => put_pieces(into, &[b"none\n"]),
        Reply::BadLine => put_pieces(into, &[b"err line\n"]),
        Reply::NoMemory => put_pieces(into, &[b"err memory\n"]),
        Reply::KeyLength(bytes) => numbered_line(b"err key-length ", *bytes, into),
        Reply::LogFull(need, room) => {
            let mut need_digits = Buffer::new();
            let need = need_digits.format(*need).as_bytes();
            let mut room_digits = Buffer::new();
            let room = room_digits.format(*room).as_bytes();
            put_pieces(into, &[b"err log-full ", need, b" ", room, b"\n"])
        }
    }
}

/// Appends the line that a run begins with, once its store is open at this number. Where memory is
/// refused nothing is appended.
pub(crate) fn opened_line(number: u64, into: &mut Vec<u8>) -> Result<(), NoMemory>
    ensures written { OnOk result (into.new.items ≡ into.old.items ++ opened_text number) }
    ensures unchanged { OnErr result (into.new.items ≡ into.old.items) }
{
    numbered_line(b"opened ", number, into)
}

/// Appends the line that a run ends with, at this number. Where memory is refused nothing is
/// appended.
pub(crate) fn closed_line(number: u64, into: &mut Vec<u8>) -> Result<(), NoMemory>
    ensures written { OnOk result (into.new.items ≡ into.old.items ++ closed_text number) }
    ensures unchanged { OnErr result (into.new.items ≡ into.old.items) }
{
    numbered_line(b"closed ", number, into)
}

/// Appends the line of a run whose device is refused at this place of its log. Where memory is
/// refused nothing is appended.
pub(crate) fn not_formed_line(place: u64, into: &mut Vec<u8>) -> Result<(), NoMemory>
    ensures written { OnOk result (into.new.items ≡ into.old.items ++ not_formed_text place) }
    ensures unchanged { OnErr result (into.new.items ≡ into.old.items) }
{
    numbered_line(b"fault not-formed log-1 ", place, into)
}

/// Appends the words, the number and a line feed, or nothing.
fn numbered_line(words: &[u8], number: u64, into: &mut Vec<u8>) -> Result<(), NoMemory>
    ensures written { OnOk result
        (into.new.items ≡ into.old.items ++ (words.now ++ (decimal number ++ 10 ∷ []))) }
    ensures unchanged { OnErr result (into.new.items ≡ into.old.items) }
{
    let mut digits = Buffer::new();
    put_pieces(into, &[words, digits.format(number).as_bytes(), b"\n"])
}
