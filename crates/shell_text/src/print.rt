//! The texts of replies.
ghost use Rattle.std.specs.Prelude.{◌≡◌, ◌++◌, OnOk, OnErr};
ghost use Rattle.shell_text.specs.Replies.{ended, info_text, named_text, pair_text, reply_text};

use crate::append::append;
use crate::item_text::append_item;
use crate::line_text::{append_counted, append_line};
use crate::refusal_text::append_refusal;
use crate::reply::Reply;
use crate::store_text::append_stores;
use hse_io::NoMemory;
use itoa::Buffer;

/// Appends the text of a reply, in which each line ends with one line feed. Where memory is refused
/// nothing is appended.
pub fn print_reply(reply: &Reply, into: &mut Vec<u8>) -> Result<(), NoMemory>
    ensures written { OnOk result (into.new.items ≡ into.old.items ++ reply_text reply.now) }
    ensures unchanged { OnErr result (into.new.items ≡ into.old.items) }
{
    match reply {
        Reply::Ok => append_line(b"ok", into),
        Reply::Number(number) => append_counted(b"ok ", *number, into),
        Reply::Value(value) => append_named(b"value ", value.as_slice(), into),
        Reply::Absent => append_line(b"none", into),
        Reply::At(key) => append_named(b"at ", key.as_slice(), into),
        Reply::Eof => append_line(b"eof", into),
        Reply::Pair(key, value) => append_pair(key.as_slice(), value.as_slice(), into),
        Reply::Stores(stores) => append_stores(stores.as_slice(), into),
        Reply::Info(number, frozen, charge, free, manifest) => {
            append_info(*number, *frozen, *charge, *free, *manifest, into)
        }
        Reply::Written => append_line(b"written", into),
        Reply::Refused(refused) => append_refusal(refused, into),
    }
}

/// Appends the words, an item and a line feed.
fn append_named(words: &[u8], bytes: &[u8], into: &mut Vec<u8>) -> Result<(), NoMemory>
    ensures written { OnOk result
        (into.new.items ≡ into.old.items ++ ended (named_text words.now bytes.now)) }
    ensures unchanged { OnErr result (into.new.items ≡ into.old.items) }
{
    let start = into.len();
    if let Err(_) = append(into, &[words]) {
        return Err(NoMemory);
    }
    if let Err(_) = append_item(bytes, into) {
        into.truncate(start);
        return Err(NoMemory);
    }
    if let Err(_) = append(into, &[b"\n"]) {
        into.truncate(start);
        return Err(NoMemory);
    }
    Ok(())
}

/// Appends the line of a key and its value.
fn append_pair(key: &[u8], value: &[u8], into: &mut Vec<u8>) -> Result<(), NoMemory>
    ensures written { OnOk result
        (into.new.items ≡ into.old.items ++ ended (pair_text key.now value.now)) }
    ensures unchanged { OnErr result (into.new.items ≡ into.old.items) }
{
    let start = into.len();
    if let Err(_) = append(into, &[b"pair "]) {
        return Err(NoMemory);
    }
    if let Err(_) = append_item(key, into) {
        into.truncate(start);
        return Err(NoMemory);
    }
    if let Err(_) = append_named(b" ", value, into) {
        into.truncate(start);
        return Err(NoMemory);
    }
    Ok(())
}

/// Appends the line of the engine's figures.
fn append_info(
    number: u64,
    frozen: u64,
    charge: u64,
    free: u64,
    manifest: u64,
    into: &mut Vec<u8>,
) -> Result<(), NoMemory>
    ensures written { OnOk result
        (into.new.items ≡ into.old.items ++ ended (info_text number frozen charge free manifest)) }
    ensures unchanged { OnErr result (into.new.items ≡ into.old.items) }
{
    let mut number_digits = Buffer::new();
    let number = number_digits.format(number).as_bytes();
    let mut frozen_digits = Buffer::new();
    let frozen = frozen_digits.format(frozen).as_bytes();
    let mut charge_digits = Buffer::new();
    let charge = charge_digits.format(charge).as_bytes();
    let mut free_digits = Buffer::new();
    let free = free_digits.format(free).as_bytes();
    let mut manifest_digits = Buffer::new();
    let manifest = manifest_digits.format(manifest).as_bytes();
    append(
        into,
        &[
            b"info number ",
            number,
            b" frozen ",
            frozen,
            b" charge ",
            charge,
            b" free ",
            free,
            b" manifest ",
            manifest,
            b"\n",
        ],
    )
}
