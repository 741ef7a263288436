//! Lines, with their meanings worked by hand.
use hse_rows::{Mode, StoreName};
use shell_text::{
    Actor, Line, TakeText, TextFault, items_read_back, lines_have_one_meaning, parse_line,
};
use std::alloc::Global;
use std::process::Abort;
use std::test::Fail;

/// A word, and names and items in hexadecimal digits.
fn shown(alloc: Global, word: &str, parts: &[&[u8]]) -> Result<String, Fail> {
    let mut text = String::from_str(alloc, word)?;
    for part in parts {
        text.push_str(" ")?;
        text.push_str(hex::encode(alloc, *part)?.as_str())?;
    }
    Ok(text)
}

/// Who reads or writes, as a word.
fn named(actor: &Actor) -> &[u8] {
    match actor {
        Actor::At => b"@",
        Actor::Name(name) => name.bytes(),
    }
}

/// A store that is made: its name, its mode and the length of its prefixes.
fn made(alloc: Global, word: &str, store: &[u8], mode: Mode, prefix: u64) -> Result<String, Fail> {
    let mode: &[u8] = match mode {
        Mode::Plain => b"plain",
        Mode::Tx => b"tx",
    };
    shown(alloc, word, &[store, mode, &prefix.to_be_bytes()])
}

/// What a line asks for.
fn told(alloc: Global, line: &[u8]) -> Result<String, Fail> {
    match parse_line(alloc, line)? {
        Line::Silent => shown(alloc, "silent", &[]),
        Line::CreateStore(store, mode, prefix) => {
            made(alloc, "create", store.bytes(), mode, prefix)
        }
        Line::DropStore(store) => shown(alloc, "drop", &[store.bytes()]),
        Line::Stores => shown(alloc, "stores", &[]),
        Line::Put(who, store, key, value) => shown(
            alloc,
            "put",
            &[named(&who), store.bytes(), key.as_slice(), value.as_slice()],
        ),
        Line::Del(who, store, key) => {
            shown(alloc, "del", &[named(&who), store.bytes(), key.as_slice()])
        }
        Line::Pdel(who, store, prefix) => {
            shown(
                alloc,
                "pdel",
                &[named(&who), store.bytes(), prefix.as_slice()],
            )
        }
        Line::Get(who, store, key) => {
            shown(alloc, "get", &[named(&who), store.bytes(), key.as_slice()])
        }
        Line::Sync => shown(alloc, "sync", &[]),
        Line::Info => shown(alloc, "info", &[]),
        Line::Reopen => shown(alloc, "reopen", &[]),
        other => told_of_names(alloc, &other),
    }
}

/// What a line of transactions, cursors and phases asks for.
fn told_of_names(alloc: Global, line: &Line) -> Result<String, Fail> {
    match line {
        Line::Begin(transaction) => shown(alloc, "begin", &[transaction.bytes()]),
        Line::Commit(transaction) => shown(alloc, "commit", &[transaction.bytes()]),
        Line::Abort(transaction) => shown(alloc, "abort", &[transaction.bytes()]),
        Line::Cursor(cursor, who, store, reverse, filter) => {
            let word = if *reverse { "back" } else { "forth" };
            let of = [cursor.bytes(), named(who), store.bytes(), filter.as_slice()];
            shown(alloc, word, &of)
        }
        Line::Seek(cursor, key) => shown(alloc, "seek", &[cursor.bytes(), key.as_slice()]),
        Line::SeekRange(cursor, first, last) => {
            shown(
                alloc,
                "range",
                &[cursor.bytes(), first.as_slice(), last.as_slice()],
            )
        }
        Line::Read(cursor) => shown(alloc, "read", &[cursor.bytes()]),
        Line::Update(cursor) => shown(alloc, "update", &[cursor.bytes()]),
        Line::CloseCursor(cursor) => shown(alloc, "close", &[cursor.bytes()]),
        Line::Take(TakeText::Sync) => shown(alloc, "take sync", &[]),
        Line::Take(TakeText::Create(store, mode, prefix)) => {
            made(alloc, "take create", store.bytes(), *mode, *prefix)
        }
        Line::Take(TakeText::Drop(store)) => shown(alloc, "take drop", &[store.bytes()]),
        Line::Write => shown(alloc, "write", &[]),
        Line::End => shown(alloc, "end", &[]),
        _ => shown(alloc, "another", &[]),
    }
}

/// Lines, and what they ask for.
static LINES: [(&[u8], &str); 37] = [
    (b"", "silent"),
    (b"#", "silent"),
    (b"# put @ s  a", "silent"),
    (
        b"create-store acct tx 0",
        "create 61636374 7478 0000000000000000",
    ),
    (
        b"create-store s plain 33",
        "create 73 706c61696e 0000000000000021",
    ),
    (
        b"create-store -_9Z tx 18446744073709551615",
        "create 2d5f395a 7478 ffffffffffffffff",
    ),
    (b"drop-store s", "drop 73"),
    (b"stores", "stores"),
    (b"put @ s e x:", "put 40 73 65 "),
    (b"put @ s f x:2041", "put 40 73 66 2041"),
    (b"put @ s x x:aBcDeF09", "put 40 73 78 abcdef09"),
    (b"put @ put X: ~!", "put 40 707574 583a 7e21"),
    (b"del @ s #", "del 40 73 23"),
    (b"get @ acct k", "get 40 61636374 6b"),
    (b"get @ s x:", "get 40 73 "),
    (b"get @ s @", "get 40 73 40"),
    (b"sync", "sync"),
    (b"info", "info"),
    (b"reopen", "reopen"),
    (b"begin t", "begin 74"),
    (b"put t s a 1", "put 74 73 61 31"),
    (b"del at s a", "del 6174 73 61"),
    (b"pdel t s x:61", "pdel 74 73 61"),
    (b"get t s a", "get 74 73 61"),
    (b"commit t", "commit 74"),
    (b"abort t", "abort 74"),
    (b"cursor c @ s fwd x:", "forth 63 40 73 "),
    (b"cursor c t s rev a", "back 63 74 73 61"),
    (b"seek c x:", "seek 63 "),
    (b"seek-range c a b", "range 63 61 62"),
    (b"read c", "read 63"),
    (b"update c", "update 63"),
    (b"close-cursor c", "close 63"),
    (b"take sync", "take sync"),
    (
        b"take create s tx 2",
        "take create 73 7478 0000000000000002",
    ),
    (b"take drop s", "take drop 73"),
    (b"end", "end"),
];

#[test]
fn lines_ask_for_what_their_words_say(rt: HostRuntime) -> Result<(), Fail> {
    lines_have_one_meaning();
    items_read_back();
    for (line, want) in &LINES {
        assert_eq!(rt; told(rt.alloc(), line)?.as_str(), *want);
    }
    Ok(())
}

#[test]
fn a_name_has_31_bytes_at_most(rt: HostRuntime) -> Result<(), Fail> {
    let most = b"drop-store abcdefghijklmnopqrstuvwxyz01234";
    let want = "drop 6162636465666768696a6b6c6d6e6f707172737475767778797a3031323334";
    assert_eq!(rt; told(rt.alloc(), most)?.as_str(), want);
    expect_bad(
        &rt,
        rt.alloc(),
        b"drop-store abcdefghijklmnopqrstuvwxyz012345",
    );
    Ok(())
}

/// Reads a line that is outside the grammar.
fn expect_bad(rt: &impl Abort, alloc: Global, line: &[u8]) {
    match parse_line(alloc, line) {
        Ok(_) => panic!(rt; "read"),
        Err(fault) => assert_eq!(rt; fault, TextFault::BadLine),
    }
}

/// Lines outside the grammar.
static BAD_LINES: [&[u8]; 47] = [
    b"foo",
    b" ",
    b" sync",
    b"sync ",
    b"SYNC",
    b"sync 1",
    b"stores s",
    b"put @ s a",
    b"put @ s a 1 2",
    b"put @ s  a 1",
    b"put @  s a 1",
    b"put @@ s a 1",
    b"put @ s a x:0",
    b"put @ s a x:0g",
    b"put @ s a x: ",
    b"put @ s a \x7f",
    b"put @ s\ta 1",
    b"get @ s ",
    b"get @ s! a",
    b"get s a",
    b"del @ s",
    b"drop-store ",
    b"drop-store s s",
    b"create-store s tx",
    b"create-store s Tx 0",
    b"create-store s tx 00",
    b"create-store s tx 01",
    b"create-store s tx +1",
    b"create-store s tx 18446744073709551616",
    b"begin @",
    b"commit",
    b"abort t t",
    b"cursor c @ s forward x:",
    b"cursor c @ s REV x:",
    b"cursor c @ s fwd",
    b"cursor c @ s fwd a b",
    b"cursor @ @ s fwd a",
    b"seek c",
    b"seek-range c a",
    b"read @",
    b"take",
    b"take sync 1",
    b"take freeze",
    b"take install j",
    b"take create s tx",
    b"freeze",
    b"auto",
];

#[test]
fn lines_outside_the_grammar_are_bad(rt: HostRuntime) {
    for line in &BAD_LINES {
        expect_bad(&rt, rt.alloc(), line);
    }
}
