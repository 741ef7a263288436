//! Replies, with their texts worked by hand.
use hse_rows::{Mode, StoreName};
use shell_text::{
    DoneText, Item, PhaseText, Refused, RegionText, Reply, StoreText, StoreTexts, TurnText,
    print_reply,
};
use std::alloc::Global;
use std::process::Abort;
use std::test::Fail;

/// Prints a reply behind a text, and compares both.
fn expect_text(rt: &impl Abort, alloc: Global, reply: &Reply, want: &[u8]) -> Result<(), Fail> {
    let mut text = b"> ".to_vec(alloc)?;
    print_reply(reply, &mut text)?;
    assert_eq!(rt; text.as_slice(), want);
    Ok(())
}

#[test]
fn replies_have_their_texts(rt: HostRuntime) -> Result<(), Fail> {
    let alloc = rt.alloc();
    expect_text(
        &rt,
        alloc,
        &Reply::Number(18446744073709551615),
        b"> ok 18446744073709551615\n",
    )?;
    expect_text(&rt, alloc, &Reply::Absent, b"> none\n")?;
    let figures = Reply::Info(3, 0, 61, 62, 1);
    let want = b"> info number 3 frozen 0 charge 61 free 62 manifest 1\n";
    expect_text(&rt, alloc, &figures, want)
}

/// Bytes, and the replies that print them.
static VALUES: [(&[u8], &[u8]); 7] = [
    (b"v", b"> value v\n"),
    (b"", b"> value x:\n"),
    (b" A", b"> value x:2041\n"),
    (b"x:2041", b"> value x:783a32303431\n"),
    (b"X:~", b"> value X:~\n"),
    (b"a\x7f", b"> value x:617f\n"),
    (b"\xAB\xCD\x00", b"> value x:abcd00\n"),
];

#[test]
fn values_are_words_where_they_can_be(rt: HostRuntime) -> Result<(), Fail> {
    let alloc = rt.alloc();
    for (bytes, want) in &VALUES {
        let value = Reply::Value(Item::of(bytes.to_vec(alloc)?));
        expect_text(&rt, alloc, &value, want)?;
    }
    Ok(())
}

#[test]
fn stores_are_listed_line_by_line(rt: HostRuntime) -> Result<(), Fail> {
    let alloc = rt.alloc();
    let mut stores = Vec::new(alloc);
    expect_text(
        &rt,
        alloc,
        &Reply::Stores(StoreTexts::of(Vec::new(alloc))),
        b"> stores 0\n",
    )?;
    let stored: [(&[u8], Mode, u8); 2] = [(b"acct", Mode::Tx, 0), (b"s", Mode::Plain, 32)];
    for (name, mode, prefix) in stored {
        let name = StoreName::new(alloc, name)?;
        stores.push(StoreText { name, mode, prefix })?;
    }
    let stores = StoreTexts::of(stores).into_vec();
    let want = b"> stores 2\nacct tx 0\ns plain 32\n";
    expect_text(&rt, alloc, &Reply::Stores(StoreTexts::of(stores)), want)
}

/// The item of these bytes.
fn item(alloc: Global, bytes: &[u8]) -> Result<Item, Fail> {
    Ok(Item::of(bytes.to_vec(alloc)?))
}

#[test]
fn replies_of_cursors_and_phases_have_their_texts(rt: HostRuntime) -> Result<(), Fail> {
    let alloc = rt.alloc();
    expect_text(&rt, alloc, &Reply::Ok, b"> ok\n")?;
    expect_text(&rt, alloc, &Reply::At(item(alloc, b"k")?), b"> at k\n")?;
    expect_text(&rt, alloc, &Reply::Eof, b"> eof\n")?;
    let pair = Reply::Pair(item(alloc, b"k")?, item(alloc, b"")?);
    expect_text(&rt, alloc, &pair, b"> pair k x:\n")?;
    expect_text(&rt, alloc, &Reply::Written, b"> written\n")
}

/// Prints refusals, and compares each.
fn expect_texts(rt: &impl Abort, alloc: Global, replies: &[(Reply, &[u8])]) -> Result<(), Fail> {
    for (reply, want) in replies {
        expect_text(rt, alloc, reply, want)?;
    }
    Ok(())
}

/// A reply that refuses.
fn no(refused: Refused) -> Reply {
    Reply::Refused(refused)
}

#[test]
fn refusals_have_their_texts(rt: HostRuntime) -> Result<(), Fail> {
    let refusals: [(Reply, &[u8]); 15] = [
        (no(Refused::Line), b"> err line\n"),
        (no(Refused::Memory), b"> err memory\n"),
        (no(Refused::StoreExists), b"> err store-exists\n"),
        (no(Refused::NoStore), b"> err no-store\n"),
        (no(Refused::StoreMode), b"> err store-mode\n"),
        (no(Refused::KeyLength(1345)), b"> err key-length 1345\n"),
        (
            no(Refused::ValueLength(65473)),
            b"> err value-length 65473\n",
        ),
        (no(Refused::PrefixLength(33)), b"> err prefix-length 33\n"),
        (no(Refused::Broken), b"> err broken\n"),
        (no(Refused::TooMany(256)), b"> err too-many 256\n"),
        (no(Refused::Spent), b"> err spent\n"),
        (no(Refused::NameUsed), b"> err name-used\n"),
        (no(Refused::NoName), b"> err no-name\n"),
        (no(Refused::ForwardOnly), b"> err forward-only\n"),
        (no(Refused::Device), b"> err device\n"),
    ];
    expect_texts(&rt, rt.alloc(), &refusals)
}

#[test]
fn refusals_have_their_numbers(rt: HostRuntime) -> Result<(), Fail> {
    let refusals: [(Reply, &[u8]); 9] = [
        (
            no(Refused::ManifestFull(65542, 65526)),
            b"> err manifest-full 65542 65526\n",
        ),
        (
            no(Refused::TxnSize(300124, 262080)),
            b"> err txn-size 300124 262080\n",
        ),
        (
            no(Refused::LogFull(60060, 21840)),
            b"> err log-full 60060 21840\n",
        ),
        (no(Refused::Since(7)), b"> canceled since 7\n"),
        (
            no(Refused::NotFormed(RegionText::Super, 4096)),
            b"> err not-formed super 4096\n",
        ),
        (
            no(Refused::NotFormed(RegionText::Manifest(1), 10)),
            b"> err not-formed manifest-1 10\n",
        ),
        (
            no(Refused::NotFormed(RegionText::Log(1), 0)),
            b"> err not-formed log-1 0\n",
        ),
        (
            no(Refused::NotFormed(RegionText::Slot(5), 4)),
            b"> err not-formed slot-5 4\n",
        ),
        (no(Refused::Version(2)), b"> err version 2\n"),
    ];
    expect_texts(&rt, rt.alloc(), &refusals)
}

#[test]
fn refusals_have_their_words(rt: HostRuntime) -> Result<(), Fail> {
    let alloc = rt.alloc();
    let refusals: [(Reply, &[u8]); 12] = [
        (no(Refused::Busy(TurnText::Sync)), b"> err busy sync\n"),
        (no(Refused::Busy(TurnText::Freeze)), b"> err busy freeze\n"),
        (
            no(Refused::Busy(TurnText::Install)),
            b"> err busy install\n",
        ),
        (no(Refused::Busy(TurnText::Create)), b"> err busy create\n"),
        (no(Refused::Busy(TurnText::Drop)), b"> err busy drop\n"),
        (no(Refused::Turn(PhaseText::In)), b"> err turn in\n"),
        (no(Refused::Turn(PhaseText::Taken)), b"> err turn taken\n"),
        (no(Refused::Turn(PhaseText::Run)), b"> err turn run\n"),
        (
            no(Refused::Done(DoneText::Committed)),
            b"> err done committed\n",
        ),
        (
            no(Refused::Done(DoneText::Aborted)),
            b"> err done aborted\n",
        ),
        (
            no(Refused::StoreHeld(StoreName::new(alloc, b"t1")?)),
            b"> err store-held t1\n",
        ),
        (
            no(Refused::Held(StoreName::new(alloc, b"t1")?)),
            b"> canceled held t1\n",
        ),
    ];
    expect_texts(&rt, alloc, &refusals)
}

#[test]
fn an_item_gives_its_bytes_back(rt: HostRuntime) -> Result<(), Fail> {
    let item = Item::of(b"ab".to_vec(rt.alloc())?);
    assert_eq!(rt; item.as_slice(), b"ab".as_slice());
    assert_eq!(rt; item.into_vec().as_slice(), b"ab".as_slice());
    Ok(())
}
