use hse_fields::{
    Short, put_bytes, put_pieces, put_u8, put_u16, put_u32, put_u64, split_bytes, split_u8,
    split_u16, split_u32, split_u64, take_bytes, take_u8, take_u16, take_u32, take_u64,
};
use std::test::Fail;

/// The entry of number 2 with a put of store 1, key `k`, value `v`.
const ENTRY: [u8; 29] = [
    0, 0, 0, 0, 0, 0, 0, 2, 0, 0, 0, 1, 1, 0, 0, 0, 0, 0, 0, 0, 1, 0, 1, 0x6b, 0, 0, 0, 1, 0x76,
];

#[test]
fn the_fields_of_an_entry_are_split_off(rt: HostRuntime) -> Result<(), Fail> {
    let (number, rest) = split_u64(&ENTRY)?;
    let (count, rest) = split_u32(rest)?;
    let (kind, rest) = split_u8(rest)?;
    let (store, rest) = split_u64(rest)?;
    let (size, rest) = split_u16(rest)?;
    let (key, rest) = split_bytes(rest, 1)?;
    assert_eq!(rt; (number, count, kind, store, size), (2, 1, 1, 1, 1));
    assert_eq!(rt; key, b"k".as_slice());
    assert_eq!(rt; rest, [0, 0, 0, 1, 0x76].as_slice());
    Ok(())
}

#[test]
fn the_fields_of_an_entry_are_taken_at_their_places(rt: HostRuntime) {
    let numbers = [
        take_u64(&ENTRY, 0).ok(),
        take_u32(&ENTRY, 8).ok().map(u64::from),
        take_u16(&ENTRY, 21).ok().map(u64::from),
        take_u8(&ENTRY, 28).ok().map(u64::from),
    ];
    assert_eq!(rt; numbers, [Some(2), Some(1), Some(1), Some(0x76)]);
    assert_eq!(rt; take_bytes(&ENTRY, 23, 1).ok(), Some(b"k".as_slice()));
    let short = take_u32(&ENTRY, 27).err();
    assert_eq!(rt; short, Some(Short { have: 2, need: 4 }));
    let past = take_u8(&ENTRY, u64::MAX).err();
    assert_eq!(rt; past, Some(Short { have: 0, need: 1 }));
}

#[test]
fn the_fields_of_an_entry_are_put(rt: HostRuntime) -> Result<(), Fail> {
    let mut bytes = Vec::new(rt.alloc());
    put_u64(&mut bytes, 2)?;
    put_u32(&mut bytes, 1)?;
    put_u8(&mut bytes, 1)?;
    put_u64(&mut bytes, 1)?;
    put_u16(&mut bytes, 1)?;
    put_bytes(&mut bytes, b"k")?;
    put_pieces(&mut bytes, &[&[0, 0, 0, 1], b"v"])?;
    assert_eq!(rt; bytes.as_slice(), ENTRY.as_slice());
    Ok(())
}

#[test]
fn a_missing_byte_is_reported(rt: HostRuntime) {
    let short = split_u32(&[0, 0, 1]).err();
    assert_eq!(rt; short, Some(Short { have: 3, need: 4 }));
    let empty = split_u8(&[]).err();
    assert_eq!(rt; empty, Some(Short { have: 0, need: 1 }));
    let need = u64::MAX;
    let long = split_bytes(b"v", need).err();
    assert_eq!(rt; long, Some(Short { have: 1, need }));
}
