//! Limits, normal forms and charges, worked by hand.
use hse_rows::{
    Change, ChangeRef, Edge, Key, KeyFault, NameFault, Prefix, PrefixFault, StoreId, StoreName,
    Value, ValueFault, WriteSet, charges_grow_by_the_change_at_most,
};
use std::alloc::Global;
use std::process::Abort;
use std::test::Fail;

const ONE: StoreId = StoreId(1);

const TWO: StoreId = StoreId(2);

fn put(alloc: Global, key: &[u8], value: &[u8]) -> Result<Change, Fail> {
    Ok(Change::Put(Key::new(alloc, key)?, Value::new(alloc, value, 1_048_576)?))
}

fn del(alloc: Global, key: &[u8]) -> Result<Change, Fail> {
    Ok(Change::Del(Key::new(alloc, key)?))
}

fn pdel(alloc: Global, prefix: &[u8]) -> Result<Change, Fail> {
    Ok(Change::PDel(Prefix::new(alloc, prefix, 1)?))
}

// Five changes of a worked list whose eight adds end in them.
fn worked(alloc: Global) -> Result<WriteSet, Fail> {
    let mut set = WriteSet::empty(alloc);
    set.add(TWO, put(alloc, b"b", b"1")?)?;
    set.add(ONE, put(alloc, b"ab", b"1")?)?;
    set.add(ONE, put(alloc, b"b", b"1")?)?;
    set.add(ONE, pdel(alloc, b"a")?)?;
    set.add(ONE, put(alloc, b"ab", b"2")?)?;
    set.add(ONE, del(alloc, b"b")?)?;
    set.add(TWO, pdel(alloc, b"c")?)?;
    set.add(TWO, pdel(alloc, b"c")?)?;
    Ok(set)
}

fn assert_worked(rt: &impl Abort, set: &WriteSet) {
    let len = set.len();
    assert_eq!(rt; len, 5);
    assert!(rt; set.at(0) == (ONE, ChangeRef::PDel(b"a")));
    assert!(rt; set.at(1) == (TWO, ChangeRef::PDel(b"c")));
    assert!(rt; set.at(2) == (ONE, ChangeRef::Put(b"ab", b"2")));
    assert!(rt; set.at(3) == (ONE, ChangeRef::Del(b"b")));
    assert!(rt; set.at(4) == (TWO, ChangeRef::Put(b"b", b"1")));
}

// What the set would take with the change, where both are small.
fn charge_after(set: &WriteSet, store: StoreId, change: &Change) -> Option<u64> {
    let charge = set.charge();
    if charge > 1000 {
        return None;
    }
    let bytes = change.bytes();
    if bytes > 1000 {
        return None;
    }
    charges_grow_by_the_change_at_most();
    Some(set.charge_with(store, change))
}

#[test]
fn the_normal_form_of_a_worked_list(rt: HostRuntime) -> Result<(), Fail> {
    let alloc = rt.alloc();
    let set = worked(alloc)?;
    assert_worked(&rt, &set);
    assert_eq!(rt; set.charge(), 115);
    Ok(())
}

#[test]
fn a_copy_is_an_equal_set(rt: HostRuntime) -> Result<(), Fail> {
    let alloc = rt.alloc();
    let copy = worked(alloc)?.copy(alloc)?;
    assert_worked(&rt, &copy);
    assert_eq!(rt; copy.charge(), 115);
    Ok(())
}

#[test]
fn a_prefix_delete_drops_what_it_covers(rt: HostRuntime) -> Result<(), Fail> {
    let alloc = rt.alloc();
    let mut set = worked(alloc)?;
    let change = pdel(alloc, b"a")?;
    assert_eq!(rt; charge_after(&set, ONE, &change), Some(97));
    assert_worked(&rt, &set);
    set.add(ONE, change)?;
    let len = set.len();
    assert_eq!(rt; len, 4);
    assert_eq!(rt; set.charge(), 97);
    assert!(rt; set.at(2) == (ONE, ChangeRef::Del(b"b")));
    Ok(())
}

#[test]
fn a_put_takes_the_bytes_of_its_entry_and_32(rt: HostRuntime) -> Result<(), Fail> {
    let alloc = rt.alloc();
    let mut set = WriteSet::empty(alloc);
    assert_eq!(rt; set.charge(), 44);
    let change = put(alloc, b"k", b"v")?;
    assert_eq!(rt; charge_after(&set, ONE, &change), Some(61));
    set.add(ONE, change)?;
    assert_eq!(rt; set.charge(), 61);
    assert_eq!(rt; charge_after(&set, ONE, &del(alloc, b"k")?), Some(56));
    Ok(())
}

#[test]
fn each_maker_keeps_its_limits(rt: HostRuntime) -> Result<(), Fail> {
    let alloc = rt.alloc();
    let long = [b'k'; 1345];
    assert!(rt; Key::new(alloc, b"").err() == Some(KeyFault::Length(0)));
    assert!(rt; Key::new(alloc, &long).err() == Some(KeyFault::Length(1345)));
    assert_eq!(rt; Key::new(alloc, &long[..1344])?.bytes().len(), 1344);
    assert!(rt; Edge::new(alloc, &long).err() == Some(KeyFault::Length(1345)));
    assert_eq!(rt; Edge::new(alloc, &long[..1344])?.bytes().len(), 1344);
    assert_eq!(rt; Edge::new(alloc, b"")?.bytes().len(), 0);
    assert!(rt; Value::new(alloc, b"four", 3).err() == Some(ValueFault::Length(4)));
    assert_eq!(rt; Value::new(alloc, b"four", 4)?.bytes(), b"four".as_slice());
    assert!(rt; Prefix::new(alloc, b"", 3).err() == Some(PrefixFault::Length(0)));
    assert!(rt; Prefix::new(alloc, b"ab", 1).err() == Some(PrefixFault::Length(2)));
    assert_eq!(rt; Prefix::new(alloc, b"ab", 3)?.bytes(), b"ab".as_slice());
    assert!(rt; Prefix::new(alloc, &long[..33], 33).err() == Some(PrefixFault::Length(33)));
    assert_eq!(rt; Prefix::new(alloc, &long[..32], 32)?.bytes().len(), 32);
    Ok(())
}

#[test]
fn names_have_1_to_31_of_their_letters(rt: HostRuntime) -> Result<(), Fail> {
    let alloc = rt.alloc();
    let long = [b'n'; 32];
    assert!(rt; StoreName::new(alloc, b"").err() == Some(NameFault::BadName));
    assert!(rt; StoreName::new(alloc, &long).err() == Some(NameFault::BadName));
    assert!(rt; StoreName::new(alloc, b"a b").err() == Some(NameFault::BadName));
    assert!(rt; StoreName::new(alloc, b"@").err() == Some(NameFault::BadName));
    assert_eq!(rt; StoreName::new(alloc, &long[..31])?.bytes().len(), 31);
    assert_eq!(rt;
        StoreName::new(alloc, b"azAZ09-_")?.bytes(),
        b"azAZ09-_".as_slice()
    );
    Ok(())
}

#[test]
fn a_share_of_a_key_is_equal(rt: HostRuntime) -> Result<(), Fail> {
    let key = Key::new(rt.alloc(), b"key")?;
    let twin = key.share(rt.alloc())?;
    assert!(rt; twin == key);
    let above = Key::new(rt.alloc(), b"kez")?;
    assert!(rt; key < above);
    Ok(())
}

#[test]
fn a_share_of_a_prefix_is_equal(rt: HostRuntime) -> Result<(), Fail> {
    let prefix = Prefix::new(rt.alloc(), b"ke", 2)?;
    let twin = prefix.share(rt.alloc())?;
    assert!(rt; twin == prefix);
    assert!(rt; twin.covers(b"key"));
    assert!(rt; !twin.covers(b"k"));
    Ok(())
}

#[test]
fn a_share_of_a_name_or_an_edge_is_equal(rt: HostRuntime) -> Result<(), Fail> {
    let name = StoreName::new(rt.alloc(), b"name")?;
    let twin = name.share(rt.alloc())?;
    assert!(rt; twin == name);
    let edge = Edge::new(rt.alloc(), b"e")?;
    let twin = edge.share(rt.alloc())?;
    assert_eq!(rt; twin.bytes(), b"e".as_slice());
    Ok(())
}

#[test]
fn a_share_of_a_change_is_equal(rt: HostRuntime) -> Result<(), Fail> {
    let change = put(rt.alloc(), b"k", b"v")?;
    let twin = change.share(rt.alloc())?;
    assert!(rt; twin.lent() == ChangeRef::Put(b"k", b"v"));
    Ok(())
}

fn may_cross<T: Send>(value: T) -> T {
    value
}

#[test]
fn a_set_may_cross_threads(rt: HostRuntime) -> Result<(), Fail> {
    let set = may_cross(worked(rt.alloc())?);
    assert_eq!(rt; set.charge(), 115);
    Ok(())
}

#[test]
fn a_set_is_charged_more_than_a_segment_holds(rt: HostRuntime) -> Result<(), Fail> {
    let alloc = rt.alloc();
    let mut bytes = Vec::new(alloc);
    bytes.resize(1_048_576, b'v')?;
    let value = Value::new(alloc, &bytes, 1_048_576)?;
    let mut set = WriteSet::empty(alloc);
    for key in 0..65u8 {
        let change = Change::Put(Key::new(alloc, &[key])?, value.share(alloc)?);
        set.add(ONE, change)?;
    }
    assert_eq!(rt; set.charge(), 68_158_524);
    Ok(())
}
