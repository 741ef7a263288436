//! Prefixes with numbers, and merges of no source.
use hse_rows::Prefix;
use merge::Merged;
use prefix_delete::PrefixList;
use row_laws::SharedRows;
use std::alloc::Global;
use std::process::Abort;
use std::test::Fail;

/// A list of these prefixes with their numbers.
fn list_of(alloc: Global, entries: &[(&[u8], u64)]) -> Result<PrefixList, Fail> {
    let mut list = PrefixList::empty(alloc);
    for (prefix, number) in entries {
        list.add(Prefix::new(alloc, prefix, 32)?, *number)?;
    }
    Ok(list)
}

#[test]
fn prefixes_of_several_lengths_cover_a_key(rt: HostRuntime) -> Result<(), Fail> {
    let list = list_of(
        rt.alloc(),
        &[(b"ab", 5), (b"a", 7), (b"abc", 6), (b"ab", 4), (b"b", 9)],
    )?;
    assert_eq!(&rt; list.len(), 4);
    assert_eq!(&rt; list.covers(b"abc"), Some(7));
    assert_eq!(&rt; list.covers(b"a"), Some(7));
    assert_eq!(&rt; list.covers(b"b"), Some(9));
    assert_eq!(&rt; list.covers(b"c"), None);
    assert_eq!(&rt; list.covers(b""), None);
    Ok(())
}

#[test]
fn a_merge_of_no_source_gives_no_row(rt: HostRuntime) -> Result<(), Fail> {
    let alloc = rt.alloc();
    let mut merged: Merged<SharedRows> = Merged::new(alloc, Vec::new(alloc))?;
    assert!(&rt; merged.next().is_none());
    merged.seek(b"key", true, true);
    assert!(&rt; merged.next().is_none());
    assert!(&rt; merged.last_place().is_none());
    assert_eq!(&rt; merged.prefixes(alloc)?.len(), 0);
    Ok(())
}
