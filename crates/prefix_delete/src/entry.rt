//! A prefix and the number of its deletion, and a search for one in order.
ghost use Rattle.std.specs.Prelude.{◌≡◌, length};
ghost use Rattle.std.specs.List.Sorted.{IsBinarySearchResult, IsSearchInRange, IsStrictlySortedBy};
ghost use Rattle.hse_rows.specs.rows.Meaning.{greater as greatest_of};
ghost use Rattle.prefix_delete.specs.Prefixes.{prefix_cmp, probe, number_at};

use hse_rows::Prefix;

/// A prefix, and the greatest number of a deletion of it.
#[derive(Drop)]
pub struct Entry {
    pub prefix: Prefix,
    pub number: u64,
}

/// Where a prefix stands, or else where it would.
pub(crate) fn place(entries: &[Entry], prefix: &[u8]) -> Result<usize, usize>
    ensures bound { IsSearchInRange result (length entries.now) }
    ensures position { IsBinarySearchResult
        (λ entry. prefix_cmp entry (probe prefix.now)) entries.now result }
{
    entries.binary_search_by(|entry| entry.prefix.bytes().cmp(prefix))
}

/// The number of a prefix, where it stands among these.
pub(crate) fn number_of(entries: &[Entry], prefix: &[u8]) -> Option<u64>
    requires { IsStrictlySortedBy prefix_cmp entries.now }
    ensures { result ≡ number_at entries.now prefix.now }
{
    match place(entries, prefix) {
        Ok(at) => Some(entries[at].number),
        Err(_) => None,
    }
}

/// The greater of two numbers that may be there.
pub(crate) fn greater(one: Option<u64>, other: Option<u64>) -> Option<u64>
    ensures { result ≡ greatest_of one other }
{
    match (one, other) {
        (None, _) => other,
        (Some(_), None) => one,
        (Some(number), Some(more)) => {
            if more < number {
                return one;
            }
            other
        }
    }
}
