//! A key of a block.
ghost use Rattle.std.specs.Prelude.{◌≡◌, ◌≤◌, length};
ghost use Rattle.hse_fields.specs.BlockText.{key_text};
ghost use Rattle.hse_fields.specs.LogLimits.{longest_key};
ghost use Rattle.kblock.specs.Entries.{entry_of};

use hse_fields::ValuePlace;

/// A key, the number of its put or deletion, and where a put's value stands.
#[derive(Clone, Copy, Debug, PartialEq, Eq)]
pub struct KeyEntry<'a> {
    pub number: u64,
    pub key: &'a [u8],
    /// `None` of a deletion.
    pub value: Option<ValuePlace>,
}

/// How many bytes the entry takes of a page.
pub(crate) fn size(entry: &KeyEntry<'_>) -> u64
    requires { length entry.now.key.now ≤ longest_key }
    ensures { result ≡ length (key_text (entry_of entry.now)) }
{
    let key = 11 + entry.key.len() as u64;
    match entry.value {
        Some(_) => key + 12,
        None => key,
    }
}
