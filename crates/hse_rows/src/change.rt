//! What a write does to a key, or to all keys under a prefix.
ghost use Rattle.std.specs.Prelude.{◌≡◌, IfOk};
ghost use Rattle.hse_rows.specs.writes.Change.{change_of, target, FitsLimits};
ghost use Rattle.hse_rows.specs.writes.Charge.{change_bytes};
ghost use Rattle.hse_rows.specs.writes.NormalForm.{rank, hides_key, hides_prefix, hides_change};

use crate::key::Key;
use crate::prefix::Prefix;
use crate::value::Value;
use hse_io::NoMemory;
use std::alloc::Global;

/// A change of one store: a key gets a value, a key is deleted, or all keys that a prefix covers
/// are.
#[derive(Drop)]
pub enum Change {
    Put(Key, Value),
    Del(Key),
    PDel(Prefix),
}

/// A change whose bytes are lent.
#[derive(Clone, Copy, Debug, PartialEq, Eq)]
pub enum ChangeRef<'a> {
    Put(&'a [u8], &'a [u8]),
    Del(&'a [u8]),
    PDel(&'a [u8]),
}

impl Change {
    /// The same change, with its bytes lent. It takes no memory.
    pub fn lent(&self) -> ChangeRef<'_>
        ensures value { change_of result ≡ self.now }
        ensures within { FitsLimits self.now }
    {
        match self {
            Change::Put(key, value) => ChangeRef::Put(key.bytes(), value.bytes()),
            Change::Del(key) => ChangeRef::Del(key.bytes()),
            Change::PDel(prefix) => ChangeRef::PDel(prefix.bytes()),
        }
    }

    /// One more owner of the same change.
    pub fn share(&self, alloc: Global) -> Result<Change, NoMemory>
        ensures { IfOk result (λ change. change ≡ self.now) }
    {
        match self {
            Change::Put(key, value) => Ok(Change::Put(key.share(alloc)?, value.share(alloc)?)),
            Change::Del(key) => Ok(Change::Del(key.share(alloc)?)),
            Change::PDel(prefix) => Ok(Change::PDel(prefix.share(alloc)?)),
        }
    }

    /// How many bytes the change takes of a log entry. It takes no memory.
    pub fn bytes(&self) -> u64
        ensures { result ≡ change_bytes self.now }
    {
        match self {
            Change::Put(key, value) => 15 + (key.bytes().len() + value.bytes().len()) as u64,
            Change::Del(key) => 11 + key.bytes().len() as u64,
            Change::PDel(prefix) => 11 + prefix.bytes().len() as u64,
        }
    }

    /// The key, or the prefix.
    pub(crate) fn target(&self) -> &[u8]
        ensures { result.now ≡ target self.now }
    {
        match self {
            Change::Put(key, _) => key.bytes(),
            Change::Del(key) => key.bytes(),
            Change::PDel(prefix) => prefix.bytes(),
        }
    }

    /// 0 for a prefix delete, 1 for a change of a key.
    pub(crate) fn rank(&self) -> u8
        ensures { result ≡ rank self.now }
    {
        match self {
            Change::PDel(_) => 0,
            _ => 1,
        }
    }

    /// Whether it hides an earlier put or deletion of a key.
    fn hides_key(&self, key: &Key) -> bool
        ensures { result ≡ hides_key self.now key.now }
    {
        match self {
            Change::Put(later, _) => later == key,
            Change::Del(later) => later == key,
            Change::PDel(prefix) => prefix.covers(key.bytes()),
        }
    }

    /// Whether it hides an earlier deletion of a prefix.
    fn hides_prefix(&self, prefix: &Prefix) -> bool
        ensures { result ≡ hides_prefix self.now prefix.now }
    {
        match self {
            Change::PDel(later) => later == prefix,
            _ => false,
        }
    }

    /// Whether it hides an earlier change of the same store.
    pub(crate) fn hides(&self, earlier: &Change) -> bool
        ensures { result ≡ hides_change self.now earlier.now }
    {
        match earlier {
            Change::Put(key, _) => self.hides_key(key),
            Change::Del(key) => self.hides_key(key),
            Change::PDel(prefix) => self.hides_prefix(prefix),
        }
    }
}
