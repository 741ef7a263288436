//! Who has a name, and what several names say of a write.
ghost use Rattle.std.specs.Prelude.{◌≡◌};
ghost use Rattle.key_locks.specs.Seen.{seen_with, nothing_seen, first_other};

/// Which active transaction has a name, and the newest commit that wrote it; 0 where none did
/// since the last prune.
#[derive(Clone, Copy)]
pub(crate) struct Lock {
    pub holder: Option<u64>,
    pub newest: u64,
}

/// Of several locks the least other holder, and the newest commit.
#[derive(Clone, Copy)]
pub(crate) struct Seen {
    pub holder: Option<u64>,
    pub newest: u64,
}

impl Seen {
    /// Of no lock.
    pub fn nothing() -> Seen
        ensures { result ≡ nothing_seen }
    {
        Seen {
            holder: None,
            newest: 0,
        }
    }

    /// Of one lock more, for a write of this transaction.
    pub fn with(self, lock: Lock, txn: u64) -> Seen
        ensures { result ≡ seen_with txn self lock }
    {
        Seen {
            holder: first_other(self.holder, lock.holder, txn),
            newest: self.newest.max(lock.newest),
        }
    }
}

/// The lesser of a holder and another one, which counts if it is another transaction.
fn first_other(first: Option<u64>, holder: Option<u64>, txn: u64) -> Option<u64>
    ensures { result ≡ first_other txn first holder }
{
    match holder {
        Some(holder) if holder != txn => match first {
            Some(first) => Some(first.min(holder)),
            None => Some(holder),
        },
        _ => first,
    }
}
