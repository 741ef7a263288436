//! Reads the stores of a base.
ghost use Rattle.std.specs.Prelude.{◌≡◌, ◌≤◌, ◌<◌, ◌+◌, ◌^◌, length};
ghost use Rattle.manifest.specs.Metadata.{is_taken, last_id};
ghost use Rattle.manifest.specs.Reading.{may_be_next, store_of, stores_of};
ghost use Rattle.manifest.specs.Views.{Gives, store_as, stores_as};
ghost use Rattle.hse_rows.specs.machine.TakenRuns.{runs_as};

use crate::BaseStore;
use crate::describe::described;
use hse_fields::{Refusal, split_u32, split_u64};
use hse_rows::{StoreId, TakenRun};
use std::alloc::Global;

/// What is known before the stores of a base: how many may be live, the horizon and the taken
/// numbers.
#[derive(Clone, Copy)]
pub(crate) struct Known<'a> {
    pub(crate) alloc: Global,
    pub(crate) most: u16,
    pub(crate) horizon: u64,
    pub(crate) taken: &'a [TakenRun],
}

/// Whether a number is one of these.
fn is_in(number: u64, runs: &[TakenRun]) -> bool
    ensures { result ≡ is_taken number (runs_as runs.now) }
{
    let mut rest = runs;
    while let [first, more @ ..] = rest {
        if first.first <= number && number < first.first + first.count as u64 {
            return true;
        }
        rest = more;
    }
    false
}

/// The id of the last store, and 0 where there is none.
fn id_of_last(stores: &[BaseStore]) -> u64
    ensures { result ≡ last_id (stores_as stores.now) }
{
    match stores.last() {
        None => 0,
        Some(store) => store.id.0,
    }
}

impl<'a> Known<'a> {
    /// Whether a store of this id may come next.
    fn may_follow(self, stores: &[BaseStore], id: u64) -> bool
        ensures { result ≡ may_be_next self.entry.most self.entry.horizon (runs_as self.entry.taken.now)
            (stores_as stores.now) id }
    {
        if stores.len() >= self.most as usize {
            return false;
        }
        if id <= id_of_last(stores) {
            return false;
        }
        id <= self.horizon || is_in(id, self.taken)
    }

    /// A store behind these, and the bytes behind it.
    #[tactic(auto, unfolding(crate::specs::Reading::store_of))]
    fn store<'b>(
        self,
        stores: &[BaseStore],
        bytes: &'b [u8],
    ) -> Result<(BaseStore, &'b [u8]), Refusal>
        ensures { Gives (λ x. (store_as x.0, x.1.now)) result
            (store_of self.entry.most self.entry.horizon (runs_as self.entry.taken.now) (stores_as stores.now)
            bytes.now) }
    {
        let (id, rest) = split_u64(bytes)?;
        if !self.may_follow(stores, id) {
            return Err(Refusal::Left(bytes.len() as u64));
        }
        let (store, rest) = described(self.alloc, stores, StoreId(id), rest)?;
        let (nodes, behind) = split_u32(rest)?;
        if nodes != 0 {
            return Err(Refusal::Left(rest.len() as u64));
        }
        Ok((store, behind))
    }

    /// So many stores, and the bytes behind them.
    pub(crate) fn stores(self, count: u32, bytes: &[u8]) -> Result<(Vec<BaseStore>, &[u8]), Refusal>
        ensures { Gives (λ x. (stores_as x.0.items, x.1.now)) result
            (stores_of self.entry.most self.entry.horizon (runs_as self.entry.taken.now) count bytes.now) }
    {
        let mut stores = Vec::new(self.alloc);
        let mut rest = bytes;
        let mut left = count;
        while left > 0 {
            let (store, behind) = self.store(&stores, rest)?;
            stores.push(store)?;
            rest = behind;
            left -= 1;
        }
        Ok((stores, rest))
    }
}
