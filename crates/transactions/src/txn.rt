//! A transaction.
ghost use Rattle.std.specs.Prelude.{◌≡◌, ◌<◌, ◌≤◌, ◌∷◌, [], Some, None, IfOk, IfErr, IfSome};
ghost use Rattle.std.specs.List.{AllByRecursion};
ghost use Rattle.std.specs.Option.{option_map};
ghost use Rattle.hse_rows.specs.writes.Change.{write_of};
ghost use Rattle.ingest_tree.specs.declared.store_row.StoreRow.{StoreRow as a_row};
ghost use Rattle.view.specs.declared.get_fault.TxnState.TheVariants.{Active};
ghost use Rattle.ingest_tree.specs.Rows.{rows_with, store_row};
ghost use Rattle.view.specs.Gets.{Gets, RefusesGet};
ghost use Rattle.transactions.specs.Txns.{begins, with_staged, with_state, reads, own_rows, IsTxn};
ghost use Rattle.transactions.specs.Stages.{IsStage, WasStaged, RefusesRead};

use crate::staged::Staged;
use hse_io::NoMemory;
use hse_rows::{
    Change, Row, Shared, StoreId, StoreName, WriteSet, normal_forms_do_the_same,
    normal_forms_overlap_the_same,
};
use ingest_tree::IngestTree;
use std::alloc::Global;
use std::marker::Model;
use view::{GetFault, TxnState, View, is_key, layers_take_rows, newer_layers_go_over};

/// A snapshot, the writes made in it, and how it ended. The own writes stand twice: in normal form, as
/// a commit has them, and as rows that are newer than the snapshot, as reads want them.
#[derive(Drop)]
pub struct Txn<R: Shared> {
    id: u64,
    state: TxnState,
    view: View<R>,
    writes: WriteSet,
    own: Option<IngestTree>,
    last: u64,
}

impl<R: Shared> Model for Txn<R> {
    ghost use Rattle.transactions.specs.Txns.{TxnKept, IsTxn};

    ghost Value = { TxnKept R };

    ghost view = { λ t. record {
      id = t.id;
      state = t.state;
      view = t.view;
      writes = t.writes;
      own = t.own;
      last = t.last;
    } };

    ghost invariant = { λ t. IsTxn (record {
      id = t.id;
      state = t.state;
      view = t.view;
      writes = t.writes;
      own = t.own;
      last = t.last;
    }) };
}

/// The rows of own writes with one more.
fn with_own(
    alloc: Global,
    own: Option<&IngestTree>,
    store: StoreId,
    row: Row,
) -> Result<IngestTree, NoMemory>
    ensures { IfOk result (λ tree. tree ≡ rows_with
        (own_rows (option_map (λ own. own.now) own.entry)) (store_row store row)) }
{
    match own {
        None => IngestTree::empty().with_row(alloc, store, row),
        Some(own) => own.with_row(alloc, store, row),
    }
}

impl<R: Shared> Txn<R> {
    /// An active transaction over a snapshot, without writes, with its begin order.
    pub fn begin(alloc: Global, view: View<R>, id: u64) -> Txn<R>
        ensures { result ≡ begins id view }
    {
        let last = view.number();
        Txn {
            id,
            state: TxnState::Active,
            view,
            writes: WriteSet::empty(alloc),
            own: None,
            last,
        }
    }

    /// Whether it is active, and else how it ended. It takes no memory.
    pub fn state(&self) -> TxnState
        ensures { result ≡ self.now.state }
    {
        self.state
    }

    /// The number of its snapshot. It takes no memory.
    pub fn snapshot(&self) -> u64
        ensures { result ≡ self.now.view.number }
    {
        self.view.number()
    }

    /// Its begin order. It takes no memory.
    pub fn id(&self) -> u64
        ensures { result ≡ self.now.id }
    {
        self.id
    }

    /// Its snapshot. It takes no memory.
    pub fn view(&self) -> &View<R>
        ensures { result.now ≡ self.now.view }
    {
        &self.view
    }

    /// Its own writes as rows, each newer than the snapshot and than those before it, and none exactly
    /// where it made no write. It takes no memory.
    pub fn own(&self) -> Option<&IngestTree>
        ensures own { option_map (λ own. own.now) result ≡ self.now.own }
        ensures known { IsTxn self.now }
    {
        self.own.as_ref()
    }

    /// Its writes in normal form. It takes no memory.
    pub fn writes(&self) -> &WriteSet
        ensures { result.now ≡ self.now.writes }
    {
        &self.writes
    }

    /// The own writes with one more of a store, beside the old ones. The transaction stays as it is.
    pub fn stage(&self, alloc: Global, store: StoreId, change: &Change) -> Result<Staged, NoMemory>
        ensures { IfOk result (IsStage self.now (write_of store change.now)) }
    {
        let Some(last) = self.last.checked_add(1) else {
            return Err(NoMemory);
        };
        let mut writes = self.writes.copy(alloc)?;
        writes.add(store, change.share(alloc)?)?;
        let row = Row {
            number: last,
            change: change.share(alloc)?,
        };
        let own = with_own(alloc, self.own.as_ref(), store, row)?;
        Ok(Staged { writes, own, last })
    }

    /// Puts staged writes in place of its own. The condition is that they were staged from the
    /// transaction as it is. It takes no memory.
    pub fn keep(&mut self, staged: Staged)
        requires { WasStaged self.old staged }
        ensures { self.new ≡ with_staged self.old staged }
    {
        normal_forms_do_the_same();
        normal_forms_overlap_the_same();
        layers_take_rows();
        self.writes = staged.writes;
        self.own = Some(staged.own);
        self.last = staged.last;
    }

    /// Says how it ended. It takes no memory.
    pub fn end(&mut self, state: TxnState)
        ensures { self.new ≡ with_state self.old state }
    {
        self.state = state;
    }

    /// The value of a key of the store of a name, in the snapshot with the own writes. It takes no
    /// memory, and lends the value. `NotActive` comes exactly where the transaction has ended, else
    /// `NoStore` exactly where no store of the snapshot has the name, else `KeyLength` exactly where the
    /// key's bytes are not 1 to 1,344, with their number.
    pub fn get(&self, store: &StoreName, key: &[u8]) -> Result<Option<&[u8]>, GetFault>
        ensures active { IfOk result (λ _. self.now.state ≡ Active) }
        ensures value { IfOk result (λ value. Gets (reads R.rows self.now) store.now key.now
            (option_map (λ bytes. bytes.now) value)) }
        ensures refused { IfErr result (RefusesRead R.rows self.now store.now key.now) }
    {
        match self.state {
            TxnState::Active => self.read(store, key),
            TxnState::Committed => Err(GetFault::NotActive(self.state)),
            TxnState::Aborted => Err(GetFault::NotActive(self.state)),
        }
    }

    /// The value of a key of the store of a name, whether or not the transaction has ended.
    fn read(&self, store: &StoreName, key: &[u8]) -> Result<Option<&[u8]>, GetFault>
        ensures value { IfOk result (λ value. Gets (reads R.rows self.now) store.now key.now
            (option_map (λ bytes. bytes.now) value)) }
        ensures refused { IfErr result (RefusesGet (reads R.rows self.now) store.now key.now) }
    {
        newer_layers_go_over::<R>();
        let _number = self.view.number();
        match self.view.store(store) {
            None => Err(GetFault::NoStore),
            Some(found) => {
                if !is_key(key) {
                    return Err(GetFault::KeyLength(key.len() as u64));
                }
                Ok(self.view.value(self.own.as_ref(), found, key))
            }
        }
    }
}
