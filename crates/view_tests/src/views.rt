//! Views and transactions of one store without sets.
ghost use Rattle.std.specs.Prelude.{◌≡◌, ◌≤◌, IfOk};
ghost use Rattle.std.specs.List.{AllByRecursion};
ghost use Rattle.ingest_tree.specs.declared.store_row.StoreRow.{StoreRow as a_row};

use cn_tree::Tree;
use hse_io::NoMemory;
use hse_rows::{Change, Key, Mode, Prefix, Row, StoreId, StoreName, Value};
use ingest_tree::{IngestTree, StoreRows};
use std::alloc::Global;
use std::process::Abort;
use std::test::Fail;
use transactions::Txn;
use view::{GetFault, TxnState, View, ViewStore};

/// A view of one store without sets, under this layer.
pub(crate) fn view_of(
    alloc: Global,
    number: u64,
    name: StoreName,
    active: IngestTree,
) -> Result<View<StoreRows>, NoMemory>
    requires { AllByRecursion (λ (row : a_row). row.row.number ≤ number) active }
    ensures { IfOk result (λ view. view.number ≡ number) }
{
    let mut stores = Vec::new(alloc);
    stores.push(ViewStore {
        name,
        id: StoreId(1),
        mode: Mode::Plain,
        prefix: 2,
        tree: Tree::empty(2),
    })?;
    View::of(alloc, number, stores, active, Vec::new(alloc))
}

/// A layer with one put of a key of store 1, with number 2.
fn layer_of(alloc: Global, key: &[u8], value: &[u8]) -> Result<IngestTree, Fail>
    ensures { IfOk result (λ layer. AllByRecursion (λ (row : a_row). row.row.number ≤ 2) layer) }
{
    let key = Key::new(alloc, key)?;
    let value = Value::new(alloc, value, 8)?;
    let change = Change::Put(key, value);
    let row = Row { number: 2, change };
    let layer = IngestTree::empty().with_row(alloc, StoreId(1), row)?;
    Ok(layer)
}

/// One write of store 1 in a transaction.
pub(crate) fn write(
    alloc: Global,
    txn: &mut Txn<StoreRows>,
    change: &Change,
) -> Result<(), NoMemory> {
    let staged = txn.stage(alloc, StoreId(1), change)?;
    txn.keep(staged);
    Ok(())
}

#[test]
fn a_view_reads_its_layer(rt: HostRuntime) -> Result<(), Fail> {
    let alloc = rt.alloc();
    let name = StoreName::new(alloc, b"s")?;
    let view = view_of(alloc, 2, name.share(alloc)?, layer_of(alloc, b"ab", b"v")?)?;
    let twin = view.share(alloc)?;
    assert!(&rt; twin.get(&name, b"ab") == Ok(Some(b"v".as_slice())));
    assert!(&rt; twin.get(&name, b"a") == Ok(None));
    assert!(&rt; twin.get(&name, b"") == Err(GetFault::KeyLength(0)));
    Ok(())
}

#[test]
fn a_transaction_reads_its_own_writes(rt: HostRuntime) -> Result<(), Fail> {
    let alloc = rt.alloc();
    let name = StoreName::new(alloc, b"s")?;
    let view = view_of(alloc, 2, name.share(alloc)?, layer_of(alloc, b"ab", b"v")?)?;
    let mut txn = Txn::begin(alloc, view, 1);
    write(alloc, &mut txn, &Change::PDel(Prefix::new(alloc, b"a", 2)?))?;
    assert!(&rt; txn.get(&name, b"ab") == Ok(None));
    assert!(&rt; txn.view().get(&name, b"ab") == Ok(Some(b"v".as_slice())));
    txn.end(TxnState::Committed);
    assert!(&rt; txn.get(&name, b"ab") == Err(GetFault::NotActive(TxnState::Committed)));
    Ok(())
}
