//! What layers say of a key.
ghost use Rattle.std.specs.Prelude.{◌≡◌, map};
ghost use Rattle.std.specs.Option.{option_map};
ghost use Rattle.hse_rows.specs.rows.RowSets.{row_by};
ghost use Rattle.row_laws.specs.Next.{value_left};
ghost use Rattle.hse_rows.specs.rows.Meaning.{own_at, covered_at, said};
ghost use Rattle.ingest_tree.specs.Rows.{rows_in};
ghost use Rattle.row_laws.specs.Lookup.{word_of};
ghost use Rattle.row_laws.specs.Sources.{first_said};

use hse_rows::{ChangeRef, RowRef, StoreId};
use ingest_tree::IngestTree;
use row_laws::{Word, word_from};

/// What a layer says of a key of a store.
pub(crate) fn layer_word<'a>(layer: &'a IngestTree, store: StoreId, key: &[u8]) -> Word<'a>
    ensures { word_of result ≡ said
        (own_at key.now (rows_in store.0 layer.now)) (covered_at key.now (rows_in store.0 layer.now)) }
{
    word_from(layer.get(store, key), layer.covered(store, key))
}

/// What the first of these layers that says something of a key of a store says.
pub(crate) fn first_word<'a>(layers: &'a [IngestTree], store: StoreId, key: &[u8]) -> Word<'a>
    ensures { word_of result ≡ first_said key.now (map (rows_in store.0) layers.now) }
{
    for layer in layers {
        let word = layer_word(layer, store, key);
        match word {
            Word::Nothing => {}
            Word::Absent => return word,
            Word::Value(_) => return word,
        }
    }
    Word::Nothing
}

/// The value that a row leaves, where there is one.
pub(crate) fn value_of(row: Option<RowRef<'_>>) -> Option<&[u8]>
    ensures { option_map (λ bytes. bytes.now) result ≡ value_left (row_by row.entry) }
{
    match row {
        None => None,
        Some(row) => match row.change {
            ChangeRef::Put(_, value) => Some(value),
            ChangeRef::Del(_) => None,
            ChangeRef::PDel(_) => None,
        },
    }
}
