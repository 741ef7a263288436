//! Laws of the definitions. The function does nothing; its contract is the laws.
ghost use Rattle.ingest_tree.specs.Stores.{StoresTakeTheirRows, OthersKeepTheirRows};

/// One row more of all stores' rows is one row more of its store, in place of the older one of its
/// key or prefix, and changes no row of another store.
pub fn stores_take_their_rows()
    ensures own { StoresTakeTheirRows }
    ensures others { OthersKeepTheirRows }
{}
