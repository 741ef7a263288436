//! Transactions: a snapshot, the writes made in it, and how it ended.
#![tactic(auto)]

mod laws;
mod staged;
mod txn;

pub use laws::transactions_stand;
pub use staged::Staged;
pub use txn::Txn;
