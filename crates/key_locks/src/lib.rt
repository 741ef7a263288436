//! Which transactions and commits have keys and prefixes, and what cancels a write.
#![tactic(auto)]

mod ending;
mod held;
mod holders;
mod laws;
mod lock;
mod lock_fault;
mod locking;
mod locks;
mod logged;
mod moves;
mod name;
mod names;
mod pruning;
mod search;
mod table;

pub use laws::{
    empty_locks_stand, first_holders_tell, locks_answer_the_conflict, locks_stand_after_ends,
    locks_stand_after_moves, locks_stand_as_before,
};
pub use lock_fault::LockFault;
pub use locks::KeyLocks;
