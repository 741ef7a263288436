//! The engine without its device: the present view, the locks, the live transactions and what waits.
#![tactic(auto)]

mod begin;
mod commit;
mod cursors;
mod ending;
mod faults;
mod laws;
mod layers;
mod lengths;
mod limits;
mod live;
mod logging;
mod opening;
mod plain;
mod sizes;
mod state;
mod store_event;
mod stores;
mod turns;
mod views;
mod write;

pub use cursors::CursorPlace;
pub use faults::{BeginFault, CommitFault, CreateFault, CursorsFull, DropFault, WriteFault};
pub use laws::{steps_keep_states_sound, transactions_stay};
pub use sizes::EngineSizes;
pub use state::EngineState;
pub use store_event::StoreEvent;
