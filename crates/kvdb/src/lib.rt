//! The engine: its device side and its state in memory, in steps.
#![tactic(auto)]

mod bases;
mod ending;
mod engine;
mod entering;
mod figures;
mod laws;
mod leaving;
mod listing;
mod log_start;
mod new_device;
mod opening;
mod planning;
mod reopening;
mod running;
mod sessions;
mod side;
mod taking;
mod turn;

pub use engine::Kvdb;
pub use engine_state::{BeginFault, CommitFault, CursorPlace, CursorsFull, WriteFault};
pub use figures::Info;
pub use laws::engines_begin_sound_lives;
pub use leaving::{CloseFault, Closed};
pub use listing::StoreLine;
pub use reopening::ReopenFault;
pub use side::TurnKind;
pub use turn::{Broken, Ran, Turn, TurnFault, TurnWish};
