//! The engine with the turn that is out of it, in one value.
#![tactic(auto)]

mod closing;
mod faults;
mod figures;
mod held;
mod phases;
mod reopening;
mod sessions;
mod starting;
mod turns;
mod whole;

pub use faults::{EndFault, RunFault, TurnPhase, WholeFault};
pub use phases::TurnPhases;
