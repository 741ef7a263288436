//! An engine over the lives of a run, with what was safe since when.
#![tactic(auto)]

mod closing;
mod faults;
mod figures;
mod marks;
mod reopening;
mod run;
mod sessions;
mod starting;
mod turns;

pub use closing::{LivesClosed, LivesStopped};
pub use faults::Unmarked;
pub use run::Lives;
