//! Scripts: lines in, replies out, and a log that holds what they stored.
#![tactic(auto)]

mod answering;
mod closing;
mod command;
mod ending;
mod engine;
mod entry;
mod laws;
mod log;
mod open;
mod replay;
mod reply;
mod rows;
mod run;
mod script;
mod turn;

pub use command::lines_have_one_meaning;
pub use ending::tell;
pub use laws::devices_have_one_reading;
pub use run::run_script;
