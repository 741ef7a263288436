//! A slow snapshot machine for tests: it answers lines of a script as the engine has to, from plain lists that it
//! copies and walks. It shares no code with the engine, and promises no more than that each call returns.
#![tactic(auto)]

mod change;
mod commits;
mod cursor;
mod cursors;
mod device;
mod line;
mod lines;
mod machine;
mod pairs;
mod refusal;
mod state;
mod stores;
mod text;
mod transaction;
mod turn;
mod words;

pub use machine::Machine;
