//! Rows of several sources, merged by key, in either direction.
#![tactic(auto)]

mod covers;
mod heads;
mod merged;
mod prefixes;
mod seeks;
mod steps;

pub use merged::Merged;
