//! Cursors: the pairs of a store of a view in key order, in either direction.
#![tactic(auto)]

mod cursor;
mod end;
mod faults;
mod kind;
mod look;
mod mark;
mod next_pair;
mod pair;
mod scope;
mod source;
mod sources;
mod start;

pub use cursor::Cursor;
pub use faults::{CursorFault, ForwardOnly};
