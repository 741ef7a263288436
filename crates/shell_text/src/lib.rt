//! The lines of a script and the texts of their replies.
#![tactic(auto)]

mod append;
mod cursor_lines;
mod fields;
mod item_text;
mod laws;
mod line;
mod line_text;
mod listed;
mod name_lines;
mod parse;
mod plain;
mod print;
mod refusal_text;
mod reply;
mod split;
mod store_lines;
mod store_text;
mod take_lines;
mod verb;
mod words;
mod write_lines;

pub use laws::{items_read_back, lines_have_one_meaning};
pub use line::{Actor, Line, TakeText, TextFault};
pub use listed::{Item, Listed};
pub use parse::parse_line;
pub use print::print_reply;
pub use reply::{DoneText, PhaseText, Refused, RegionText, Reply, StoreText, StoreTexts, TurnText};
