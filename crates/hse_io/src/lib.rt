//! What a program reads and writes: lines from a source, bytes to a sink, and how a run ends.
#![tactic(auto)]

mod limits;
mod line;
mod mem_sink;
mod mem_source;
mod outcome;
mod sink;
mod source;
mod std_sink;
mod std_source;

pub use limits::{LONGEST_LINE, LONGEST_SCRIPT};
pub use line::{Line, NoMemory};
pub use mem_sink::MemSink;
pub use mem_source::MemSource;
pub use outcome::{Mark, Outcome, Status};
pub use sink::{Failed, Sink};
pub use source::{Got, LineFault, Source};
pub use std_sink::StdSink;
pub use std_source::StdSource;
