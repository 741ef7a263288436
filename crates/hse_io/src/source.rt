//! A source of lines.
ghost use Rattle.std.specs.Prelude.{◌≡◌, List, ℕ, Option, IfSome};
ghost use Rattle.hse_io.specs.LineCause.{HasLineCause};
ghost use Rattle.hse_io.specs.Takes.{Takes};

use crate::Line;
use thiserror::Error;

/// What a call of `read_line` got.
#[derive(Clone, Copy, Debug, PartialEq, Eq)]
pub enum Got {
    /// A line is there.
    Text,
    /// No byte was left.
    Ended,
}

/// Why there is no line.
#[derive(Clone, Copy, Debug, PartialEq, Eq, Error)]
pub enum LineFault {
    #[error("the source failed")]
    Failed,
    #[error("the line is too long")]
    TooLong,
}

/// A stream of bytes that is read line by line. An implementation in memory tells which bytes are left, and
/// clauses on them hold where it does.
pub trait Source {
    /// The bytes that are left, where the source tells them.
    ghost remaining: { Self → Option (List ℕ) };

    /// How often the source has failed.
    ghost faults: { Self → ℕ };

    /// Takes the next line, without its line feed, into the buffer; a last line may lack the line feed. `TooLong`
    /// where it has more than `LONGEST_LINE` bytes, `Failed` where the source failed, which alone counts a fault.
    /// After an `Err` the buffer and what is left of the source are open. It takes no memory.
    fn read_line(&mut self, into: &mut Line) -> Result<Got, LineFault>
        ensures takes { IfSome (remaining self.old) (λ input. Takes input result into.new (remaining self.new)) }
        ensures cause { HasLineCause (faults self.old) (faults self.new) result };
}
