//! How a run ends.

/// Why a run ended. The number is the program's exit status.
#[derive(Clone, Copy, Debug, PartialEq, Eq)]
pub enum Status {
    /// The input was read to its end and the engine was closed.
    Done = 0,
    /// The command line is none of the program's.
    Usage = 2,
    /// The source failed.
    ReadFault = 3,
    /// The sink failed.
    WriteFault = 4,
    /// The disk failed.
    DeviceFault = 5,
    /// The device holds no database that this program reads.
    NotFormed = 6,
    /// Memory was refused, outside a line.
    NoMemory = 7,
    /// A line has more than `LONGEST_LINE` bytes.
    LineTooLong = 8,
    /// The lines taken have more than `LONGEST_SCRIPT` bytes, each counted with one byte more.
    ScriptTooLong = 9,
    /// The device already holds something.
    NotEmpty = 10,
    /// The parameter line is out of form or out of bounds.
    BadParams = 11,
    /// The work was refused.
    Refused = 12,
}

/// A moment from which on a number of the history is safe on the device.
#[derive(Clone, Copy, Debug, PartialEq, Eq)]
pub struct Mark {
    /// How many reopenings came before.
    pub life: u64,
    /// The history number that was answered.
    pub number: u64,
    /// The disk's clock at that answer.
    pub moment: u64,
}

/// How a run ended, and its marks in order.
#[derive(Drop)]
pub struct Outcome {
    pub status: Status,
    pub marks: Vec<Mark>,
}
