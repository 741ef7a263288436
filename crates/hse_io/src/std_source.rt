//! A source over a reader of std.
ghost use Rattle.std.specs.Prelude.{◌≡◌, ◌≢◌, ℕ, ◌≤◌, length, IfOk, IfSome, MatchResult};
ghost use Rattle.std.specs.IoError.{error_kind};
ghost use Rattle.hse_io.specs.Faults.{next_count};
ghost use Rattle.hse_io.specs.LineCause.{HasLineCause};
ghost use Rattle.hse_io.specs.Longest.{longest_line};
ghost use Rattle.hse_io.specs.ReadsOn.{IsOneLine, ReadsOn};

use crate::{Got, Line, LineFault, NoMemory, Source};
use std::alloc::Global;
use std::io::{BufRead, BufReader, Error, ErrorKind, Read};
use std::marker::Model;

/// A source that reads from a reader, in blocks of 64 KiB. A read that fails counts a fault. An
/// interrupted read is no failure: it is tried again.
#[derive(Drop)]
pub struct StdSource<R: Read + Drop> {
    reader: BufReader<R>,
    faults: u64,
}

impl<R: Read + Drop> Model for StdSource<R> {
    ghost use Rattle.std.specs.Io.Buffered.{reader_remaining};
    ghost use Rattle.hse_io.specs.AdapterState.{AdapterState};

    ghost Value = { AdapterState };

    ghost view = { λ s. record {
      told = reader_remaining R.remaining s.reader;
      faults = s.faults;
    } };
}

/// How many bytes a block has.
const BLOCK: usize = 65_536;

/// How far one step of reading a line came.
enum Reached {
    LineFeed,
    Within,
    InputEnd,
}

impl<R: Read + Drop> StdSource<R> {
    /// A source that gives what this reader gives. Its block is all the memory that it takes.
    pub fn new(alloc: Global, reader: R) -> Result<StdSource<R>, NoMemory>
        ensures { IfOk result (λ source.
            source ≡ record { told = R.remaining reader; faults = 0 }) }
    {
        match BufReader::with_capacity(alloc, BLOCK, reader) {
            Ok(reader) => Ok(StdSource { reader, faults: 0 }),
            Err(_) => Err(NoMemory),
        }
    }

    fn count_fault(&mut self)
        ensures state { self.new ≡ record self.old { faults = next_count self.old.faults } }
        ensures later { self.old.faults ≤ self.new.faults }
    {
        self.faults = self.faults.saturating_add(1);
    }

    /// What comes of a read that failed: after an interrupted one the line goes on, any other counts a fault.
    fn after_error(&mut self, error: &Error) -> Result<Reached, LineFault>
        ensures retried { MatchResult result
            (λ reached. (reached ≡ Reached.Within) × (error_kind error.now ≡ ErrorKind.Interrupted))
            (λ fault. (fault ≡ LineFault.Failed) × (error_kind error.now ≢ ErrorKind.Interrupted)) }
        ensures told { self.new.told ≡ self.old.told }
        ensures cause { HasLineCause self.old.faults self.new.faults result }
    {
        if error.kind() == ErrorKind::Interrupted {
            return Ok(Reached::Within);
        }
        self.count_fault();
        Err(LineFault::Failed)
    }

    /// Appends what the block holds of the line, after reading a block where none is held.
    fn step(&mut self, into: &mut Line) -> Result<Reached, LineFault>
        requires one_line { IsOneLine into.old }
        requires room { length into.old ≤ longest_line }
        ensures reads { ReadsOn into.old self.old.told result into.new self.new.told }
        ensures fits { length into.new ≤ longest_line }
        ensures cause { HasLineCause self.old.faults self.new.faults result }
    {
        let block = match self.reader.fill_buf() {
            Ok(block) => block,
            Err(error) => return self.after_error(&error),
        };
        let held = block.len();
        if held == 0 {
            return Ok(Reached::InputEnd);
        }
        let Some(count) = into.append_line(block) else {
            return Err(LineFault::TooLong);
        };
        if count < held {
            self.reader.consume(count + 1);
            return Ok(Reached::LineFeed);
        }
        self.reader.consume(count);
        Ok(Reached::Within)
    }
}

impl<R: Read + Drop> Source for StdSource<R> {
    ghost remaining = { λ s. s.told };

    ghost faults = { λ s. s.faults };

    fn read_line(&mut self, into: &mut Line) -> Result<Got, LineFault> {
        into.clear();
        'steps: for _ in 0..u64::MAX {
            match self.step(into)? {
                Reached::LineFeed => return Ok(Got::Text),
                Reached::Within => {}
                Reached::InputEnd if into.bytes().is_empty() => return Ok(Got::Ended),
                Reached::InputEnd => return Ok(Got::Text),
            }
        }
        self.count_fault();
        Err(LineFault::Failed)
    }
}
