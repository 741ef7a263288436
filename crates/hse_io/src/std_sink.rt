//! A sink over a writer of std.
ghost use Rattle.std.specs.Prelude.{◌≡◌, ◌≢◌, ◌++◌, ℕ, ◌≤◌, List, Option, length, IfOk, MatchResult};
ghost use Rattle.std.specs.IoError.{error_kind};
ghost use Rattle.std.specs.Io.KnownBytes.{WriteAppends};
ghost use Rattle.hse_io.specs.Faults.{HasCause, next_count};

use crate::{Failed, Sink};
use std::io::{Error, ErrorKind, Write};
use std::marker::Model;

/// A sink that writes to a writer. It does not buffer: a piece is one call of the writer where the
/// writer takes it whole. A call that fails, or takes no byte, counts a fault. An interrupted call
/// is no failure: it is tried again. The writer is never flushed.
#[derive(Drop)]
pub struct StdSink<W: Write + Drop> {
    writer: W,
    faults: u64,
}

impl<W: Write + Drop> Model for StdSink<W> {
    ghost use Rattle.hse_io.specs.AdapterState.{AdapterState};

    ghost Value = { AdapterState };

    ghost view = { λ s. record { told = W.contents s.writer; faults = s.faults } };
}

impl<W: Write + Drop> StdSink<W> {
    /// A sink that appends to this writer.
    pub fn new(writer: W) -> StdSink<W>
        ensures { result ≡ record { told = W.contents writer; faults = 0 } }
    {
        StdSink { writer, faults: 0 }
    }

    fn count_fault(&mut self)
        ensures state { self.new ≡ record self.old { faults = next_count self.old.faults } }
        ensures later { self.old.faults ≤ self.new.faults }
    {
        self.faults = self.faults.saturating_add(1);
    }

    /// What comes of a write that failed: an interrupted one has written nothing, any other counts a fault.
    fn after_error(&mut self, error: &Error) -> Result<usize, Failed>
        ensures retried { MatchResult result
            (λ count. (count ≡ 0) × (error_kind error.now ≡ ErrorKind.Interrupted))
            (λ _. error_kind error.now ≢ ErrorKind.Interrupted) }
        ensures told { self.new.told ≡ self.old.told }
        ensures cause { HasCause self.old.faults self.new.faults result }
    {
        if error.kind() == ErrorKind::Interrupted {
            return Ok(0);
        }
        self.count_fault();
        Err(Failed)
    }

    /// Writes the bytes up to some place by one call of the writer, and answers how many they are; none where it
    /// was interrupted.
    fn write_some(&mut self, bytes: &[u8]) -> Result<usize, Failed>
        ensures within { IfOk result (λ count. count ≤ length bytes.now) }
        ensures written { WriteAppends self.old.told self.new.told result bytes.now }
        ensures cause { HasCause self.old.faults self.new.faults result }
    {
        match self.writer.write(bytes) {
            Ok(0) => {
                self.count_fault();
                Err(Failed)
            }
            Ok(count) => Ok(count),
            Err(error) => self.after_error(&error),
        }
    }
}

impl<W: Write + Drop> Sink for StdSink<W> {
    ghost contents = { λ s. s.told };

    ghost faults = { λ s. s.faults };

    fn write(&mut self, bytes: &[u8]) -> Result<(), Failed> {
        let mut done = 0;
        'writes: for _ in 0..u64::MAX {
            if done == bytes.len() {
                return Ok(());
            }
            done += self.write_some(&bytes[done..])?;
        }
        self.count_fault();
        Err(Failed)
    }
}
