//! A source in memory, whose failing calls are listed.
ghost use Rattle.std.specs.Prelude.{◌≡◌, ◌≢◌, ◌↔◌, Some, IsTrue, OnErr, IsErrOf};
ghost use Rattle.hse_io.specs.Faults.{next_count};
ghost use Rattle.hse_io.specs.LineCause.{HasLineCause};
ghost use Rattle.hse_io.specs.Takes.{Takes};
ghost use Rattle.hse_io.specs.SourceState.{IsFailing};

use crate::{Got, Line, LineFault, Source};
use std::marker::Model;

/// A source of given bytes. It takes no memory, and fails exactly at its listed calls. The count
/// of calls stops at its last value, and so do the faults.
#[derive(Drop)]
pub struct MemSource {
    bytes: Vec<u8>,
    at: usize,
    fails: Vec<u64>,
    calls: u64,
    faults: u64,
}

impl Model for MemSource {
    ghost use Rattle.std.specs.Prelude.{◌≤◌, drop, vec_len};
    ghost use Rattle.hse_io.specs.SourceState.{SourceState};

    ghost Value = { SourceState };

    ghost view = { λ s. record {
      left = drop s.at s.bytes.items;
      fails = s.fails.items;
      calls = s.calls;
      faults = s.faults;
    } };

    ghost invariant = { λ s. s.at ≤ vec_len s.bytes };
}

impl MemSource {
    /// A source that gives these bytes. The calls of `read_line` whose numbers are listed fail,
    /// where the first call has the number 1.
    pub fn of(bytes: Vec<u8>, fails: Vec<u64>) -> MemSource
        ensures { result ≡ record {
          left = bytes.items;
          fails = fails.items;
          calls = 0;
          faults = 0;
        } }
    {
        MemSource {
            bytes,
            at: 0,
            fails,
            calls: 0,
            faults: 0,
        }
    }

    /// Counts a call, and answers whether it is one that fails. The count stops at its last value.
    fn starts_failing_call(&mut self) -> bool
        ensures calls { self.new ≡ record self.old { calls = next_count self.old.calls } }
        ensures failing { IsTrue result ↔ IsFailing self.old }
    {
        self.calls = self.calls.saturating_add(1);
        self.fails.contains(&self.calls)
    }

    /// Takes the next line and its line feed, and counts nothing.
    fn take_line(&mut self, into: &mut Line) -> Result<Got, LineFault>
        ensures takes { Takes self.old.left result into.new (Some self.new.left) }
        ensures same { self.new ≡ record self.old { left = self.new.left } }
        ensures answers { result ≢ Err LineFault.Failed }
        ensures unread { OnErr result (self.new.left ≡ self.old.left) }
    {
        into.clear();
        let left = &self.bytes[self.at..];
        if left.is_empty() {
            return Ok(Got::Ended);
        }
        let Some(count) = into.append_line(left) else {
            return Err(LineFault::TooLong);
        };
        self.at += (count + 1).min(left.len());
        Ok(Got::Text)
    }
}

impl Source for MemSource {
    ghost remaining = { λ s. Some s.left };

    ghost faults = { λ s. s.faults };

    /// Counts the call. An `Err` takes no byte.
    fn read_line(&mut self, into: &mut Line) -> Result<Got, LineFault>
        ensures takes { Takes self.old.left result into.new (Some self.new.left) }
        ensures cause { HasLineCause self.old.faults self.new.faults result }
        ensures listed { IsErrOf result LineFault.Failed ↔ IsFailing self.old }
        ensures failing { IsFailing self.old → self.new ≡ record self.old {
          calls = next_count self.old.calls;
          faults = next_count self.old.faults;
        } }
        ensures reading { ¬ IsFailing self.old → self.new ≡ record self.old {
          calls = next_count self.old.calls;
          left = self.new.left;
        } }
        ensures unread { OnErr result (self.new.left ≡ self.old.left) }
    {
        if self.starts_failing_call() {
            self.faults = self.faults.saturating_add(1);
            return Err(LineFault::Failed);
        }
        self.take_line(into)
    }
}
