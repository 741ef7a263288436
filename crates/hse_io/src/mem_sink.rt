//! A sink in memory, whose failing calls are listed.
ghost use Rattle.std.specs.Prelude.{◌≡◌, ◌+◌, ◌++◌, List, [], ℕ, Some, OnOk, OnErr};
ghost use Rattle.std.specs.Io.KnownBytes.{Appends};
ghost use Rattle.hse_io.specs.Faults.{HasCause, next_count};
ghost use Rattle.hse_io.specs.SinkState.{IsFailing};

use crate::{Failed, Sink};
use std::alloc::Global;
use std::marker::Model;

/// A sink that keeps all that is appended. It fails at each listed call, and at any other call where
/// memory for the bytes is refused; the first failures count as `listed`, the others as `refused`.
/// Each of the two counts stops at its last value, and the sink's faults are their sum.
#[derive(Drop)]
pub struct MemSink {
    held: Vec<u8>,
    fails: Vec<u64>,
    calls: u64,
    listed: u64,
    refused: u64,
}

impl Model for MemSink {
    ghost use Rattle.hse_io.specs.SinkState.{SinkState};

    ghost Value = { SinkState };

    ghost view = { λ s. record {
      held = s.held.items;
      fails = s.fails.items;
      calls = s.calls;
      listed = s.listed;
      refused = s.refused;
    } };
}

impl MemSink {
    /// An empty sink. The calls of `write` whose numbers are listed fail, where the first call has
    /// the number 1. It takes memory at later calls alone.
    pub fn new(alloc: Global, fails: Vec<u64>) -> MemSink
        ensures { result ≡ record {
          held = [];
          fails = fails.items;
          calls = 0;
          listed = 0;
          refused = 0;
        } }
    {
        MemSink {
            held: Vec::new(alloc),
            fails,
            calls: 0,
            listed: 0,
            refused: 0,
        }
    }

    /// All bytes that were appended.
    pub fn bytes(&self) -> &[u8]
        ensures { result.now ≡ self.now.held }
    {
        &self.held
    }

    /// How many listed calls have failed.
    pub fn listed(&self) -> u64
        ensures { result ≡ self.now.listed }
    {
        self.listed
    }

    /// How many calls have failed that are not listed, for want of memory.
    pub fn refused(&self) -> u64
        ensures { result ≡ self.now.refused }
    {
        self.refused
    }
}

impl Sink for MemSink {
    ghost contents = { λ s. Some s.held };

    ghost faults = { λ s. s.listed + s.refused };

    /// Counts the call, and appends all the bytes or none.
    fn write(&mut self, bytes: &[u8]) -> Result<(), Failed>
        ensures partly { OnErr result ((begun rest : List ℕ) × (bytes.now ≡ begun ++ rest)
            × Appends (Some self.old.held) (Some self.new.held) begun) }
        ensures cause { HasCause (self.old.listed + self.old.refused)
            (self.new.listed + self.new.refused) result }
        ensures ok { OnOk result (self.new ≡ record self.old {
          calls = next_count self.old.calls;
          held = self.old.held ++ bytes.now;
        }) }
        ensures unlisted { OnOk result (¬ IsFailing self.old) }
        ensures listed { IsFailing self.old → self.new ≡ record self.old {
          calls = next_count self.old.calls;
          listed = next_count self.old.listed;
        } }
        ensures refused { OnErr result (¬ IsFailing self.old → self.new ≡ record self.old {
          calls = next_count self.old.calls;
          refused = next_count self.old.refused;
        }) }
    {
        self.calls = self.calls.saturating_add(1);
        if self.fails.contains(&self.calls) {
            self.listed = self.listed.saturating_add(1);
            return Err(Failed);
        }
        if self.held.extend_from_slice(bytes).is_err() {
            self.refused = self.refused.saturating_add(1);
            return Err(Failed);
        }
        Ok(())
    }
}
