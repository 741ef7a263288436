//! The calls that are to fail.
ghost use Rattle.std.specs.Prelude.{◌≡◌, ◌^◌, ◌-◌, [], IsTrue};
ghost use Rattle.media_disk.specs.Lists.{fails, fails_write, after_write};

use std::alloc::Global;
use std::marker::Model;

/// Which calls are to fail. At the clock's last value each call does.
#[derive(Drop)]
pub struct FaultList {
    calls: Vec<u64>,
    from: u64,
    write: u64,
}

impl Model for FaultList {
    ghost use Rattle.std.specs.Prelude.{◌≤◌, ◌-◌, ◌^◌};
    ghost use Rattle.media_disk.specs.Lists.{Lists};

    ghost Value = { Lists };

    ghost view = { λ l. record { calls = l.calls.items; from = l.from; write = l.write } };

    ghost invariant = { λ l. l.from ≤ 2 ^ 64 - 1 };
}

impl FaultList {
    /// No call is listed.
    pub fn new(alloc: Global) -> FaultList
        ensures calls { result.calls ≡ [] }
        ensures from { result.from ≡ 2 ^ 64 - 1 }
        ensures write { result.write ≡ 0 }
    {
        FaultList {
            calls: Vec::new(alloc),
            from: u64::MAX,
            write: 0,
        }
    }

    /// Lists the calls at these clocks, and no other clocks.
    pub fn set_calls(&mut self, calls: Vec<u64>)
        ensures { self.new ≡ record self.old { calls = calls.items } }
    {
        self.calls = calls;
    }

    /// Lists all calls from this clock on.
    pub fn set_from(&mut self, call: u64)
        ensures { self.new ≡ record self.old { from = call } }
    {
        self.from = call;
    }

    /// Lists this one of the next writes, counted from 1.
    pub fn set_write(&mut self, write: u64)
        ensures { self.new ≡ record self.old { write = write } }
    {
        self.write = write;
    }

    /// Whether a call at this clock is listed.
    pub fn fails(&self, clock: u64) -> bool
        ensures fails { result ≡ fails self.now clock }
        ensures last { clock ≡ 2 ^ 64 - 1 → IsTrue result }
    {
        self.calls.contains(&clock) || self.from <= clock
    }

    /// Whether a write at this clock is listed. It counts the write.
    pub fn fails_write(&mut self, clock: u64) -> bool
        ensures fails { result ≡ fails_write self.old clock }
        ensures last { clock ≡ 2 ^ 64 - 1 → IsTrue result }
        ensures after { self.new ≡ after_write self.old }
    {
        let listed = self.write == 1;
        self.write = self.write.saturating_sub(1);
        listed || self.fails(clock)
    }
}
