//! What an engine tells of itself.
ghost use Rattle.std.specs.Prelude.{◌≡◌};
ghost use Rattle.hse_rows.specs.machine.Calls as call;
ghost use Rattle.hse_rows.specs.machine.Core.{Core};
ghost use Rattle.hse_rows.specs.machine.CoreReply.{reply};
ghost use Rattle.hse_rows.specs.machine.Replies.{figures};
ghost use Rattle.kvdb.specs.Figures.{figures_as};
ghost use Rattle.kvdb.specs.Serves.{Serves};
ghost use Rattle.kvdb.specs.Sides.{clock_in};

use crate::engine::Kvdb;
use crate::side::Side;
use kvset::Kvset;
use media_disk::Disk;
use view::View;

/// Figures of an engine: the last number, how many layers are frozen, what the commits of the active
/// layer take of their segment in bytes, how many slots are free, and the sequence of the manifest in
/// force as of the end of the last turn.
#[derive(Clone, Copy, Debug, PartialEq, Eq)]
pub struct Info {
    pub number: u64,
    pub frozen: u64,
    pub charge: u64,
    pub free: u64,
    pub manifest: u64,
}

impl<D: Disk> Kvdb<D> {
    /// The present state, lent. It takes no memory.
    pub fn view(&self) -> &View<Kvset>
        ensures { result.now ≡ self.now.state.view }
    {
        self.state.view()
    }

    /// The engine's figures. It takes no memory.
    pub fn info(&self) -> Info
        ensures { (m : Core) → Serves D.Device self.now m
            → reply m call.info ≡ figures (figures_as result) }
    {
        Info {
            number: self.state.number(),
            frozen: 0,
            charge: self.state.charge(),
            free: self.free,
            manifest: self.sequence,
        }
    }

    /// The disk's clock, and none exactly where a turn is out. It takes no memory.
    pub fn clock(&self) -> Option<u64>
        ensures { result ≡ clock_in D.Device self.now.side }
    {
        match &self.side {
            Side::In(back) => Some(back.disk.clock()),
            Side::Out(_, _) => None,
        }
    }

    /// The clock behind the barrier of the last opening. It takes no memory.
    pub fn moment(&self) -> u64
        ensures { result ≡ self.now.moment }
    {
        self.moment
    }
}
