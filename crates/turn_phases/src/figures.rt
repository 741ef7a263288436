//! What an engine tells of itself, whatever turn is out.
ghost use Rattle.std.specs.Prelude.{◌≡◌, IfOk, map};
ghost use Rattle.hse_rows.specs.machine.Calls as call;
ghost use Rattle.hse_rows.specs.machine.Core.{Core};
ghost use Rattle.hse_rows.specs.machine.CoreReply.{reply};
ghost use Rattle.hse_rows.specs.machine.Replies as answer;
ghost use Rattle.kvdb.specs.Figures.{figures_as};
ghost use Rattle.kvdb.specs.Listing.{line_as};
ghost use Rattle.kvdb.specs.Sides.{clock_in};
ghost use Rattle.turn_phases.specs.Serves.{PhasesServe};

use crate::phases::TurnPhases;
use hse_io::NoMemory;
use kvdb::{Info, StoreLine};
use kvset::Kvset;
use media_disk::Disk;
use std::alloc::Global;
use view::View;

impl<D: Disk> TurnPhases<D> {
    /// The present state, lent. It takes no memory.
    pub fn view(&self) -> &View<Kvset>
        ensures { result.now ≡ self.now.db.state.view }
    {
        self.db.view()
    }

    /// The live stores in the order of their names.
    pub fn stores(&self, alloc: Global) -> Result<Vec<StoreLine>, NoMemory>
        ensures { (m : Core) → PhasesServe D.Device self.now m
            → IfOk result (λ lines. reply m call.list_stores ≡ answer.listed (map line_as lines.items)) }
    {
        self.db.stores(alloc)
    }

    /// The engine's figures. It takes no memory.
    pub fn info(&self) -> Info
        ensures { (m : Core) → PhasesServe D.Device self.now m
            → reply m call.info ≡ answer.figures (figures_as result) }
    {
        self.db.info()
    }

    /// The disk's clock, and none exactly where a turn is out. It takes no memory.
    pub fn clock(&self) -> Option<u64>
        ensures { result ≡ clock_in D.Device self.now.db.side }
    {
        self.db.clock()
    }

    /// The clock behind the barrier of the last opening. It takes no memory.
    pub fn moment(&self) -> u64
        ensures { result ≡ self.now.db.moment }
    {
        self.db.moment()
    }
}
