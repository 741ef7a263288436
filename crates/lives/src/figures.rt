//! What an engine tells of itself, and its marks.
ghost use Rattle.std.specs.Prelude.{◌≡◌, IfOk, map};
ghost use Rattle.hse_rows.specs.machine.Calls as call;
ghost use Rattle.hse_rows.specs.machine.CoreReply.{reply};
ghost use Rattle.hse_rows.specs.machine.Replies as answer;
ghost use Rattle.kvdb.specs.Figures.{figures_as};
ghost use Rattle.kvdb.specs.Listing.{line_as};
ghost use Rattle.lives.specs.Serves.{LivesServe};
ghost use Rattle.lives.specs.Stories.{Story};

use crate::run::Lives;
use hse_io::NoMemory;
use kvdb::{Info, StoreLine};
use kvset::Kvset;
use media_disk::Disk;
use std::alloc::Global;
use view::View;

impl<D: Disk> Lives<D> {
    /// The present state, lent. It takes no memory.
    pub fn view(&self) -> &View<Kvset>
        ensures { result.now ≡ self.now.phases.db.state.view }
    {
        self.phases.view()
    }

    /// The live stores in the order of their names.
    pub fn stores(&self, alloc: Global) -> Result<Vec<StoreLine>, NoMemory>
        ensures { (s : Story) → LivesServe D.Device self.now s
            → IfOk result (λ lines. reply s.machine call.list_stores ≡ answer.listed (map line_as lines.items)) }
    {
        self.phases.stores(alloc)
    }

    /// The engine's figures. It takes no memory.
    pub fn info(&self) -> Info
        ensures { (s : Story) → LivesServe D.Device self.now s
            → reply s.machine call.info ≡ answer.figures (figures_as result) }
    {
        self.phases.info()
    }
}
