//! A creation or a drop that was prepared.
ghost use Rattle.std.specs.Prelude.{◌≡◌};

use hse_rows::{Shared, StoreId};
use view::View;

/// A creation or a drop that was prepared: the store that comes or goes, and the state after it, for
/// which all memory is taken.
#[derive(Drop)]
pub struct StoreEvent<R: Shared> {
    pub(crate) store: StoreId,
    pub(crate) view: View<R>,
}

impl<R: Shared> StoreEvent<R> {
    /// The store that comes or goes. It takes no memory.
    pub fn store(&self) -> StoreId
        ensures { result ≡ self.now.store }
    {
        self.store
    }

    /// The state after it, lent. It takes no memory.
    pub fn view(&self) -> &View<R>
        ensures { result.now ≡ self.now.view }
    {
        &self.view
    }

    /// Its number. It takes no memory.
    pub fn number(&self) -> u64
        ensures { result ≡ self.now.view.number }
    {
        self.view.number()
    }
}
