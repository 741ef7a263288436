//! A cursor.
ghost use Rattle.std.specs.Prelude.{◌≡◌, ◌≤◌, length, map, None, IfOk, IfErr, IfSome};
ghost use Rattle.std.specs.Option.{option_map};
ghost use Rattle.merge.specs.Places.{direction_of};
ghost use Rattle.view.specs.Views.{layers_with};
ghost use Rattle.view.specs.Means.{IsUnder};
ghost use Rattle.view.specs.Merges as view_sources;
ghost use Rattle.cursors.specs.Cursors.{AreNewer, IsOpened, RefusesOpening, IsUpdated};
ghost use Rattle.cursors.specs.Cursors.{IsPairAt, IsRead, RefusesUpdate, meant, ranged, with_position};
ghost use Rattle.hse_rows.specs.script.Cursor.{Pair, at_key, forward, backward, found_by, read_by};
ghost use Rattle.hse_rows.specs.script.Cursor.{after_read, sought, sought_range};
ghost use Rattle.hse_rows.specs.writes.Lengths.{longest_key};

use crate::faults::{CursorFault, ForwardOnly};
use crate::look::look;
use crate::mark::{Last, Mark, Stand};
use crate::next_pair::next_pair;
use crate::pair::pair_in;
use crate::scope::Scope;
use crate::source::Source;
use crate::sources::sources_of;
use hse_io::NoMemory;
use hse_rows::{Edge, Shared, StoreId, StoreName};
use ingest_tree::IngestTree;
use merge::Merged;
use std::alloc::Global;
use std::marker::Model;
use view::{View, ViewStore, newer_layers_go_over, stores_are_merged};

/// The pairs of a store of a view whose keys begin with a filter, in a direction, and a position
/// among them. The view stays as it was when it was taken.
#[derive(Drop)]
pub struct Cursor<R: Shared> {
    store: StoreId,
    scope: Scope,
    merged: Merged<Source<R>>,
    position: Mark,
    last: Last,
    next: Option<(u64, u64)>,
}

impl<R: Shared> Model for Cursor<R> {
    ghost use Rattle.cursors.specs.Cursors.{CursorKept, meant};
    ghost use Rattle.cursors.specs.Pairs.{IsNextPair};

    ghost Value = { CursorKept };

    ghost view = { λ c. record {
      store = c.store.0;
      direction = c.scope.direction;
      prefix = c.scope.prefix;
      sources = c.merged.sources;
      position = c.position;
      last = c.last;
    } };

    ghost invariant = { λ c. IsNextPair (meant (record {
      store = c.store.0;
      direction = c.scope.direction;
      prefix = c.scope.prefix;
      sources = c.merged.sources;
      position = c.position;
      last = c.last;
    })) c.merged c.next };
}

/// A merge of the sources of a store.
fn merged_of<R: Shared>(
    alloc: Global,
    view: &View<R>,
    own: Option<&IngestTree>,
    store: &ViewStore<R>,
) -> Result<Merged<Source<R>>, NoMemory>
    requires { IsUnder R.rows
        (layers_with (option_map (λ own. own.now) own) view.now.layers) store.now }
    ensures { IfOk result (λ merged. merged.sources ≡ view_sources.sources_of R.rows
        (layers_with (option_map (λ own. own.now) own.entry) view.now.layers) store.now) }
{
    stores_are_merged::<R>();
    let _nodes = store.tree.nodes();
    let sources = sources_of(alloc, view, own, store)?;
    Merged::new(alloc, sources)
}

impl<R: Shared> Cursor<R> {
    ghost use Rattle.std.specs.Prelude.{⊤};
    ghost use Rattle.std.specs.Borrow.{sem};
    ghost use mathlib.Core.Option.{none};
    ghost use denote.Follow.{follows_so};
    ghost use Rattle.cursors.specs.contracts.cursor.Cursor.{the_row};

    /// A cursor before all pairs of the store of a name whose keys begin with the filter. The own
    /// writes of a transaction go before the view; the condition is that they are newer. `NoStore`
    /// comes exactly where no store of the view has the name.
    pub fn create(
        alloc: Global,
        view: View<R>,
        own: Option<IngestTree>,
        store: &StoreName,
        reverse: bool,
        filter: Edge,
    ) -> Result<Cursor<R>, CursorFault>
        requires { AreNewer view own }
        ensures made { IfOk result
            (IsOpened R.rows view own store.now (direction_of reverse) filter) }
        ensures refused { IfErr result (RefusesOpening view store.now) }
    {
        newer_layers_go_over::<R>();
        stores_are_merged::<R>();
        let _number = view.number();
        let Some(found) = view.store(store) else {
            return Err(CursorFault::NoStore);
        };
        let mut merged = merged_of(alloc, &view, own.as_ref(), found)?;
        let position = Mark::front(alloc)?;
        let last = Last::none(alloc)?;
        let scope = Scope::new(alloc, reverse, filter)?;
        let next = look(&mut merged, &position, scope.asked(last.key()));
        Ok(Cursor {
            store: found.id,
            scope,
            merged,
            position,
            last,
            next,
        })
    }

    /// A step behind the next pair, which gives its place.
    fn advance(&mut self) -> Option<(u64, u64)>
        ensures { IsRead self.old result self.new }
    {
        let Some((source, at)) = self.next else {
            return None;
        };
        let (key, _) = pair_in(&self.merged, source, at);
        self.position.set(Stand::Past, key);
        let asked = self.scope.asked(self.last.key());
        self.next = next_pair(&mut self.merged, asked);
        Some((source, at))
    }

    /// The pair at a place.
    fn pair(&self, source: u64, at: u64) -> (&[u8], &[u8])
        requires { (pair : Pair) × IsPairAt self.now.sources source at pair }
        ensures { (pair : Pair) → IsPairAt self.now.sources source at pair
            → (result.0.now, result.1.now) ≡ pair }
    {
        pair_in(&self.merged, source, at)
    }

    /// The key of the next pair.
    fn found(&self) -> Option<&[u8]>
        ensures { option_map (λ key. key.now) result ≡ found_by (meant self.now) }
    {
        match self.next {
            None => None,
            Some((source, at)) => Some(pair_in(&self.merged, source, at).0),
        }
    }

    /// Goes to a key, with another last key or none.
    fn go(&mut self, key: &[u8], last: Option<&[u8]>)
        requires key { length key.now ≤ longest_key }
        requires last { IfSome last (λ last. length last.now ≤ longest_key) }
        ensures { self.new ≡ with_position self.old (at_key key.now)
            (option_map (λ last. last.now) last.entry) }
    {
        self.position.set(Stand::At, key);
        self.last.set(last);
        let asked = self.scope.asked(self.last.key());
        self.next = look(&mut self.merged, &self.position, asked);
    }

    /// The next pair, in the direction, and the position is then behind its key. There is none at
    /// the end, and then nothing changes. It takes no memory.
    pub fn read(&mut self) -> Option<(&[u8], &[u8])>
        ensures pair { option_map (λ pair. (pair.0.now, pair.1.now)) result
            ≡ read_by (meant self.old) }
        ensures* after { sem 𝓛 (follows_so (the_row R.row (record {}) R.RowSet)
            (the_row R.row (record {}) R.RowSet) self.entry.ghost_name none (λ _ _. ⊤)
            (λ n. meant n ≡ after_read (meant self.old))) }
    {
        match self.advance() {
            None => None,
            Some((source, at)) => Some(self.pair(source, at)),
        }
    }

    /// Goes to a key, or to where it would stand, and ends a range. It gives the key of the next
    /// pair from there in the direction, and none at the end. It takes no memory.
    pub fn seek(&mut self, key: &Edge) -> Option<&[u8]>
        ensures found { option_map (λ key. key.now) result
            ≡ found_by (sought (meant self.old) key.now) }
        ensures* after { sem 𝓛 (follows_so (the_row R.row (record {}) R.RowSet)
            (the_row R.row (record {}) R.RowSet) self.entry.ghost_name none (λ _ _. ⊤)
            (λ n. meant n ≡ sought (meant self.old) key.now)) }
    {
        self.go(key.bytes(), None);
        self.found()
    }

    /// Goes to a first key, or to where it would stand, and reads no farther than to a last one. It
    /// gives the key of the next pair from there, and none at the end. `ForwardOnly` comes exactly
    /// where the cursor is a reverse one, and then nothing changes. It takes no memory.
    pub fn seek_range(&mut self, first: &Edge, last: &Edge) -> Result<Option<&[u8]>, ForwardOnly>
        ensures found { IfOk result (λ found. (self.old.direction ≡ forward)
            × (option_map (λ key. key.now) found
            ≡ found_by (sought_range (meant self.old) first.now last.now))) }
        ensures refused { IfErr result (λ _. self.old.direction ≡ backward) }
        ensures* after { sem 𝓛 (follows_so (the_row R.row (record {}) R.RowSet)
            (the_row R.row (record {}) R.RowSet) self.entry.ghost_name none (λ _ _. ⊤)
            (λ n. meant n ≡ ranged (meant self.old) first.now last.now)) }
    {
        if self.scope.is_reverse() {
            return Err(ForwardOnly);
        }
        self.go(first.bytes(), Some(last.bytes()));
        Ok(self.found())
    }

    /// Another view, with the own writes of a transaction before it; the condition is that they are
    /// newer. Position, last key and the rest stay. `NoStore` comes exactly where no store of the
    /// view has the cursor's id. After a fault the cursor is as before.
    pub fn update_view(
        &mut self,
        alloc: Global,
        view: View<R>,
        own: Option<IngestTree>,
    ) -> Result<(), CursorFault>
        requires { AreNewer view own }
        ensures updated { IfOk result (λ _. IsUpdated R.rows view own self.old self.new) }
        ensures refused { IfErr result (RefusesUpdate view self.old.store) }
        ensures kept { IfErr result (λ _. self.new ≡ self.old) }
    {
        newer_layers_go_over::<R>();
        stores_are_merged::<R>();
        let _number = view.number();
        let Some(found) = view.store_of(self.store) else {
            return Err(CursorFault::NoStore);
        };
        let mut merged = merged_of(alloc, &view, own.as_ref(), found)?;
        let asked = self.scope.asked(self.last.key());
        self.next = look(&mut merged, &self.position, asked);
        self.merged = merged;
        Ok(())
    }
}
