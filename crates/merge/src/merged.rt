//! A merge of sources.
ghost use Rattle.std.specs.Prelude.{◌≡◌, ◌<◌, ℕ, List, map, Option, None, IfOk, IfSome};
ghost use Rattle.std.specs.List.{filter};
ghost use Rattle.hse_rows.specs.declared.row.Row.{Row as a_row};
ghost use Rattle.hse_rows.specs.writes.Change.{FitsLimits};
ghost use Rattle.hse_rows.specs.rows.Newest.{newest};
ghost use Rattle.hse_rows.specs.rows.RowSets.{row_of, row_by};
ghost use Rattle.hse_rows.specs.script.Cursor.{forward, backward, front};
ghost use Rattle.row_laws.specs.Next.{OwnFalls, position_of};
ghost use Rattle.row_laws.specs.Sources.{all_rows};
ghost use Rattle.prefix_delete.specs.Prefixes.{rows_of};
ghost use Rattle.merge.specs.Places.{direction_of, places_by};
ghost use Rattle.merge.specs.Steps.{IsRowAt};
ghost use Rattle.merge.specs.Deletes.{all_deletes, is_delete};
ghost use Rattle.merge.specs.Merge.{StandsAt, IsNext, Goes, last_after, rows_ahead};

use crate::covers::are_known;
use crate::prefixes::prefixes;
use crate::seeks::{first_places, seek, seek_end};
use crate::steps::step;
use hse_io::NoMemory;
use hse_rows::{RowRef, RowSet};
use prefix_delete::PrefixList;
use row_laws::merged_rows_are_entries;
use std::alloc::Global;
use std::marker::Model;

/// The key rows of several sources, merged: of each key the newest, unless a newer prefix delete of
/// any source covers it. Deletions are among them.
#[derive(Drop)]
pub struct Merged<R: RowSet + Drop> {
    sources: Vec<R>,
    places: Vec<u64>,
    reverse: bool,
    last: Option<(u64, u64)>,
}

impl<R: RowSet + Drop> Model for Merged<R> {
    ghost use Rattle.std.specs.Prelude.{◌≡◌, map, length};
    ghost use Rattle.merge.specs.Places.{direction_of};
    ghost use Rattle.merge.specs.Merge.{MergeState, IsMerge};

    ghost Value = { MergeState };

    ghost view = { λ m. record {
      sources = map R.rows m.sources.items;
      direction = direction_of m.reverse;
      places = m.places.items;
      last = m.last;
    } };

    ghost invariant = { λ m. (length m.sources.items ≡ length m.places.items) × IsMerge (record {
      sources = map R.rows m.sources.items;
      direction = direction_of m.reverse;
      places = m.places.items;
      last = m.last;
    }) };
}

impl<R: RowSet + Drop> Merged<R> {
    ghost use Rattle.std.specs.Prelude.{⊤};
    ghost use Rattle.std.specs.Borrow.{sem};
    ghost use mathlib.Core.Option.{none};
    ghost use denote.Follow.{follows_so};
    ghost use Rattle.merge.specs.contracts.merged.Merged.{the_row};

    /// A merge of these sources, the newest first, before all keys and going up. The condition is that
    /// each key's rows fall in number from source to source.
    pub fn new(alloc: Global, sources: Vec<R>) -> Result<Merged<R>, NoMemory>
        requires { (key : List ℕ) → OwnFalls key (map R.rows sources.items) }
        ensures { IfOk result (λ merged. merged ≡ record {
          sources = map R.rows sources.items;
          direction = forward;
          places = places_by forward front (map R.rows sources.items);
          last = None;
        }) }
    {
        let places = first_places(alloc, &sources)?;
        Ok(Merged {
            sources,
            places,
            reverse: false,
            last: None,
        })
    }

    /// Goes to an edge, or past it, to go on from there in a direction. It takes no memory.
    pub fn seek(&mut self, edge: &[u8], past: bool, reverse: bool)
        ensures { self.new ≡ record {
          sources = self.old.sources;
          direction = direction_of reverse;
          places = places_by (direction_of reverse) (position_of past edge.now) self.old.sources;
          last = self.old.last;
        } }
    {
        seek(&self.sources, &mut self.places, edge, past, reverse);
        self.reverse = reverse;
    }

    /// Goes behind all keys, to go down from there. It takes no memory.
    pub fn seek_end(&mut self)
        ensures { self.new ≡ record {
          sources = self.old.sources;
          direction = backward;
          places = places_by backward front self.old.sources;
          last = self.old.last;
        } }
    {
        seek_end(&self.sources, &mut self.places);
        self.reverse = true;
    }

    /// The source, counted from 0, and the place in it of the row that `next` gave last, and none before
    /// the first. It takes no memory.
    pub fn last_place(&self) -> Option<(u64, u64)>
        ensures { result ≡ self.now.last }
    {
        self.last
    }

    /// The prefix deletes of all sources, each prefix once with the greatest number: those of the newest
    /// rows of all.
    pub fn prefixes(&self, alloc: Global) -> Result<PrefixList, NoMemory>
        ensures made { IfOk result (λ list. list ≡ all_deletes self.now.sources) }
        ensures newest { IfOk result (λ list. rows_of list
            ≡ filter is_delete (newest (all_rows self.now.sources))) }
    {
        prefixes(alloc, &self.sources)
    }

    /// The next merged row in the direction: of each key the newest row, unless a newer prefix delete
    /// of any source covers it. There is none where no key is left, and then nothing changes. It takes
    /// no memory. No place is searched. For each key that it passes it reads at most three rows of
    /// each source, and asks `covered` of each source that has prefix deletes.
    pub fn next(&mut self) -> Option<RowRef<'_>>
        ensures row { IsNext self.old (row_by result) }
        ensures* after { sem 𝓛 (follows_so (the_row R.row R.RowSet) (the_row R.row R.RowSet)
            self.entry.ghost_name none (λ _ _. ⊤) (λ n. Goes self.old (row_by result) n)) }
    {
        match self.advance() {
            None => None,
            Some((source, at)) => Some(self.row(source, at)),
        }
    }

    /// The row at a place of a source, both counted from 0. It takes no memory.
    pub fn row(&self, source: u64, at: u64) -> RowRef<'_>
        requires { (row : a_row) × IsRowAt self.now.sources source at row }
        ensures row { IsRowAt self.now.sources source at (row_of result) }
        ensures within { FitsLimits (row_of result).change }
    {
        row_in(&self.sources, source, at)
    }

    /// A step to the next merged row as `next`, which gives its source and its place there. Each step
    /// to a row leaves fewer rows ahead.
    pub fn advance(&mut self) -> Option<(u64, u64)>
        ensures there { IfSome result (λ place.
            (row : a_row) × IsRowAt self.new.sources place.0 place.1 row) }
        ensures row { (found : Option a_row) → StandsAt self.new.sources result found
            → IsNext self.old found }
        ensures goes { (found : Option a_row) → StandsAt self.new.sources result found
            → Goes self.old found self.new }
        ensures fewer { IfSome result (λ _. rows_ahead self.new < rows_ahead self.old) }
    {
        let found = step(&self.sources, &mut self.places, self.reverse);
        are_known(&self.sources);
        merged_rows_are_entries();
        self.last = later(self.last, found);
        found
    }
}

/// The later of two places, where there is one.
fn later(old: Option<(u64, u64)>, found: Option<(u64, u64)>) -> Option<(u64, u64)>
    ensures { result ≡ last_after old found }
{
    match found {
        None => old,
        Some(_) => found,
    }
}

/// The row at a place of a source.
fn row_in<'a, R: RowSet>(sources: &'a [R], source: u64, at: u64) -> RowRef<'a>
    requires { (row : a_row) × IsRowAt (map R.rows sources.now) source at row }
    ensures row { IsRowAt (map R.rows sources.now) source at (row_of result) }
    ensures within { FitsLimits (row_of result).change }
{
    let rows = &sources[source as usize];
    rows.known();
    rows.row(at)
}
