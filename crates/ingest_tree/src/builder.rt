//! The one builder of leaves, branches and roots.
ghost use Rattle.std.specs.Prelude.{◌≡◌, ◌≤◌, ◌<◌, ◌+◌, [], ◌∷◌, ◌++◌, length, IfOk, OnOk};
ghost use Rattle.ingest_tree.specs.Chunks.{IsSeat, joined, place_of};
ghost use Rattle.ingest_tree.specs.Parts.{IsInOrder, grown_at, parts_of};

use crate::chunk::{Chunk, Seat};
use crate::part::{Grown, Part};
use crate::steps::Steps;
use hse_io::NoMemory;
use std::alloc::Global;
use std::sync::ledger::Ledger;

/// What several owners share.
pub(crate) trait Twin: Drop + Sized {
    /// One more owner of the same.
    fn share(&self) -> Result<Self, NoMemory>
        ensures { IfOk result (λ twin. twin ≡ self.now) };
}

/// Parts in a row for two nodes. The first takes as many as `cut`, and the second the others.
#[derive(Drop)]
pub(crate) struct Builder<T: Drop> {
    pub first: Vec<T>,
    pub second: Vec<T>,
    pub cut: usize,
    ghost in_order: { IsInOrder first.items second.items cut },
}

impl<T: Twin> Builder<T> {
    /// No parts yet, for so many in all.
    pub fn new(alloc: Global, total: usize, cut: usize) -> Result<Builder<T>, NoMemory>
        ensures items { IfOk result (λ builder. builder.first.items ++ builder.second.items ≡ []) }
        ensures cut { IfOk result (λ builder. builder.cut ≡ cut) }
    {
        let (front, back) = if total <= cut {
            (total, 0)
        } else {
            (cut, total - cut)
        };
        let first = Vec::with_capacity(alloc, front)?;
        let second = Vec::with_capacity(alloc, back)?;
        Ok(Builder { first, second, cut })
    }

    /// Puts one more part behind the others. It is one step.
    pub fn put<L: Ledger>(&mut self, part: T, steps: &mut Steps<L>) -> Result<(), NoMemory>
        ensures items { OnOk result (self.new.first.items ++ self.new.second.items
            ≡ (self.old.first.items ++ self.old.second.items) ++ part ∷ []) }
        ensures cut { self.new.cut ≡ self.old.cut }
        ensures cost { steps.new ≡ steps.old + 1 }
    {
        steps.tick();
        if self.first.len() < self.cut {
            self.first.push(part)?;
            return Ok(());
        }
        self.second.push(part)?;
        Ok(())
    }

    /// Puts twins of these parts behind the others.
    fn put_all<L: Ledger>(&mut self, parts: &[T], steps: &mut Steps<L>) -> Result<(), NoMemory>
        ensures items { OnOk result (self.new.first.items ++ self.new.second.items
            ≡ (self.old.first.items ++ self.old.second.items) ++ parts.now) }
        ensures cut { self.new.cut ≡ self.old.cut }
        ensures cost { steps.new ≤ steps.old + length parts.now }
    {
        for part in parts {
            self.put(part.share()?, steps)?;
        }
        Ok(())
    }

    /// Puts what a part became behind the others.
    fn put_grown<L: Ledger>(
        &mut self,
        grown: Grown<T>,
        steps: &mut Steps<L>,
    ) -> Result<(), NoMemory>
        ensures items { OnOk result (self.new.first.items ++ self.new.second.items
            ≡ (self.old.first.items ++ self.old.second.items) ++ parts_of grown.0 grown.1) }
        ensures cut { self.new.cut ≡ self.old.cut }
        ensures cost { steps.new ≤ steps.old + length (parts_of grown.0 grown.1) }
    {
        let (part, other) = grown;
        self.put(part, steps)?;
        match other {
            Some(other) => self.put(other, steps),
            None => Ok(()),
        }
    }

    /// Puts twins of these parts behind the others, with what one of them became in its place.
    fn put_with<L: Ledger>(
        &mut self,
        parts: &[T],
        at: usize,
        grown: Grown<T>,
        steps: &mut Steps<L>,
    ) -> Result<(), NoMemory>
        requires { at < length parts.now }
        ensures items { OnOk result (self.new.first.items ++ self.new.second.items
            ≡ (self.old.first.items ++ self.old.second.items)
            ++ grown_at at parts.now grown.0 grown.1) }
        ensures cut { self.new.cut ≡ self.old.cut }
        ensures cost { steps.new + 1
            ≤ steps.old + (length parts.now + length (parts_of grown.0 grown.1)) }
    {
        let (before, rest) = parts.split_at(at);
        let (_, behind) = rest.split_at(1);
        self.put_all(before, steps)?;
        self.put_grown(grown, steps)?;
        self.put_all(behind, steps)
    }
}

impl<T: Part> Builder<T> {
    /// Puts twins of all parts of these chunks behind the others.
    fn put_chunks<L: Ledger>(
        &mut self,
        chunks: &[Chunk<T>],
        steps: &mut Steps<L>,
    ) -> Result<(), NoMemory>
        ensures items { OnOk result (self.new.first.items ++ self.new.second.items
            ≡ (self.old.first.items ++ self.old.second.items) ++ joined chunks.now) }
        ensures cut { self.new.cut ≡ self.old.cut }
        ensures cost { steps.new ≤ steps.old + length (joined chunks.now) }
    {
        for chunk in chunks {
            self.put_all(chunk.parts(), steps)?;
        }
        Ok(())
    }
}

/// The parts with what one of them became in its place. Each is one step.
pub(crate) fn rebuilt<T: Twin, L: Ledger>(
    alloc: Global,
    parts: &[T],
    at: usize,
    grown: Grown<T>,
    cut: usize,
    steps: &mut Steps<L>,
) -> Result<Builder<T>, NoMemory>
    requires { at < length parts.now }
    ensures items { IfOk result (λ builder. builder.first.items ++ builder.second.items
        ≡ grown_at at parts.now grown.0 grown.1) }
    ensures cut { IfOk result (λ builder. builder.cut ≡ cut) }
    ensures cost { steps.new + 1
        ≤ steps.old + (length parts.now + length (parts_of grown.0 grown.1)) }
{
    let mut builder = Builder::new(alloc, parts.len().saturating_add(1), cut)?;
    builder.put_with(parts, at, grown, steps)?;
    Ok(builder)
}

/// The parts of the chunks, so many in all, with what one of them became in its place. Each is one
/// step.
pub(crate) fn spread<T: Part, L: Ledger>(
    alloc: Global,
    chunks: &[Chunk<T>],
    seat: Seat,
    grown: Grown<T>,
    total: usize,
    cut: usize,
    steps: &mut Steps<L>,
) -> Result<Builder<T>, NoMemory>
    requires { IsSeat chunks.now seat.chunk seat.place }
    ensures items { IfOk result (λ builder. builder.first.items ++ builder.second.items
        ≡ grown_at (place_of chunks.now seat.chunk seat.place) (joined chunks.now)
        grown.0 grown.1) }
    ensures cut { IfOk result (λ builder. builder.cut ≡ cut) }
    ensures cost { steps.new + 1
        ≤ steps.old + (length (joined chunks.now) + length (parts_of grown.0 grown.1)) }
{
    let (before, rest) = chunks.split_at(seat.chunk);
    let (_, behind) = rest.split_at(1);
    let mut builder = Builder::new(alloc, total, cut)?;
    builder.put_chunks(before, steps)?;
    builder.put_with(chunks[seat.chunk].parts(), seat.place, grown, steps)?;
    builder.put_chunks(behind, steps)?;
    Ok(builder)
}
