//! A few parts in a row, which nodes that differ in other parts share.
ghost use Rattle.std.specs.Prelude.{◌≡◌, ◌≤◌, ◌<◌, ◌+◌, length, IfOk, None};
ghost use Rattle.ingest_tree.specs.Chunks.{AreChunks, IsSeat, Widens, joined, place_of};
ghost use Rattle.ingest_tree.specs.Parts.{IsFinished, grown_at, parts_of};
ghost use Rattle.std.specs.Prelude.{get_or};

use crate::builder::{Builder, Twin, rebuilt};
use crate::mark::Mark;
use crate::part::{Grown, Part};
use crate::piece::{Piece, counted, mark_over};
use crate::steps::Steps;
use crate::store_row::StoreRow;
use hse_io::NoMemory;
use std::alloc::Global;
use std::marker::Model;
use std::sync::Arc;
use std::sync::ledger::Ledger;

/// The most parts of a chunk.
const ROOM: usize = 8;

/// Up to eight parts in a row, which several nodes share, with how many rows they have and the mark
/// of the first.
#[derive(Drop)]
pub(crate) struct Chunk<T: Part> {
    parts: Arc<Vec<T>>,
    count: u64,
    mark: Mark,
}

impl<T: Part> Model for Chunk<T> {
    ghost use Rattle.std.specs.Prelude.{◌≡◌, List, length};
    ghost use Rattle.std.specs.Arc.{arc_value};
    ghost use Rattle.std.specs.List.{flat_map};
    ghost use Rattle.ingest_tree.specs.Marks.{first_mark};

    ghost Value = { List T };

    ghost view = { λ chunk. (arc_value chunk.parts).items };

    ghost invariant = { λ chunk. (chunk.count ≡ length (flat_map T.rows (arc_value chunk.parts).items))
        × (chunk.mark ≡ first_mark T.marked (arc_value chunk.parts).items) };
}

impl<T: Part> Twin for Chunk<T> {
    fn share(&self) -> Result<Chunk<T>, NoMemory> {
        Ok(Chunk {
            parts: self.parts.clone()?,
            count: self.count,
            mark: self.mark,
        })
    }
}

impl<T: Part> Piece for Chunk<T> {
    ghost use Rattle.std.specs.Prelude.{◌<◌, length};
    ghost use Rattle.std.specs.List.{AllByRecursion, flat_map};
    ghost use Rattle.ingest_tree.specs.Marks.{first_mark};
    ghost use Rattle.ingest_tree.specs.laws.Filling.{some-begin, some-marks};

    ghost rows = { λ chunk. flat_map T.rows chunk };

    ghost sound = { λ chunk. (0 < length chunk) × AllByRecursion T.sound chunk };

    ghost marked = { first_mark T.marked };

    ghost begins = { λ chunk sound. some-begin T.sound T.rows T.begins chunk sound.0 sound.1 };

    ghost has_mark = { λ chunk sound.
        some-marks T.sound T.rows T.begins T.marked T.has_mark chunk sound.0 sound.1 };

    fn mark(&self) -> Mark {
        self.mark
    }

    fn count(&self) -> u64 {
        self.count
    }

    fn first(&self) -> &StoreRow {
        self.parts()[0].first()
    }
}

impl<T: Part> Chunk<T> {
    /// A chunk of these parts.
    fn new(alloc: Global, parts: Vec<T>) -> Result<Chunk<T>, NoMemory>
        ensures { IfOk result (λ chunk. chunk ≡ parts.items) }
    {
        let count = counted(&parts)?;
        let mark = mark_over(&parts);
        let parts = Arc::new(alloc, parts)?;
        Ok(Chunk { parts, count, mark })
    }

    /// Its parts.
    pub fn parts(&self) -> &[T]
        ensures { result.now ≡ self.now }
    {
        &self.parts
    }

    /// The chunk or the two chunks with what a part became in its place. Each part is one step.
    pub fn with<L: Ledger>(
        &self,
        alloc: Global,
        at: usize,
        grown: Grown<T>,
        steps: &mut Steps<L>,
    ) -> Result<Grown<Chunk<T>>, NoMemory>
        requires within { at < length self.now }
        requires most { length self.now ≤ 8 }
        ensures parts { IfOk result (λ new. joined (parts_of new.0 new.1)
            ≡ grown_at at self.now grown.0 grown.1) }
        ensures widens { IfOk result (λ new. Widens self.now new.0 new.1) }
        ensures whole { grown.1 ≡ None → IfOk result (λ new. new.1 ≡ None) }
        ensures cost { steps.new + 1
            ≤ steps.old + (length self.now + length (parts_of grown.0 grown.1)) }
    {
        let parts = self.parts();
        let cut = cut_for(parts.len() + added(&grown));
        let builder = rebuilt(alloc, parts, at, grown, cut, steps)?;
        finished(alloc, builder)
    }
}

/// How many parts there are more, where a part became one or two.
fn added<T: Part>(grown: &Grown<T>) -> usize
    ensures { result + 1 ≡ length (parts_of grown.now.0 grown.now.1) }
{
    match &grown.1 {
        None => 0,
        Some(_) => 1,
    }
}

/// How many of so many parts the first chunk takes.
fn cut_for(count: usize) -> usize
    ensures whole { count ≤ 8 → result ≡ 8 }
    ensures halves { 8 < count → result ≡ 4 }
{
    if count <= ROOM { ROOM } else { ROOM / 2 }
}

/// The chunk or the two chunks that the builder's parts make.
fn finished<T: Part>(alloc: Global, builder: Builder<T>) -> Result<Grown<Chunk<T>>, NoMemory>
    ensures { IfOk result (λ grown.
        IsFinished builder.first.items builder.second.items grown.0 grown.1) }
{
    let Builder {
        first,
        second,
        cut: _,
    } = builder;
    let chunk = Chunk::new(alloc, first)?;
    if second.is_empty() {
        return Ok((chunk, None));
    }
    let other = Chunk::new(alloc, second)?;
    Ok((chunk, Some(other)))
}

/// The chunks of these parts.
pub(crate) fn cut_up<T: Part>(alloc: Global, parts: Vec<T>) -> Result<Vec<Chunk<T>>, NoMemory>
    ensures joined { IfOk result (λ chunks. joined chunks.items ≡ parts.items) }
    ensures chunks { IfOk result (λ chunks. AreChunks chunks.items) }
{
    let mut chunks = Vec::with_capacity(alloc, parts.len() / ROOM + 1)?;
    let mut last = Vec::with_capacity(alloc, ROOM)?;
    for part in parts {
        if last.len() == ROOM {
            chunks.push(Chunk::new(alloc, last)?)?;
            last = Vec::with_capacity(alloc, ROOM)?;
        }
        last.push(part)?;
    }
    if last.is_empty() {
        return Ok(chunks);
    }
    chunks.push(Chunk::new(alloc, last)?)?;
    Ok(chunks)
}

/// A chunk, and a place in it.
#[derive(Clone, Copy)]
pub(crate) struct Seat {
    pub chunk: usize,
    pub place: usize,
}

/// The part at a seat.
pub(crate) fn part_at<T: Part>(chunks: &[Chunk<T>], seat: Seat) -> &T
    requires { IsSeat chunks.now seat.chunk seat.place }
    ensures { result.now
        ≡ get_or (joined chunks.now) (place_of chunks.now seat.chunk seat.place) result.now }
{
    &chunks[seat.chunk].parts()[seat.place]
}
