//! A leaf or a branch: parts in a row, which several owners share.
ghost use Rattle.std.specs.Prelude.{◌≡◌, ◌≤◌, ◌<◌, ◌+◌, ◌*◌, ◌^◌, [], ◌∷◌, IfOk};
ghost use Rattle.std.specs.Prelude.{length, take, None};
ghost use Rattle.std.specs.List.{flat_map};
ghost use Rattle.std.specs.Option.{option_map};
ghost use Rattle.ingest_tree.specs.Chunks.{AreChunks, IsSeat, joined, place_of};
ghost use Rattle.ingest_tree.specs.Rows.{AreRising, row_at, rows_with, found_at, count_before};
ghost use Rattle.ingest_tree.specs.Parts.{Stand, IsFinished, grown_at, parts_of};

use crate::builder::{Builder, Twin, rebuilt, spread};
use crate::chunk::{Chunk, Seat, cut_up, part_at};
use crate::mark::Mark;
use crate::part::{Grown, Part};
use crate::piece::{Piece, counted, counted_before, mark_over, piece_over};
use crate::search::seat_of;
use crate::steps::Steps;
use crate::store_row::{SharedRow, Spot, StoreRow};
use hse_io::NoMemory;
use std::alloc::Global;
use std::marker::Model;
use std::sync::Arc;
use std::sync::ledger::Ledger;

/// Parts in a row, in chunks, with how many there are, how many rows they have and the mark of the
/// first.
#[derive(Drop)]
pub(crate) struct Node<T: Part> {
    chunks: Arc<Vec<Chunk<T>>>,
    len: usize,
    count: u64,
    mark: Mark,
}

impl<T: Part> Model for Node<T> {
    ghost use Rattle.std.specs.Prelude.{◌≡◌, List, length};
    ghost use Rattle.std.specs.Arc.{arc_value};
    ghost use Rattle.std.specs.List.{flat_map};
    ghost use Rattle.ingest_tree.specs.Chunks.{AreChunks, joined};
    ghost use Rattle.ingest_tree.specs.Marks.{first_mark};

    ghost Value = { List T };

    ghost view = { λ n. joined (arc_value n.chunks).items };

    ghost invariant = { λ n. AreChunks (arc_value n.chunks).items
        × (n.len ≡ length (joined (arc_value n.chunks).items))
        × (n.count ≡ length (flat_map T.rows (joined (arc_value n.chunks).items)))
        × (n.mark ≡ first_mark T.marked (joined (arc_value n.chunks).items)) };
}

/// A leaf, and a branch.
pub(crate) type Leaf = Node<SharedRow>;

pub(crate) type Branch = Node<Leaf>;

/// The most parts of a leaf and of a branch.
const MOST: usize = 128;

/// How many parts the first of two has after a split.
const HALF: usize = 64;

impl<T: Part> Node<T> {
    /// A node of these parts.
    pub fn new(alloc: Global, parts: Vec<T>) -> Result<Node<T>, NoMemory>
        ensures { IfOk result (λ node. node ≡ parts.items) }
    {
        let len = parts.len();
        let chunks = cut_up(alloc, parts)?;
        Node::of(alloc, chunks, len)
    }

    /// A node of these chunks of so many parts.
    fn of(alloc: Global, chunks: Vec<Chunk<T>>, len: usize) -> Result<Node<T>, NoMemory>
        requires chunks { AreChunks chunks.items }
        requires len { len ≡ length (joined chunks.items) }
        ensures { IfOk result (λ node. node ≡ joined chunks.items) }
    {
        let count = counted(&chunks)?;
        let mark = mark_over(&chunks);
        let chunks = Arc::new(alloc, chunks)?;
        Ok(Node {
            chunks,
            len,
            count,
            mark,
        })
    }

    /// Its chunks.
    pub fn chunks(&self) -> &[Chunk<T>]
        ensures parts { joined result.now ≡ self.now }
        ensures chunks { AreChunks result.now }
    {
        &self.chunks
    }

    /// How many parts there are.
    pub fn len(&self) -> usize
        ensures { result ≡ length self.now }
    {
        self.len
    }
}

/// The node of these chunks with what a part became in its place, of so many parts then. It shares
/// all chunks but one. Each chunk, and each part of the new ones, is a step.
fn regrown<T: Part, L: Ledger>(
    alloc: Global,
    chunks: &[Chunk<T>],
    seat: Seat,
    grown: Grown<T>,
    len: usize,
    steps: &mut Steps<L>,
) -> Result<Node<T>, NoMemory>
    requires chunks { AreChunks chunks.now }
    requires seat { IsSeat chunks.now seat.chunk seat.place }
    requires len { len + 1 ≡ length (joined chunks.now) + length (parts_of grown.0 grown.1) }
    ensures node { IfOk result (λ node. node
        ≡ grown_at (place_of chunks.now seat.chunk seat.place) (joined chunks.now)
        grown.0 grown.1) }
    ensures same { grown.1 ≡ None → steps.new ≤ steps.old + (length (joined chunks.now) + 1) }
    ensures more { len ≤ 128 → steps.new ≤ steps.old + 129 }
{
    let chunk = chunks[seat.chunk].with(alloc, seat.place, grown, steps)?;
    let builder = rebuilt(alloc, chunks, seat.chunk, chunk, len, steps)?;
    Node::of(alloc, builder.first, len)
}

/// The node or the two nodes that the builder's parts make.
fn finished<T: Part>(alloc: Global, builder: Builder<T>) -> Result<Grown<Node<T>>, NoMemory>
    ensures { IfOk result (λ grown.
        IsFinished builder.first.items builder.second.items grown.0 grown.1) }
{
    let Builder {
        first,
        second,
        cut: _,
    } = builder;
    let node = Node::new(alloc, first)?;
    if second.is_empty() {
        return Ok((node, None));
    }
    let other = Node::new(alloc, second)?;
    Ok((node, Some(other)))
}

/// How many rows stand before a seat.
fn counted_to<T: Part>(chunks: &[Chunk<T>], seat: Seat) -> u64
    requires seat { IsSeat chunks.now seat.chunk seat.place }
    requires fits { length (flat_map T.rows (joined chunks.now)) < 2 ^ 64 }
    ensures { result ≡ length (flat_map T.rows
        (take (place_of chunks.now seat.chunk seat.place) (joined chunks.now))) }
{
    let parts = chunks[seat.chunk].parts();
    counted_before(chunks, seat.chunk) + counted_before(parts, seat.place)
}

impl<T: Part> Twin for Node<T> {
    fn share(&self) -> Result<Node<T>, NoMemory> {
        Ok(Node {
            chunks: self.chunks.clone()?,
            len: self.len,
            count: self.count,
            mark: self.mark,
        })
    }
}

impl<T: Part> Piece for Node<T> {
    ghost use Rattle.std.specs.List.{flat_map};
    ghost use Rattle.ingest_tree.specs.Parts.{IsSoundNode};
    ghost use Rattle.ingest_tree.specs.laws.Filling.{sound-begins, sound-marks};
    ghost use Rattle.ingest_tree.specs.Marks.{first_mark};

    ghost rows = { λ node. flat_map T.rows node };

    ghost sound = { λ node. IsSoundNode T.filled T.sound node };

    ghost marked = { first_mark T.marked };

    ghost begins = { λ node sound. sound-begins T.filled T.sound T.is_sound T.rows T.begins node sound.1 };

    ghost has_mark = { λ node sound.
        sound-marks T.filled T.sound T.is_sound T.rows T.begins T.marked T.has_mark node sound.1 };

    fn mark(&self) -> Mark {
        self.mark
    }

    fn count(&self) -> u64 {
        self.count
    }

    fn first(&self) -> &StoreRow {
        self.chunks()[0].first()
    }
}

impl<T: Part> Part for Node<T> {
    ghost use Rattle.std.specs.Prelude.{◌*◌, ◌+◌};
    ghost use Rattle.ingest_tree.specs.Parts.{IsFilledNode};
    ghost use Rattle.ingest_tree.specs.laws.Filling.{filled-sound, filled-rows};

    ghost filled = { λ node. IsFilledNode T.filled node };

    ghost weight = { 64 * T.weight };

    ghost cost = { T.cost + 129 };

    ghost is_sound = { filled-sound T.filled T.sound T.is_sound };

    ghost has_rows = { λ node. filled-rows T.filled T.sound T.is_sound T.rows T.weight T.has_rows node };

    fn at(&self, place: u64) -> &StoreRow {
        let chunks = self.chunks();
        let (at, before) = piece_over(chunks, place);
        let parts = chunks[at].parts();
        let (part, within) = piece_over(parts, place - before);
        parts[part].at(place - before - within)
    }

    fn find(&self, spot: Spot<'_>) -> Option<&StoreRow> {
        self.find_in(spot)
    }

    fn place(&self, spot: Spot<'_>) -> u64 {
        self.place_in(spot)
    }

    fn with<L: Ledger>(
        &self,
        alloc: Global,
        row: SharedRow,
        steps: &mut Steps<L>,
    ) -> Result<Grown<Node<T>>, NoMemory> {
        let chunks = self.chunks();
        let seat = seat_of(chunks, row.row().spot());
        let (part, other) = part_at(chunks, seat).with(alloc, row, steps)?;
        let Some(other) = other else {
            let node = regrown(alloc, chunks, seat, (part, None), self.len, steps)?;
            return Ok((node, None));
        };
        if self.len < MOST {
            let node = regrown(
                alloc,
                chunks,
                seat,
                (part, Some(other)),
                self.len + 1,
                steps,
            )?;
            return Ok((node, None));
        }
        let total = self.len.saturating_add(1);
        let builder = spread(alloc, chunks, seat, (part, Some(other)), total, HALF, steps)?;
        finished(alloc, builder)
    }
}

/// A node of one part.
pub(crate) fn lone<T: Part, L: Ledger>(
    alloc: Global,
    part: T,
    steps: &mut Steps<L>,
) -> Result<Node<T>, NoMemory>
    ensures node { IfOk result (λ node. node ≡ part ∷ []) }
    ensures cost { steps.new ≤ steps.old + 1 }
{
    let mut builder = Builder::new(alloc, 1, 1)?;
    builder.put(part, steps)?;
    Node::new(alloc, builder.first)
}

/// A root, which has room for any number of parts, with one more row. The old one stays.
pub(crate) fn root_with<T: Part, L: Ledger>(
    alloc: Global,
    root: &Node<T>,
    row: SharedRow,
    steps: &mut Steps<L>,
) -> Result<Node<T>, NoMemory>
    requires stands { Stand T.filled T.sound root.now }
    requires rising { AreRising (flat_map T.rows root.now) }
    ensures rows { IfOk result (λ node. flat_map T.rows node
        ≡ rows_with (flat_map T.rows root.now) row) }
    ensures stands { IfOk result (λ node. Stand T.filled T.sound node) }
    ensures cost { steps.new ≤ steps.old + (T.cost + (length root.now + 1)) }
{
    let chunks = root.chunks();
    let Some(cut) = root.len().checked_add(1) else {
        return Err(NoMemory);
    };
    let seat = seat_of(chunks, row.row().spot());
    let (part, other) = part_at(chunks, seat).with(alloc, row, steps)?;
    match other {
        None => regrown(alloc, chunks, seat, (part, None), root.len(), steps),
        Some(other) => {
            let builder = spread(alloc, chunks, seat, (part, Some(other)), cut, cut, steps)?;
            Node::new(alloc, builder.first)
        }
    }
}

impl<T: Part> Node<T> {
    /// The row at this spot, where there may be any number of parts.
    pub fn find_in(&self, spot: Spot<'_>) -> Option<&StoreRow>
        requires stands { Stand T.filled T.sound self.now }
        requires rising { AreRising (flat_map T.rows self.now) }
        ensures { option_map (λ row. row.now) result
            ≡ found_at (row_at spot.entry) (flat_map T.rows self.now) }
    {
        let chunks = self.chunks();
        part_at(chunks, seat_of(chunks, spot)).find(spot)
    }

    /// How many rows stand before this spot, where there may be any number of parts.
    pub fn place_in(&self, spot: Spot<'_>) -> u64
        requires stands { Stand T.filled T.sound self.now }
        requires rising { AreRising (flat_map T.rows self.now) }
        ensures { result ≡ count_before (row_at spot.entry) (flat_map T.rows self.now) }
    {
        let _all = self.count;
        let chunks = self.chunks();
        let seat = seat_of(chunks, spot);
        counted_to(chunks, seat) + part_at(chunks, seat).place(spot)
    }
}
