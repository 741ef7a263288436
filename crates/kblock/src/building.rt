//! Fills a block with keys, page by page.
ghost use Rattle.std.specs.Prelude.{◌≡◌, ◌+◌, ◌*◌, ◌-◌, ◌<◌, ◌≤◌, ◌^◌, ◌++◌, ◌∷◌, [], drop, false, length, true, ℕ, List, OnOk, OnErr, IfOk, IfErr};
ghost use Rattle.hse_fields.specs.BlockText.{KeyEntry as an_entry, block_header, header_size, key_block_text, key_kind, key_text, page_cost};
ghost use Rattle.hse_fields.specs.LogLimits.{longest_key};
ghost use Rattle.kblock.specs.Building.{Builds, goes_in, page_with, pages_with};
ghost use Rattle.kblock.specs.Entries.{entry_of};

use crate::entry::{KeyEntry, size};
use crate::putting::{put, put_count, put_entry, put_page};
use hse_fields::{BlockFull, BlockHeader, KEY_KIND, PAGE_SIZE, write_header};
use hse_io::NoMemory;
use std::alloc::Global;

/// How many bytes a page takes of a block, with the number behind the pages.
const PAGE_COST: u64 = 4_100;

/// A block that is being filled: room for the header and the full pages, the numbers that come behind
/// them, and the keys of the page that is open.
#[derive(Drop)]
pub struct KeyBlockBuilder {
    bytes: Vec<u8>,
    counts: Vec<u8>,
    page: Vec<u8>,
    slot: u64,
    in_page: u16,
    pages: u32,
    before: u32,
}

impl KeyBlockBuilder {
    /// A builder of a block of at most so many bytes, without keys. It takes the block's memory at
    /// once.
    pub fn new(alloc: Global, slot: u64) -> Result<KeyBlockBuilder, NoMemory>
        requires large { 2 ^ 16 ≤ slot }
        requires small { slot ≤ 2 ^ 25 }
        ensures { IfOk result (λ b. Builds slot [] [] b) }
    {
        let mut bytes = Vec::with_capacity(alloc, slot as usize)?;
        bytes.extend_from_slice(&[KEY_KIND, 0, 0, 0, 0, 0, 0, 0, 0, 0, 0, 0, 0, 0, 0, 0])?;
        Ok(KeyBlockBuilder {
            bytes,
            counts: Vec::with_capacity(alloc, (slot / 512) as usize)?,
            page: Vec::with_capacity(alloc, PAGE_SIZE as usize)?,
            slot,
            in_page: 0,
            pages: 0,
            before: 0,
        })
    }

    /// Adds a key above the last one: to the page that is open or, where it does not fit there, to a
    /// new one. `BlockFull` comes exactly where it does not fit there and no page more fits into the
    /// block; the builder is then unchanged.
    pub fn push(&mut self, entry: &KeyEntry<'_>) -> Result<(), BlockFull>
        requires held { (slot : ℕ) × (pages : List (List an_entry)) × (page : List an_entry)
            × Builds slot pages page self.old }
        requires some { 1 ≤ length entry.now.key.now }
        requires short { length entry.now.key.now ≤ longest_key }
        ensures added { (slot : ℕ) (pages : List (List an_entry)) (page : List an_entry)
            → Builds slot pages page self.old → OnOk result (Builds slot
            (pages_with pages page (entry_of entry.now)) (page_with page (entry_of entry.now))
            self.new) }
        ensures full { (slot : ℕ) (pages : List (List an_entry)) (page : List an_entry)
            → Builds slot pages page self.old → IfErr result (λ full. (full.need ≡ page_cost)
            × (full.room ≡ slot - (header_size + page_cost * (length pages + 1)))
            × (full.room < full.need) × (goes_in page (entry_of entry.now) ≡ false)) }
        ensures unchanged { OnErr result (self.new ≡ self.old) }
    {
        if 2 + (self.page.len() as u64 + size(entry)) <= PAGE_SIZE {
            self.put(entry);
            return Ok(());
        }
        let room = self.slot - (16 + PAGE_COST * (self.pages as u64 + 1));
        if room < PAGE_COST {
            return Err(BlockFull {
                need: PAGE_COST,
                room,
            });
        }
        self.close();
        self.put(entry);
        Ok(())
    }

    /// The block's bytes: the text of the keys that were pushed, of which there is one at least, page
    /// by page.
    pub fn finish(self) -> Vec<u8>
        requires { (slot : ℕ) × (pages : List (List an_entry)) × (page : List an_entry)
            × Builds slot pages page self × (1 ≤ length page) }
        ensures { (slot : ℕ) (pages : List (List an_entry)) (page : List an_entry)
            → Builds slot pages page self → result.items ≡ key_block_text (pages ++ page ∷ []) }
    {
        let mut bytes = self.bytes;
        let mut counts = self.counts;
        put_page(&mut bytes, self.in_page, &self.page);
        put_count(&mut counts, self.before);
        put(&mut bytes, &counts);
        let head = BlockHeader {
            used: bytes.len() as u32,
            count: self.before + self.in_page as u32,
            pages: self.pages + 1,
        };
        with_header(bytes, head)
    }

    /// Puts a key into the page that is open, in which it fits.
    fn put(&mut self, entry: &KeyEntry<'_>)
        requires held { (slot : ℕ) × (pages : List (List an_entry)) × (page : List an_entry)
            × Builds slot pages page self.old × (goes_in page (entry_of entry.now) ≡ true) }
        requires short { length entry.now.key.now ≤ longest_key }
        ensures { (slot : ℕ) (pages : List (List an_entry)) (page : List an_entry)
            → Builds slot pages page self.old → goes_in page (entry_of entry.now) ≡ true
            → Builds slot pages (page ++ entry_of entry.now ∷ []) self.new }
    {
        put_entry(&mut self.page, entry);
        self.in_page += 1;
    }

    /// Closes the page that is open: it becomes a full one.
    fn close(&mut self)
        requires { (slot : ℕ) × (pages : List (List an_entry)) × (page : List an_entry)
            × Builds slot pages page self.old
            × (header_size + page_cost * (length pages + 2) ≤ slot) }
        ensures { (slot : ℕ) (pages : List (List an_entry)) (page : List an_entry)
            → Builds slot pages page self.old
            → header_size + page_cost * (length pages + 2) ≤ slot
            → Builds slot (pages ++ page ∷ []) [] self.new }
    {
        put_page(&mut self.bytes, self.in_page, &self.page);
        put_count(&mut self.counts, self.before);
        self.page.clear();
        self.before += self.in_page as u32;
        self.in_page = 0;
        self.pages += 1;
    }
}

/// The bytes with this header over the first of them.
fn with_header(bytes: Vec<u8>, head: BlockHeader) -> Vec<u8>
    requires { 16 ≤ length bytes.items }
    ensures { result.items ≡ block_header key_kind head.used head.count head.pages
        ++ drop 16 bytes.items }
{
    let mut bytes = bytes;
    write_header(&mut bytes, KEY_KIND, head);
    bytes
}
