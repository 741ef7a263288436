//! Fills a block with values.
ghost use Rattle.std.specs.Prelude.{◌≡◌, ◌+◌, ◌-◌, ◌<◌, ◌≤◌, ◌^◌, ◌++◌, ◌∷◌, [], length, ℕ, List, OnOk, OnErr, IfOk, IfErr};
ghost use Rattle.hse_fields.specs.BlockText.{header_size, value_block_text, values_text};
ghost use Rattle.vblock.specs.Building.{Builds};

use hse_fields::{BlockFull, BlockHeader, HEADER_SIZE, VALUE_KIND, write_header};
use hse_io::NoMemory;
use std::alloc::Global;

/// A block that is being filled: room for the header, and the entries.
#[derive(Drop)]
pub struct ValueBlockBuilder {
    bytes: Vec<u8>,
    slot: u64,
    count: u32,
}

impl ValueBlockBuilder {
    /// A builder of a block of at most so many bytes, without values. It takes the block's memory
    /// at once.
    pub fn new(alloc: Global, slot: u64) -> Result<ValueBlockBuilder, NoMemory>
        requires large { 2 ^ 16 ≤ slot }
        requires small { slot ≤ 2 ^ 25 }
        ensures { IfOk result (λ b. Builds slot [] b) }
    {
        let mut bytes = Vec::with_capacity(alloc, slot as usize)?;
        bytes.extend_from_slice(&[VALUE_KIND, 0, 0, 0, 0, 0, 0, 0, 0, 0, 0, 0, 0, 0, 0, 0])?;
        Ok(ValueBlockBuilder {
            bytes,
            slot,
            count: 0,
        })
    }

    /// How many bytes of the block are left.
    pub fn room(&self) -> u64
        requires { (slot : ℕ) × (values : List (List ℕ)) × Builds slot values self.now }
        ensures { (slot : ℕ) (values : List (List ℕ)) → Builds slot values self.now
            → result ≡ slot - (header_size + length (values_text values)) }
    {
        self.slot - self.bytes.len() as u64
    }

    /// Adds a value, and answers where its entry begins. `BlockFull` comes exactly where the entry,
    /// four bytes and the value, is longer than what is left of the block; the builder is then
    /// unchanged.
    pub fn push(&mut self, value: &[u8]) -> Result<u32, BlockFull>
        requires { (slot : ℕ) × (values : List (List ℕ)) × Builds slot values self.old }
        ensures added { (slot : ℕ) (values : List (List ℕ)) → Builds slot values self.old
            → OnOk result (Builds slot (values ++ value.now ∷ []) self.new) }
        ensures offset { (slot : ℕ) (values : List (List ℕ)) → Builds slot values self.old
            → IfOk result (λ offset. offset ≡ header_size + length (values_text values)) }
        ensures fits { (slot : ℕ) (values : List (List ℕ)) → Builds slot values self.old
            → OnOk result
            (header_size + length (values_text values) + 4 + length value.now ≤ slot) }
        ensures full { (slot : ℕ) (values : List (List ℕ)) → Builds slot values self.old
            → IfErr result (λ full. (full.need ≡ 4 + length value.now)
            × (full.room ≡ slot - (header_size + length (values_text values)))
            × (full.room < full.need)) }
        ensures unchanged { OnErr result (self.new ≡ self.old) }
    {
        let offset = self.bytes.len() as u64;
        let need = 4 + value.len() as u64;
        let room = self.slot - offset;
        if room < need {
            return Err(BlockFull { need, room });
        }
        self.bytes
            .extend_from_slice(&(value.len() as u32).to_be_bytes())
            .unwrap();
        self.bytes.extend_from_slice(value).unwrap();
        self.count += 1;
        Ok(offset as u32)
    }

    /// The block's bytes: the text of the values that were pushed, of which there is one at least.
    pub fn finish(self) -> Vec<u8>
        requires { (slot : ℕ) × (values : List (List ℕ)) × Builds slot values self
            × (1 ≤ length values) }
        ensures { (slot : ℕ) (values : List (List ℕ)) → Builds slot values self
            → result.items ≡ value_block_text values }
    {
        let mut bytes = self.bytes;
        let head = BlockHeader {
            used: bytes.len() as u32,
            count: self.count,
            pages: 0,
        };
        write_header(&mut bytes, VALUE_KIND, head);
        bytes
    }
}
