//! Laws of the texts of blocks. These functions do nothing; their contracts are the laws.
ghost use Rattle.std.specs.Prelude.{◌≡◌, ◌<◌, ◌++◌, ℕ, List, length, take, Option, Ok, slice_index};
ghost use Rattle.hse_fields.specs.BlockForm.{AreValues, ArePrefixEntries};
ghost use Rattle.hse_fields.specs.BlockReading.{prefix_block_of, value_block_of};
ghost use Rattle.hse_fields.specs.BlockText.{PrefixEntry, prefix_block_text, value_block_text};

/// The text of a block of values of at most so many bytes has one reading: a block whose bytes are
/// read begins with the text of what was read, and what is spelled so is read, whatever stands behind
/// it.
pub fn value_blocks_are_read()
    ensures read { (most : ℕ) (bytes : List ℕ) (values : List (List ℕ))
        → ((i : ℕ) → slice_index bytes i < 256) → value_block_of most bytes ≡ Ok values
        → (take (length (value_block_text values)) bytes ≡ value_block_text values)
        × AreValues most values }
    ensures spelled { (most : ℕ) (values : List (List ℕ)) (rest : List ℕ) → AreValues most values
        → value_block_of most (value_block_text values ++ rest) ≡ Ok values }
{}

/// The same of a block of prefix deletes, which stands behind the last prefix of the block before.
pub fn prefix_blocks_are_read()
    ensures read { (last : Option (List ℕ)) (bytes : List ℕ) (entries : List PrefixEntry)
        → ((i : ℕ) → slice_index bytes i < 256) → prefix_block_of last bytes ≡ Ok entries
        → (take (length (prefix_block_text entries)) bytes ≡ prefix_block_text entries)
        × ArePrefixEntries last entries }
    ensures spelled { (last : Option (List ℕ)) (entries : List PrefixEntry) (rest : List ℕ)
        → ArePrefixEntries last entries
        → prefix_block_of last (prefix_block_text entries ++ rest) ≡ Ok entries }
{}
