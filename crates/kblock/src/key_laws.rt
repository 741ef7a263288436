//! The law of the text of blocks of keys. The function does nothing; its contract is the law.
ghost use Rattle.std.specs.Prelude.{◌≡◌, ◌<◌, ◌++◌, ℕ, List, length, take, Option, Ok, slice_index};
ghost use Rattle.hse_fields.specs.BlockReading.{key_block_of};
ghost use Rattle.hse_fields.specs.BlockText.{KeyEntry, key_block_text};
ghost use Rattle.kblock.specs.Form.{AreKeyPages};

/// The text of a block of keys has one reading: a block whose bytes are read begins with the text of
/// what was read, page by page, and what is spelled so is read, whatever stands behind it.
pub fn key_blocks_are_read()
    ensures read { (last : Option (List ℕ)) (bytes : List ℕ) (pages : List (List KeyEntry))
        → ((i : ℕ) → slice_index bytes i < 256) → key_block_of last bytes ≡ Ok pages
        → (take (length (key_block_text pages)) bytes ≡ key_block_text pages)
        × AreKeyPages last pages }
    ensures spelled { (last : Option (List ℕ)) (pages : List (List KeyEntry))
        (rest : List ℕ) → AreKeyPages last pages
        → key_block_of last (key_block_text pages ++ rest) ≡ Ok pages }
{}
