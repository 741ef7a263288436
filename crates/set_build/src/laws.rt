//! Laws of packed sets. These functions do nothing; their contracts are the laws.
ghost use Rattle.std.specs.Prelude.{◌≡◌, ℕ, true, false, List, Some, Ok, map};
ghost use Rattle.set_build.specs.Reading.{AreFormed, ArePut, HasRows, IsPut, LeadTo, MayBeWritten};
ghost use Rattle.kvset.specs.declared.block.Block.{Block};
ghost use Rattle.kvset.specs.Reading.{set_of, set_over};
ghost use Rattle.kvset.specs.Rows.{value_of};
ghost use Rattle.set_build.specs.SetText.{text_of, Pushed, places_of, value_blocks_of};

use hse_fields::{prefix_blocks_are_read, value_blocks_are_read};
use kblock::key_blocks_are_read;

/// The blocks of a packed set have the form of blocks, those of prefix deletes and of keys each
/// behind the block before, so that each is read as it was packed; and the place of each value that
/// is written leads to it.
pub fn packed_sets_are_read()
    ensures formed { (p : Pushed) → MayBeWritten p → AreFormed p }
    ensures placed { (slot : ℕ) (values : List (List ℕ))
        → map (value_of (value_blocks_of slot values))
        (places_of 0 (value_blocks_of slot values)) ≡ map (λ (value : List ℕ). Some value) values }
{}

/// The blocks of a packed set in slots, whatever stands behind them there, are opened to a set that
/// has the rows that were pushed. Where the values stay, the same over values to which their places
/// lead.
pub fn packed_sets_are_opened()
    ensures opened { (p : Pushed) → MayBeWritten p → p.values ≡ true
        → (prefixes keys values : List Block) → IsPut (text_of p) prefixes keys
        → ArePut (text_of p).values values
        → HasRows p.rows (set_of p.slot_size prefixes keys values) }
    ensures over { (p : Pushed) → MayBeWritten p → p.values ≡ false
        → (prefixes keys : List Block) → IsPut (text_of p) prefixes keys
        → (slots : List ℕ) (values : List (List (List ℕ))) → LeadTo values p.places p.rows
        → HasRows p.rows (set_over prefixes keys slots (Ok values)) }
{
    prefix_blocks_are_read();
    key_blocks_are_read();
    value_blocks_are_read();
}
