//! The law of the superblock. The function does nothing; its contract is the law.
ghost use Rattle.std.specs.Prelude.{◌≡◌, ℕ, List, length};
ghost use Rattle.gate_log.specs.Gates.{open_gate};
ghost use Rattle.hse_fields.specs.laws.Fields.{IsBytes};
ghost use Rattle.hse_rows.specs.machine.Sizes.{device_block, device_bytes};
ghost use Rattle.device_layout.specs.Layouts.{AreGood, sizes_of};
ghost use Rattle.device_layout.specs.Superblock.{superblock_of, says, IsSuperblock};
ghost use Rattle.device_layout.specs.declared.params.Params.{Params as a_params};

/// A block that spells good sizes, behind an open gate, is read as them on a device of their size,
/// and a block that is read as sizes spells them, and they are good and those of the device's size.
pub fn superblocks_are_read()
    ensures spelled { (params : a_params) (block : List ℕ)
        → IsSuperblock open_gate params block → AreGood params
        → superblock_of (device_bytes (sizes_of params)) block ≡ says params }
    ensures read { (size : ℕ) (params : a_params) (block : List ℕ) → IsBytes block
        → length block ≡ device_block → superblock_of size block ≡ says params
        → IsSuperblock open_gate params block × AreGood params
        × (size ≡ device_bytes (sizes_of params)) }
{}
