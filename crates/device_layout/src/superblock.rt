//! The superblock: the first block of a device, which says its layout.
ghost use Rattle.std.specs.Prelude.{◌≡◌, ◌≤◌, ◌∷◌, ◌++◌, length, None, IfOk, OnOk};
ghost use Rattle.byteorder.specs.Endian.{big_bytes};
ghost use Rattle.hse_rows.specs.machine.Sizes.{device_block};
ghost use Rattle.device_layout.specs.Answers.{Says};
ghost use Rattle.device_layout.specs.Layouts.{IsGood, known_version, params_of, size_of_device};
ghost use Rattle.device_layout.specs.Superblock.{mark, params_in, size_refused, sized, sizes_text, sizes_in, superblock_of, zero_refused, IsSuperblock};

use crate::layout::{SUPERBLOCK, VERSION};
use crate::params::{is_power, is_region_size, is_slot_count, is_store_limit};
use crate::{Layout, LayoutFault, Params};
use byteorder::{BigEndian, ByteOrder};
use gate_log::OPEN_GATE;
use hse_fields::{put_bytes, put_u8, put_u16, put_u32, put_u64};
use hse_io::NoMemory;
use std::alloc::Global;

/// The text behind the gate.
const MARK: &[u8] = b"MSTORE02";

/// Where the zeros begin.
const ZEROS: u64 = 36;

/// The sizes that a block states.
fn params_of_block(block: &[u8]) -> Params
    requires { length block.now ≡ device_block }
    ensures { result ≡ params_in block.now }
{
    Params {
        power: block[13],
        slots: BigEndian::read_u32(&block[14..18]),
        manifest: BigEndian::read_u64(&block[18..26]),
        log: BigEndian::read_u64(&block[26..34]),
        stores: BigEndian::read_u16(&block[34..36]),
    }
}

/// The place of the first size that is outside its limits.
fn refused_size(params: Params) -> Option<u64>
    ensures { result ≡ size_refused params }
{
    if !is_power(params.power) {
        return Some(13);
    }
    if !is_slot_count(params.slots) {
        return Some(14);
    }
    if !is_region_size(params.manifest) {
        return Some(18);
    }
    if !is_region_size(params.log) {
        return Some(26);
    }
    if !is_store_limit(params.stores) {
        return Some(34);
    }
    None
}

/// The place of the first byte that is not 0.
fn refused_zero(zeros: &[u8]) -> Option<u64>
    requires { length zeros.now ≤ 4096 }
    ensures { result ≡ zero_refused 36 zeros.now }
{
    let mut at = ZEROS;
    let mut rest = zeros;
    while let [byte, more @ ..] = rest {
        if *byte != 0 {
            return Some(at);
        }
        at += 1;
        rest = more;
    }
    None
}

/// The layout of these sizes on a device of this size.
fn sized_layout(size: u64, params: Params) -> Result<Layout, LayoutFault>
    requires { size_refused params ≡ None }
    ensures says { Says (sized size params) result }
    ensures size { IfOk result (λ layout. size_of_device layout ≡ size) }
{
    let Some(layout) = Layout::of(params) else {
        return Err(LayoutFault::Damaged(SUPERBLOCK));
    };
    if layout.size() != size {
        return Err(LayoutFault::Damaged(SUPERBLOCK));
    }
    Ok(layout)
}

/// The layout that the sizes of a block say, and the zeros behind them.
fn layout_of_sizes(size: u64, block: &[u8]) -> Result<Layout, LayoutFault>
    requires { length block.now ≡ device_block }
    ensures says { Says (sizes_in size block.now) result }
    ensures size { IfOk result (λ layout. size_of_device layout ≡ size) }
{
    let params = params_of_block(block);
    if let Some(place) = refused_size(params) {
        return Err(LayoutFault::Damaged(place));
    }
    let (_, zeros) = block.split_at(36);
    if let Some(place) = refused_zero(zeros) {
        return Err(LayoutFault::Damaged(place));
    }
    sized_layout(size, params)
}

/// Puts a closed gate, the text and the version behind the others.
fn put_head(block: &mut Vec<u8>) -> Result<(), NoMemory>
    ensures { OnOk result
        (block.new.items ≡ block.old.items ++ 0 ∷ (mark ++ big_bytes 4 known_version)) }
{
    put_u8(block, 0)?;
    put_bytes(block, MARK)?;
    put_u32(block, VERSION)
}

/// Puts the sizes behind the others.
fn put_sizes(block: &mut Vec<u8>, params: Params) -> Result<(), NoMemory>
    ensures { OnOk result (block.new.items ≡ block.old.items ++ sizes_text params) }
{
    put_u8(block, params.power)?;
    put_u32(block, params.slots)?;
    put_u64(block, params.manifest)?;
    put_u64(block, params.log)?;
    put_u16(block, params.stores)
}

impl Layout {
    /// The layout that the first block of a device of this size says. `Damaged` has the place of the
    /// first field that is refused: the gate, the text, a size outside its limits, or a byte behind
    /// them that is not 0; or the place behind the block, where the device has not the size of its
    /// parts or a greater one than any has. `Version` comes where the text is right and the version
    /// is another one.
    ///
    /// The condition: the block has 4,096 bytes.
    #[tactic(auto, unfolding(crate::specs::Superblock::superblock_of))]
    pub fn read(size: u64, block: &[u8]) -> Result<Layout, LayoutFault>
        requires { length block.now ≡ device_block }
        ensures says { Says (superblock_of size block.now) result }
        ensures size { IfOk result (λ layout. size_of_device layout ≡ size) }
    {
        if block[0] != OPEN_GATE {
            return Err(LayoutFault::Damaged(0));
        }
        if &block[1..9] != MARK {
            return Err(LayoutFault::Damaged(1));
        }
        let version = BigEndian::read_u32(&block[9..13]);
        if version != VERSION {
            return Err(LayoutFault::Version(version));
        }
        layout_of_sizes(size, block)
    }

    /// The superblock of the layout, with a closed gate.
    ///
    /// The condition: the layout is good.
    pub fn superblock(self, alloc: Global) -> Result<Vec<u8>, NoMemory>
        requires { IsGood self }
        ensures { IfOk result (λ block. IsSuperblock 0 (params_of self) block.items) }
    {
        let mut block = Vec::with_capacity(alloc, SUPERBLOCK as usize)?;
        put_head(&mut block)?;
        put_sizes(&mut block, self.params())?;
        block.resize(SUPERBLOCK as usize, 0)?;
        Ok(block)
    }
}
