//! What a device is made with.
ghost use Rattle.std.specs.Prelude.{◌≡◌, ◌≤◌, ◌^◌, ◌↔◌, IsTrue};
ghost use Rattle.hse_rows.specs.machine.Sizes.{IsRegionSize, device_bytes};
ghost use Rattle.device_layout.specs.Layouts.{sizes_of, AreGood};
ghost use Rattle.device_layout.specs.Superblock.{may_be_power, may_be_slot_count, may_be_region_size, may_be_store_limit};

/// What a device is made with: the power of two that is a slot's size in bytes, how many slots there
/// are, the bytes of a manifest half and of a log segment, and the most stores that may be live.
#[derive(Clone, Copy, Debug, PartialEq, Eq)]
pub struct Params {
    pub power: u8,
    pub slots: u32,
    pub manifest: u64,
    pub log: u64,
    pub stores: u16,
}

/// The size of the superblock, in bytes; a manifest half and a log segment take so many or several
/// times as many.
const BLOCK: u64 = 4_096;

/// The most bytes of a device.
const LARGEST_DEVICE: u64 = 1_073_741_824;

/// Whether a slot's size may be this power of two.
pub(crate) fn is_power(power: u8) -> bool
    ensures limits { IsTrue result ↔ (16 ≤ power) × (power ≤ 25) }
    ensures test { result ≡ may_be_power power }
{
    16 <= power && power <= 25
}

/// Whether there may be so many slots.
pub(crate) fn is_slot_count(slots: u32) -> bool
    ensures limits { IsTrue result ↔ (4 ≤ slots) × (slots ≤ 16384) }
    ensures test { result ≡ may_be_slot_count slots }
{
    4 <= slots && slots <= 16_384
}

/// Whether a manifest half or a log segment may have so many bytes.
pub(crate) fn is_region_size(bytes: u64) -> bool
    ensures limits { IsTrue result ↔ IsRegionSize bytes }
    ensures test { result ≡ may_be_region_size bytes }
{
    65_536 <= bytes && bytes <= 67_108_864 && bytes % BLOCK == 0
}

/// Whether so many stores may be the most that may be live.
pub(crate) fn is_store_limit(stores: u16) -> bool
    ensures limits { IsTrue result ↔ (1 ≤ stores) × (stores ≤ 4096) }
    ensures test { result ≡ may_be_store_limit stores }
{
    1 <= stores && stores <= 4_096
}

/// What these parts take together, in bytes.
pub(crate) fn size_of(params: Params) -> u64
    requires power { params.power ≤ 25 }
    requires slots { params.slots ≤ 16384 }
    requires manifest { params.manifest ≤ 67108864 }
    requires log { params.log ≤ 67108864 }
    ensures { result ≡ device_bytes (sizes_of params) }
{
    let slot = 2u64.pow(params.power as u32);
    BLOCK + 2 * params.manifest + 4 * params.log + params.slots as u64 * slot
}

impl Params {
    /// Whether a device may be made so: slots of 2^16 to 2^25 bytes, 4 to 16,384 of them; halves and
    /// segments of 65,536 to 67,108,864 bytes, multiples of 4,096; 1 to 4,096 stores; at most
    /// 1,073,741,824 bytes together.
    pub fn are_good(self) -> bool
        ensures { IsTrue result ↔ AreGood self }
    {
        if !is_power(self.power) {
            return false;
        }
        if !is_slot_count(self.slots) {
            return false;
        }
        if !is_region_size(self.manifest) {
            return false;
        }
        if !is_region_size(self.log) {
            return false;
        }
        if !is_store_limit(self.stores) {
            return false;
        }
        size_of(self) <= LARGEST_DEVICE
    }
}
