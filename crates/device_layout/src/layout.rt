//! Where the parts of a device lie.
ghost use Rattle.std.specs.Prelude.{◌≡◌, ◌<◌, MatchOption};
ghost use Rattle.device_layout.specs.Layouts.{AreGood, IsGood, params_of, half_of, segment_of, slots_at, size_of_device};

use crate::Params;
use crate::params::size_of;
use gate_log::Region;

/// The layout of a device: what it was made with, and the version of its format. Each function that
/// takes one asks that it is good, but for `params`.
#[derive(Clone, Copy, Debug, PartialEq, Eq)]
pub struct Layout {
    pub power: u8,
    pub slots: u32,
    pub manifest: u64,
    pub log: u64,
    pub version: u32,
    pub stores: u16,
}

/// The version of the format.
pub(crate) const VERSION: u32 = 2;

/// The size of the superblock, in bytes.
pub const SUPERBLOCK: u64 = 4_096;

impl Layout {
    /// The layout of a device that is made so. There is none exactly where the parameters are not
    /// good.
    pub fn of(params: Params) -> Option<Layout>
        ensures { MatchOption result (¬ AreGood params)
            (λ layout. IsGood layout × (params_of layout ≡ params)) }
    {
        if !params.are_good() {
            return None;
        }
        Some(Layout {
            power: params.power,
            slots: params.slots,
            manifest: params.manifest,
            log: params.log,
            version: VERSION,
            stores: params.stores,
        })
    }

    /// What the device was made with.
    pub fn params(self) -> Params
        ensures { result ≡ params_of self }
    {
        Params {
            power: self.power,
            slots: self.slots,
            manifest: self.manifest,
            log: self.log,
            stores: self.stores,
        }
    }

    /// The device's size in bytes.
    pub fn size(self) -> u64
        requires { IsGood self }
        ensures { result ≡ size_of_device self }
    {
        size_of(self.params())
    }

    /// Where a manifest half lies, 0 or 1.
    pub fn half(self, half: u8) -> Region
        requires good { IsGood self }
        requires half { half < 2 }
        ensures { result ≡ half_of self half }
    {
        Region {
            at: SUPERBLOCK + half as u64 * self.manifest,
            size: self.manifest,
        }
    }

    /// Where a log segment lies, 0 to 3.
    pub fn segment(self, segment: u8) -> Region
        requires good { IsGood self }
        requires segment { segment < 4 }
        ensures { result ≡ segment_of self segment }
    {
        Region {
            at: SUPERBLOCK + 2 * self.manifest + segment as u64 * self.log,
            size: self.log,
        }
    }

    /// Where the slots begin, in bytes.
    pub fn slots_at(self) -> u64
        requires { IsGood self }
        ensures { result ≡ slots_at self }
    {
        SUPERBLOCK + 2 * self.manifest + 4 * self.log
    }
}
