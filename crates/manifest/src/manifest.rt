//! Where a device's manifest is, and one entry more of it.
ghost use Rattle.std.specs.Prelude.{◌<◌};
ghost use Rattle.device_layout.specs.Layouts.{IsGood};

use device_layout::Layout;
use gate_log::Tail;

/// Where a device's manifest is: the half in force, its sequence, and the place in it of the closed
/// gate behind its batches.
#[derive(Clone, Copy)]
pub struct Manifest {
    pub layout: Layout,
    pub half: u8,
    pub sequence: u64,
    pub tail: Tail,
    ghost good: { IsGood layout },
    ghost one: { half < 2 },
    ghost inside: { tail.place < layout.manifest },
}
