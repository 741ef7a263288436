//! What contracts know of a device in memory.
ghost use Rattle.std.specs.Prelude.{length};
ghost use Rattle.media_disk.specs.MemDisk.{mem_bytes, mem_pending, mem_could, mem_clock, mem_faults};

use crate::{Device, MemDisk};

impl Device for MemDisk {
    ghost tells = { Unit {0} };

    ghost seen = { mem_bytes };

    ghost pending = { mem_pending };

    ghost extent = { λ disk. length (mem_bytes disk) };

    ghost faults = { mem_faults };

    ghost clock = { mem_clock };

    ghost name = { λ disk. 0 };

    ghost could = { mem_could };
}
