//! A device as a storage engine sees it: what a read gives, and what a crash may leave.
#![tactic(auto)]

mod call;
mod device;
mod disk;
mod fault_list;
mod fill;
mod history;
mod lent;
mod mem_calls;
mod mem_device;
mod mem_disk;
mod overwrite;
mod stopped;
mod tear;
mod undo;

pub use call::{Call, Work};
pub use device::Device;
pub use disk::{Disk, Failed};
pub use fill::Fill;
pub use mem_disk::MemDisk;
