//! A device that is a real file. It is opened at its first call, made where there is none, and keeps what it holds.
//! Its calls and its faults are counted exactly; what it reads and stores no clause tells.
#![tactic(auto)]

mod device;
mod file_disk;
mod opening;

pub use file_disk::FileDisk;
