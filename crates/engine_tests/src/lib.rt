//! Tests of the engine over a device in memory, by its public calls.
#![tactic(auto)]

#[cfg(test)]
mod device;
#[cfg(test)]
mod faults;
#[cfg(test)]
mod memory;
#[cfg(test)]
mod pairs;
#[cfg(test)]
mod room;
#[cfg(test)]
mod sessions;
#[cfg(test)]
mod store_faults;
#[cfg(test)]
mod stores;
#[cfg(test)]
mod turns;
