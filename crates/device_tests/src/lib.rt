//! Tests of the device's layout, its manifest, its opening and its turns over their public calls.
#![tactic(auto)]

#[cfg(test)]
mod cuts;
#[cfg(test)]
mod device;
#[cfg(test)]
mod filled;
#[cfg(test)]
mod formats;
#[cfg(test)]
mod full;
#[cfg(test)]
mod loads;
#[cfg(test)]
mod names;
#[cfg(test)]
mod random;
#[cfg(test)]
mod recovers;
#[cfg(test)]
mod rolls;
#[cfg(test)]
mod spells;
#[cfg(test)]
mod super_cuts;
#[cfg(test)]
mod superblocks;
#[cfg(test)]
mod turns;
#[cfg(test)]
mod views;
