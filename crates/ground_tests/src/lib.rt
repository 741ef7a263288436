//! Tests of the lowest crates over their public calls.
#![tactic(auto)]

#[cfg(test)]
mod disks;
#[cfg(test)]
mod fields;
#[cfg(test)]
mod files;
#[cfg(test)]
mod lines;
#[cfg(test)]
mod regions;
#[cfg(test)]
mod segments;
