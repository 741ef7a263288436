//! Tests of the blocks of sets of rows over their public calls.
#![tactic(auto)]

#[cfg(test)]
mod changes;
#[cfg(test)]
mod keys;
#[cfg(test)]
mod longest;
#[cfg(test)]
mod packing;
#[cfg(test)]
mod prefixes;
#[cfg(test)]
mod sets;
#[cfg(test)]
mod values;
