//! Tests of the parts in memory over their public calls.
#![tactic(auto)]

#[cfg(test)]
mod ingest_trees;
#[cfg(test)]
mod locks;
#[cfg(test)]
mod merges;
#[cfg(test)]
mod sets;
#[cfg(test)]
mod trees;
