//! Tests of values, write sets, lines and replies over their public calls.
#![tactic(auto)]

#[cfg(test)]
mod replies;
#[cfg(test)]
mod texts;
#[cfg(test)]
mod write_sets;
