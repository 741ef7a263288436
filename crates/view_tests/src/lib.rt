//! Tests of views, transactions and cursors over their public calls.
#![tactic(auto)]

#[cfg(test)]
mod counted;
#[cfg(test)]
mod reading;
#[cfg(test)]
mod views;
