//! The locks of active transactions and of commits.
ghost use Rattle.std.proofs.Props.{props};
ghost use Rattle.key_locks.specs.Agrees.{Agrees};

use crate::lock::Lock;
use crate::logged::Logged;
use crate::name::Name;
use crate::names::Names;
use std::collections::{BTreeMap, VecDeque};

/// The names that active transactions took, and those that commits since the last prune wrote.
#[derive(Drop)]
pub struct KeyLocks {
    pub(crate) table: BTreeMap<Name, Lock>,
    pub(crate) lengths: [bool; 33],
    pub(crate) held: BTreeMap<u64, Names>,
    pub(crate) logged: VecDeque<Logged>,
    pub(crate) least: u64,
    ghost agrees: { Agrees table held logged.items lengths least } by { Prim.hlevel props },
}
