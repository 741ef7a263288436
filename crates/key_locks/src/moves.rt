//! What becomes of the locks of several names.
ghost use Rattle.std.specs.Prelude.{◌≡◌, ◌==◌, ◌+◌, ◌-◌, ◌<◌, ◌≤◌, ◌++◌, ℕ, [], cond, false, true, length, max, take, IsSome, None, Some};
ghost use Rattle.std.specs.VecDeque.{deque_capacity, deque_len};
ghost use Rattle.key_locks.specs.declared.name.Name.{Name as a_name};
ghost use Rattle.key_locks.specs.declared.logged.Logged.{Logged as a_logged};
ghost use Rattle.key_locks.specs.Agrees.{HoldersAgree};
ghost use Rattle.key_locks.specs.Held.{has, held_by};
ghost use Rattle.key_locks.specs.Logged.{begins_old, entries_of, without_old};
ghost use Rattle.key_locks.specs.Table.{lock_at};

use crate::held::{has_name, pop_name};
use crate::lock::Lock;
use crate::logged::Logged;
use crate::name::Name;
use crate::names::Names;
use crate::table::{free_name, log_name, unlog_name};
use std::collections::{BTreeMap, VecDeque};

/// Names are let go.
pub(crate) fn free_names(table: &mut BTreeMap<Name, Lock>, names: Names)
    ensures newest { (q : a_name) → (lock_at table.new q).newest ≡ (lock_at table.old q).newest }
    ensures holder { (q : a_name) → (lock_at table.new q).holder ≡ cond (has names q) None (lock_at table.old q).holder }
{
    let mut rest = names.into_names().into_iter();
    while let Some(name) = rest.next() {
        free_name(table, &name);
    }
}

/// Names are let go, and a commit with this number wrote them.
pub(crate) fn log_names(
    table: &mut BTreeMap<Name, Lock>,
    logged: &mut VecDeque<Logged>,
    names: Names,
    number: u64,
)
    requires room { deque_len logged.old + length names ≤ deque_capacity logged.old }
    requires locked { (q : a_name) → has names q ≡ true → IsSome (lock_at table.old q).holder }
    ensures logged { logged.new.items ≡ logged.old.items ++ entries_of number names }
    ensures newest { (q : a_name) → (lock_at table.new q).newest ≡ cond (has names q) (max (lock_at table.old q).newest number) (lock_at table.old q).newest }
    ensures holder { (q : a_name) → (lock_at table.new q).holder ≡ cond (has names q) None (lock_at table.old q).holder }
    ensures room { deque_capacity logged.new ≡ deque_capacity logged.old }
{
    let mut rest = names.into_names().into_iter();
    while let Some(name) = rest.next() {
        log_name(table, &name, number);
        logged.push_back_reserved(Logged { number, name });
    }
}

/// Whether the first of the logged names is of a commit up to a number.
fn begins_old(logged: &VecDeque<Logged>, least: u64) -> bool
    ensures { result ≡ begins_old least logged.now.items }
{
    match logged.front() {
        Some(entry) => entry.number <= least,
        None => false,
    }
}

/// The first commits up to a number are forgotten.
pub(crate) fn forget(table: &mut BTreeMap<Name, Lock>, logged: &mut VecDeque<Logged>, least: u64)
    ensures logged { logged.new.items ≡ without_old (λ (entry : a_logged). entry.number) least logged.old.items }
    ensures newest { (q : a_name) → least < (lock_at table.old q).newest → (lock_at table.new q).newest ≡ (lock_at table.old q).newest }
    ensures below { (q : a_name) → (lock_at table.new q).newest ≤ (lock_at table.old q).newest }
    ensures holder { (q : a_name) → (lock_at table.new q).holder ≡ (lock_at table.old q).holder }
    ensures room { deque_capacity logged.new ≡ deque_capacity logged.old }
    ensures len { deque_len logged.new ≤ deque_len logged.old }
{
    while begins_old(logged, least) {
        if let Some(entry) = logged.pop_front() {
            unlog_name(table, &entry.name, least);
        }
    }
}

/// The last change of a transaction is taken back.
fn undo_one(table: &mut BTreeMap<Name, Lock>, held: &mut BTreeMap<u64, Names>, txn: u64)
    requires { HoldersAgree table.old held.old }
    ensures agree { HoldersAgree table.new held.new }
    ensures newest { (q : a_name) → (lock_at table.new q).newest ≡ (lock_at table.old q).newest }
    ensures free { (q : a_name) → (lock_at table.old q).holder ≡ None → (lock_at table.new q).holder ≡ None }
    ensures names { (u : ℕ) → held_by held.new u ≡ cond (u == txn) (take (length (held_by held.old u) - 1) (held_by held.old u)) (held_by held.old u) }
{
    let Some(name) = pop_name(held, txn) else {
        return;
    };
    if has_name(held, txn, &name) {
        return;
    }
    free_name(table, &name);
}

/// The last changes of a transaction are taken back.
pub(crate) fn undo_names(
    table: &mut BTreeMap<Name, Lock>,
    held: &mut BTreeMap<u64, Names>,
    txn: u64,
    count: u64,
)
    requires { HoldersAgree table.old held.old }
    ensures agree { HoldersAgree table.new held.new }
    ensures newest { (q : a_name) → (lock_at table.new q).newest ≡ (lock_at table.old q).newest }
    ensures free { (q : a_name) → (lock_at table.old q).holder ≡ None → (lock_at table.new q).holder ≡ None }
    ensures names { (u : ℕ) → held_by held.new u ≡ cond (u == txn) (take (length (held_by held.old u) - count) (held_by held.old u)) (held_by held.old u) }
{
    for undone in 0..count {
        undo_one(table, held, txn);
    }
}
