//! The store in memory, and what waits for the log.
ghost use Rattle.std.specs.Prelude.{◌≡◌, ℕ, ◌+◌, ◌*◌, ◌^◌, ◌<◌, ◌≤◌, length, vec_len, vec_capacity};
ghost use Rattle.hse_shell.specs.Machine.{room};

use crate::entry::{charge_of_del, charge_of_put, push_del, push_put};
use crate::reply::Reply;
use crate::rows::Rows;
use gate_log::{FIRST_GATE, Tail};
use hse_io::{Mark, NoMemory};
use std::alloc::Global;

/// The most bytes that a key has.
const LONGEST_KEY: usize = 1_344;

/// The most that the charges of all commits sum to, in bytes.
const ROOM: u64 = 4_194_240;

/// The store's contents, and the log behind them.
#[derive(Drop)]
pub(crate) struct Engine {
    pub(crate) rows: Rows,
    /// The last number of the history.
    pub(crate) number: u64,
    /// The sum of the commits' charges.
    pub(crate) charges: u64,
    /// The entries that wait for a sync, behind room for their count.
    pub(crate) waiting: Vec<u8>,
    /// How many entries wait.
    pub(crate) count: u32,
    pub(crate) tail: Tail,
    /// What is safe since when, with room for the mark of the closing.
    pub(crate) marks: Vec<Mark>,
    ghost within: { charges ≤ room },
    ghost numbered: { number ≤ 1 + charges },
    ghost headed: { 4 ≤ length waiting.items },
    // Each entry is charged 32 bytes more than it takes, and that is more than its batch takes besides.
    ghost placed: { tail.place + length waiting.items + 32 * count ≤ 13 + charges },
    ghost spare: { vec_len marks < vec_capacity marks },
}

/// The number of the base before the first commit.
const BASE: u64 = 1;

impl Engine {
    ghost use Rattle.std.specs.Prelude.{◌≡◌, ◌+◌, ◌^◌, ◌<◌, ◌≤◌, [], None, Some, MatchOption, IfNone, IfOk, length, vec_len, vec_capacity};
    ghost use Rattle.hse_shell.specs.Grammar.{puts, dels, gets};
    ghost use Rattle.hse_shell.specs.ReplyView.{answer_of};
    ghost use Rattle.hse_shell.specs.Change.{Change};
    ghost use Rattle.hse_shell.specs.LogText.{charge_of};
    ghost use Rattle.hse_shell.specs.Machine.{Machine, room, longest_key, key_refusal, log_refusal};
    ghost use Rattle.hse_shell.specs.Stands.{Stands, Answers, IsIdle, base_in};
    ghost use Rattle.hse_shell.specs.Stored.{base_of};

    /// An engine without commits and marks, with room for the marks of the opening and the closing.
    pub(crate) fn new(alloc: Global) -> Result<Engine, NoMemory>
        ensures base { IfOk result (λ engine. base_in engine ≡ base_of []) }
        ensures idle { IfOk result IsIdle }
        ensures unmarked { IfOk result (λ engine. engine.marks.items ≡ []) }
        ensures room { IfOk result (λ engine. vec_len engine.marks + 1 < vec_capacity engine.marks) }
    {
        Ok(Engine {
            rows: Rows::new(alloc),
            number: BASE,
            charges: 0,
            waiting: Vec::from_slice(alloc, &[0; 4])?,
            count: 0,
            tail: Tail { place: FIRST_GATE },
            marks: Vec::with_capacity(alloc, 2)?,
        })
    }

    /// Why a change of this key and this charge is refused: for the key's length, and then for the log's room.
    fn refused(&self, key: &[u8], need: u64) -> Option<Reply<'static>>
        ensures refusal { (m : Machine) (change : Change) → Stands self.now m → need ≡ charge_of change
            → MatchOption result (key_refusal key.now (log_refusal m change) ≡ None)
            (λ reply. key_refusal key.now (log_refusal m change) ≡ Some (answer_of reply)) }
        ensures short { IfNone result (length key.now ≤ longest_key) }
        ensures fits { IfNone result (self.now.charges + need ≤ room) }
    {
        if key.len() > LONGEST_KEY {
            return Some(Reply::KeyLength(key.len() as u64));
        }
        let room = ROOM - self.charges;
        if need > room {
            return Some(Reply::LogFull(need, room));
        }
        None
    }

    /// Commits a put, unless the key's length or the log's room refuses it.
    pub(crate) fn put(&mut self, key: &[u8], value: &[u8]) -> Reply<'static>
        requires some { 1 ≤ length key.now }
        requires short { length value.now < 2 ^ 32 }
        ensures answers { (m : Machine) → Stands self.old m
            → Answers m (puts key.now value.now) (answer_of result) self.new }
        ensures tail { self.new.tail ≡ self.old.tail }
        ensures marks { self.new.marks ≡ self.old.marks }
    {
        let need = charge_of_put(key, value);
        if let Some(refused) = self.refused(key, need) {
            return refused;
        }
        let before = self.waiting.len();
        let Ok(()) = push_put(&mut self.waiting, self.number + 1, key, value) else {
            return Reply::NoMemory;
        };
        let Ok(()) = self.rows.put(key, value) else {
            self.waiting.truncate(before);
            return Reply::NoMemory;
        };
        self.number += 1;
        self.charges += need;
        self.count += 1;
        Reply::Ok(self.number)
    }

    /// Commits a deletion, unless the key's length or the log's room refuses it.
    pub(crate) fn del(&mut self, key: &[u8]) -> Reply<'static>
        requires { 1 ≤ length key.now }
        ensures answers { (m : Machine) → Stands self.old m
            → Answers m (dels key.now) (answer_of result) self.new }
        ensures tail { self.new.tail ≡ self.old.tail }
        ensures marks { self.new.marks ≡ self.old.marks }
    {
        let need = charge_of_del(key);
        if let Some(refused) = self.refused(key, need) {
            return refused;
        }
        let Ok(()) = push_del(&mut self.waiting, self.number + 1, key) else {
            return Reply::NoMemory;
        };
        self.rows.remove(key);
        self.number += 1;
        self.charges += need;
        self.count += 1;
        Reply::Ok(self.number)
    }

    /// The value of a key, by a binary search that takes no memory.
    pub(crate) fn get(&self, key: &[u8]) -> Reply<'_>
        ensures { (m : Machine) → Stands self.now m → Answers m (gets key.now) (answer_of result) self.now }
    {
        if key.len() > LONGEST_KEY {
            return Reply::KeyLength(key.len() as u64);
        }
        match self.rows.get(key) {
            Some(value) => Reply::Value(value),
            None => Reply::None,
        }
    }
}
