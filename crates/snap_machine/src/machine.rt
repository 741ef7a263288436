//! The machine, and the lines that it answers.

use crate::change::{Change, Write, charge_of, copy_writes};
use crate::commits::{Commit, changed_since};
use crate::cursor::Cursor;
use crate::device::{GREATEST_NUMBER, Log, Manifest};
use crate::line::{Actor, Line};
use crate::lines::{BadLine, line_of};
use crate::pairs::value_of;
use crate::refusal::{Refusal, refusal_text, refuse_if, refuse_length, refuse_need};
use crate::state::{Mode, State, Store};
use crate::text::{item_line, number_line, words_line};
use crate::transaction::{Standing, Transaction, holder_of, place_of};
use crate::turn::Phase;
use hse_io::NoMemory;
use std::alloc::Global;

/// The most bytes of a key.
pub(crate) const LONGEST_KEY: u64 = 1_344;

/// The most bytes of a value on a device of large slots.
const LONGEST_VALUE: u64 = 1_048_576;

/// How many transactions may be live.
const MOST_TRANSACTIONS: u64 = 1_024;

/// What a device's parameters allow.
#[derive(Clone, Copy, Drop)]
pub(crate) struct Sizes {
    pub(crate) slots: u64,
    pub(crate) half: u64,
    pub(crate) room: u64,
    pub(crate) longest_value: u64,
    pub(crate) stores: u64,
}

/// The machine: what stands now, what happened since the opening, and what the device holds.
#[derive(Drop)]
pub struct Machine {
    pub(crate) alloc: Global,
    pub(crate) sizes: Sizes,
    pub(crate) now: State,
    pub(crate) commits: Vec<Commit>,
    pub(crate) transactions: Vec<Transaction>,
    pub(crate) cursors: Vec<Cursor>,
    pub(crate) log: Log,
    pub(crate) manifest: Manifest,
    pub(crate) phase: Phase,
    pub(crate) stored: State,
    pub(crate) stored_log: Log,
}

impl Machine {
    /// A machine on a new device: slots of `2^power` bytes, so many of them, and so many bytes of each manifest half
    /// and log segment. It has at most 256 live stores.
    pub fn new(
        alloc: Global,
        power: u8,
        slots: u32,
        manifest: u64,
        log: u64,
    ) -> Result<Machine, NoMemory> {
        let slot = 1_u64.checked_shl(u32::from(power)).unwrap_or(0);
        Ok(Machine {
            alloc,
            sizes: Sizes {
                slots: u64::from(slots),
                half: manifest,
                room: log.saturating_sub(64),
                longest_value: slot.saturating_sub(64).min(LONGEST_VALUE),
                stores: 256,
            },
            now: State::empty(alloc),
            commits: Vec::new(alloc),
            transactions: Vec::new(alloc),
            cursors: Vec::new(alloc),
            log: Log::new(),
            manifest: Manifest::new(alloc),
            phase: Phase::In,
            stored: State::empty(alloc),
            stored_log: Log::new(),
        })
    }

    /// The same machine on a device of another store limit.
    pub fn with_stores(self, stores: u16) -> Machine {
        let mut machine = self;
        machine.sizes.stores = u64::from(stores);
        machine
    }

    /// What a line is answered: nothing for an empty line or a comment, else lines that each end with a line feed.
    pub fn step(&mut self, line: &[u8]) -> Result<Vec<u8>, NoMemory> {
        let alloc = self.alloc;
        match line_of(alloc, line) {
            Ok(asked) => match self.answer(asked) {
                Ok(reply) => Ok(reply),
                Err(refusal) => refusal_text(alloc, &refusal),
            },
            Err(BadLine::Words) => words_line(alloc, b"err line"),
            Err(BadLine::NoMemory) => Err(NoMemory),
        }
    }

    fn answer(&mut self, line: Line<'_>) -> Result<Vec<u8>, Refusal> {
        match line {
            Line::Silent => Ok(Vec::new(self.alloc)),
            Line::Begin(name) => self.begin(name),
            Line::Write(Actor::At, store, change) => self.write_outside(store, change),
            Line::Write(Actor::Named(name), store, change) => self.write_within(
                name, store, change,
            ),
            Line::Get(who, store, key) => self.get(who, store, &key),
            Line::Commit(name) => self.commit(name),
            Line::Abort(name) => self.abort(name),
            other => self.answer_more(other),
        }
    }

    fn answer_more(&mut self, line: Line<'_>) -> Result<Vec<u8>, Refusal> {
        match line {
            Line::Cursor(name, who, store, reverse, filter) => {
                self.create_cursor(name, who, (store, reverse, filter))
            }
            Line::Seek(name, key) => self.seek(name, key),
            Line::SeekRange(name, first, last) => self.seek_range(name, first, last),
            Line::Read(name) => self.read(name),
            Line::Update(name) => self.update(name),
            Line::CloseCursor(name) => self.close_cursor(name),
            Line::Take(what) => self.take(what),
            Line::Whole(what) => self.whole(what),
            Line::WriteTurn => self.write_turn(),
            Line::End => self.end_turn(),
            Line::Reopen => self.reopen(),
            other => self.answer_figures(&other),
        }
    }

    fn begin(&mut self, name: &[u8]) -> Result<Vec<u8>, Refusal> {
        if let Some(at) = place_of(&self.transactions, name) {
            if let Some(last) = self.transactions.get(at) {
                refuse_if(last.is_active(), b"err name-used")?;
            }
        }
        let live = self
            .transactions
            .iter()
            .filter(|one| one.is_active())
            .count();
        refuse_too_many(live as u64, MOST_TRANSACTIONS)?;
        self.expect_numbers()?;
        self.transactions.push(Transaction {
            name: Vec::from_slice(self.alloc, name)?,
            snapshot: self.now.copy(self.alloc)?,
            writes: Vec::new(self.alloc),
            standing: Standing::Active,
        })?;
        Ok(number_line(self.alloc, b"ok", self.now.number)?)
    }

    /// Refuses where the numbers of events are spent.
    pub(crate) fn expect_numbers(&self) -> Result<(), Refusal> {
        refuse_if(self.now.number >= GREATEST_NUMBER, b"err spent")
    }

    /// The transaction of a name, which has not ended, and its place.
    pub(crate) fn active(&self, name: &[u8]) -> Result<(usize, &Transaction), Refusal> {
        let Some(at) = place_of(&self.transactions, name) else {
            return Err(Refusal::Plain(b"err no-name"));
        };
        let Some(transaction) = self.transactions.get(at) else {
            return Err(Refusal::Plain(b"err no-name"));
        };
        transaction.expect_active()?;
        Ok((at, transaction))
    }

    /// Refuses a change whose key, value or prefix is outside the limits of its store.
    fn expect_lengths(&self, store: &Store, change: &Change) -> Result<(), Refusal> {
        match change {
            Change::Put(pair) => {
                refuse_length(b"err key-length", pair.key.len() as u64, 1, LONGEST_KEY)?;
                let length = pair.value.len() as u64;
                refuse_length(b"err value-length", length, 0, self.sizes.longest_value)
            }
            Change::Del(key) => refuse_length(b"err key-length", key.len() as u64, 1, LONGEST_KEY),
            Change::PDel(prefix) => {
                refuse_length(b"err prefix-length", prefix.len() as u64, 1, store.prefix)
            }
        }
    }

    /// A write of the outside, which is a commit.
    fn write_outside(&mut self, name: &[u8], change: Change) -> Result<Vec<u8>, Refusal> {
        let Some(store) = self.now.named(name) else {
            return Err(Refusal::Plain(b"err no-store"));
        };
        refuse_if(store.mode != Mode::Plain, b"err store-mode")?;
        self.expect_lengths(store, &change)?;
        self.expect_numbers()?;
        let store = store.id;
        let mut writes = Vec::new(self.alloc);
        writes.push(Write { store, change })?;
        let charge = charge_of(&writes);
        refuse_need(b"err txn-size", charge, self.sizes.room)?;
        self.log_commit(writes, charge)
    }

    /// Makes the writes a commit, where the segment has room.
    fn log_commit(&mut self, writes: Vec<Write>, charge: u64) -> Result<Vec<u8>, Refusal> {
        let left = self.sizes.room.saturating_sub(self.log.charge);
        refuse_need(b"err log-full", charge, left)?;
        let mut after = self.now.copy(self.alloc)?;
        after.apply_all(self.alloc, &writes)?;
        after.number = after.number.saturating_add(1);
        let number = after.number;
        let reply = number_line(self.alloc, b"ok", number)?;
        self.commits.push(Commit { number, writes })?;
        self.now = after;
        self.log.commit(charge);
        Ok(reply)
    }

    /// A write of a transaction.
    fn write_within(
        &mut self,
        name: &[u8],
        store: &[u8],
        change: Change,
    ) -> Result<Vec<u8>, Refusal> {
        let (at, transaction) = self.active(name)?;
        let Some(store) = transaction.snapshot.named(store) else {
            return Err(Refusal::Plain(b"err no-store"));
        };
        refuse_if(self.now.of_id(store.id).is_none(), b"err no-store")?;
        refuse_if(store.mode != Mode::Tx, b"err store-mode")?;
        self.expect_lengths(store, &change)?;
        let store = store.id;
        let write = Write { store, change };
        let mut writes = copy_writes(self.alloc, &transaction.writes)?;
        writes.push(write.copy(self.alloc)?)?;
        refuse_need(b"err txn-size", charge_of(&writes), self.sizes.room)?;
        self.expect_no_conflict(at, transaction.snapshot.number, &write)?;
        let reply = words_line(self.alloc, b"ok")?;
        if let Some(transaction) = self.transactions.get_mut(at) {
            transaction.writes = writes;
        }
        Ok(reply)
    }

    /// Cancels a write that another live transaction holds, or that was changed since the snapshot.
    fn expect_no_conflict(&self, at: usize, snapshot: u64, write: &Write) -> Result<(), Refusal> {
        if let Some(holder) = holder_of(&self.transactions, at, write) {
            let name = Vec::from_slice(self.alloc, holder)?;
            return Err(Refusal::Name(b"canceled held", name));
        }
        if let Some(number) = changed_since(&self.commits, snapshot, write) {
            return Err(Refusal::Number(b"canceled since", number));
        }
        Ok(())
    }

    /// The state that an actor reads.
    pub(crate) fn state_of(&self, who: Actor<'_>) -> Result<State, Refusal> {
        match who {
            Actor::At => Ok(self.now.copy(self.alloc)?),
            Actor::Named(name) => {
                let (_, transaction) = self.active(name)?;
                Ok(transaction.read(self.alloc)?)
            }
        }
    }

    fn get(&self, who: Actor<'_>, store: &[u8], key: &[u8]) -> Result<Vec<u8>, Refusal> {
        let state = self.state_of(who)?;
        let Some(store) = state.named(store) else {
            return Err(Refusal::Plain(b"err no-store"));
        };
        refuse_length(b"err key-length", key.len() as u64, 1, LONGEST_KEY)?;
        match value_of(&store.pairs, key) {
            Some(value) => Ok(item_line(self.alloc, b"value", value)?),
            None => Ok(words_line(self.alloc, b"none")?),
        }
    }

    fn commit(&mut self, name: &[u8]) -> Result<Vec<u8>, Refusal> {
        let (at, transaction) = self.active(name)?;
        let reply = if transaction.writes.is_empty() {
            number_line(self.alloc, b"ok", transaction.snapshot.number)?
        } else {
            self.expect_numbers()?;
            let writes = copy_writes(self.alloc, &transaction.writes)?;
            let charge = charge_of(&writes);
            self.log_commit(writes, charge)?
        };
        if let Some(transaction) = self.transactions.get_mut(at) {
            transaction.standing = Standing::Committed;
        }
        Ok(reply)
    }

    fn abort(&mut self, name: &[u8]) -> Result<Vec<u8>, Refusal> {
        let (at, _) = self.active(name)?;
        let reply = words_line(self.alloc, b"ok")?;
        if let Some(transaction) = self.transactions.get_mut(at) {
            transaction.standing = Standing::Aborted;
        }
        Ok(reply)
    }
}

/// Refuses one thing more where so many are live.
pub(crate) fn refuse_too_many(live: u64, most: u64) -> Result<(), Refusal> {
    if live >= most {
        return Err(Refusal::Number(b"err too-many", most));
    }
    Ok(())
}
