//! The lines of device work, and of figures.

use crate::device::{Entry, creation_need, drop_need};
use crate::line::{Line, Take};
use crate::machine::{Machine, refuse_too_many};
use crate::refusal::{Refusal, refuse_if};
use crate::state::{Mode, State, Store};
use crate::text::{Text, number_line, words_line};
use crate::turn::{Kind, Phase, Turn};
use std::mem;

/// The most bytes of a prefix.
const LONGEST_PREFIX: u64 = 32;

impl Machine {
    /// The state that the transaction at a place reads, or the present one.
    pub(crate) fn state_at(&self, place: Option<usize>) -> Result<State, Refusal> {
        let Some(at) = place else {
            return Ok(self.now.copy(self.alloc)?);
        };
        let Some(transaction) = self.transactions.get(at) else {
            return Err(Refusal::Plain(b"err no-name"));
        };
        transaction.expect_active()?;
        Ok(transaction.read(self.alloc)?)
    }

    pub(crate) fn take(&mut self, what: Take<'_>) -> Result<Vec<u8>, Refusal> {
        self.decide(what)?;
        Ok(words_line(self.alloc, b"ok")?)
    }

    /// Takes the turn, writes and ends it.
    pub(crate) fn whole(&mut self, what: Take<'_>) -> Result<Vec<u8>, Refusal> {
        self.decide(what)?;
        let _written = self.write_turn()?;
        self.end_turn()
    }

    fn decide(&mut self, what: Take<'_>) -> Result<(), Refusal> {
        match what {
            Take::Sync => {
                self.phase.expect_in()?;
                self.take_out(Kind::Sync, None)
            }
            Take::Freeze => {
                self.phase.expect_in()?;
                refuse_if(self.log.is_busy(), b"err log-busy")?;
                let mut log = self.log;
                log.freeze();
                let before = mem::replace(&mut self.log, log);
                let taken = self.take_out(Kind::Freeze, None);
                if taken.is_err() {
                    self.log = before;
                }
                taken
            }
            Take::Create(name, mode, prefix) => self.take_create(name, mode, prefix),
            Take::Drop(name) => self.take_drop(name),
        }
    }

    fn take_create(&mut self, name: &[u8], mode: Mode, prefix: u64) -> Result<(), Refusal> {
        refuse_if(self.now.named(name).is_some(), b"err store-exists")?;
        if prefix > LONGEST_PREFIX {
            return Err(Refusal::Number(b"err prefix-length", prefix));
        }
        refuse_too_many(self.now.stores.len() as u64, self.sizes.stores)?;
        self.expect_numbers()?;
        self.phase.expect_in()?;
        let mut after = self.now.copy(self.alloc)?;
        after.number = after.number.saturating_add(1);
        let id = after.number;
        after.add(Store {
            id,
            name: Vec::from_slice(self.alloc, name)?,
            mode,
            prefix,
            pairs: Vec::new(self.alloc),
        })?;
        let entry = self
            .manifest
            .plan(self.sizes.half, creation_need(name), &after)?;
        self.take_event(Kind::Create, after, entry)
    }

    fn take_drop(&mut self, name: &[u8]) -> Result<(), Refusal> {
        let Some(store) = self.now.named(name) else {
            return Err(Refusal::Plain(b"err no-store"));
        };
        let id = store.id;
        for transaction in &self.transactions {
            if transaction.holds_store(id) {
                let holder = Vec::from_slice(self.alloc, &transaction.name)?;
                return Err(Refusal::Name(b"err store-held", holder));
            }
        }
        self.expect_numbers()?;
        self.phase.expect_in()?;
        let mut after = self.now.copy(self.alloc)?;
        after.number = after.number.saturating_add(1);
        after.remove(id);
        let entry = self.manifest.plan(self.sizes.half, drop_need(), &after)?;
        self.take_event(Kind::Drop, after, entry)
    }

    /// The event stands at once; the device has it once the turn ends.
    fn take_event(&mut self, kind: Kind, after: State, entry: Entry) -> Result<(), Refusal> {
        let before = mem::replace(&mut self.now, after);
        let taken = self.take_out(kind, Some(entry));
        if taken.is_err() {
            self.now = before;
        }
        taken
    }

    /// The turn is out, with all that the device will hold.
    fn take_out(&mut self, kind: Kind, entry: Option<Entry>) -> Result<(), Refusal> {
        self.phase = Phase::Taken(Turn {
            kind,
            number: self.now.number,
            state: self.now.copy(self.alloc)?,
            log: self.log,
            entry,
        });
        Ok(())
    }

    pub(crate) fn write_turn(&mut self) -> Result<Vec<u8>, Refusal> {
        let reply = words_line(self.alloc, b"written")?;
        match mem::replace(&mut self.phase, Phase::In) {
            Phase::Taken(turn) => {
                self.phase = Phase::Run(turn);
                Ok(reply)
            }
            other => {
                let refusal = other.wrong();
                self.phase = other;
                Err(refusal)
            }
        }
    }

    pub(crate) fn end_turn(&mut self) -> Result<Vec<u8>, Refusal> {
        let Phase::Run(turn) = &self.phase else {
            return Err(self.phase.wrong());
        };
        let number = turn.number;
        let reply = number_line(self.alloc, b"ok", number)?;
        if let Some(entry) = turn.entry {
            let mut manifest = self.manifest.copy(self.alloc)?;
            manifest.enter(entry, number)?;
            self.manifest = manifest;
        }
        if let Phase::Run(turn) = mem::replace(&mut self.phase, Phase::In) {
            self.stored = turn.state;
            self.stored_log = turn.log;
        }
        Ok(reply)
    }

    /// What the device holds is all that stands.
    pub(crate) fn reopen(&mut self) -> Result<Vec<u8>, Refusal> {
        self.phase.expect_in()?;
        let now = self.stored.copy(self.alloc)?;
        let reply = number_line(self.alloc, b"ok", now.number)?;
        self.now = now;
        self.log = self.stored_log;
        self.commits.clear();
        self.transactions.clear();
        self.cursors.clear();
        Ok(reply)
    }

    pub(crate) fn answer_figures(&self, line: &Line<'_>) -> Result<Vec<u8>, Refusal> {
        match line {
            Line::Stores => self.stores_text(),
            Line::Info => self.info_text(),
            Line::Next if self.log.frozen > 0 => Ok(words_line(self.alloc, b"ingest")?),
            Line::Next => Ok(words_line(self.alloc, b"none")?),
            Line::Tree(name) if self.now.named(name).is_some() => {
                Ok(number_line(self.alloc, b"tree", 0)?)
            }
            Line::Tree(_) => Err(Refusal::Plain(b"err no-store")),
            _ => Err(Refusal::Plain(b"err line")),
        }
    }

    fn stores_text(&self) -> Result<Vec<u8>, Refusal> {
        let mut text = Text::new(self.alloc);
        text.word(b"stores")?;
        text.number(self.now.stores.len() as u64)?;
        text.line()?;
        for store in &self.now.stores {
            text.word(&store.name)?;
            match store.mode {
                Mode::Plain => text.word(b"plain")?,
                Mode::Tx => text.word(b"tx")?,
            }
            text.number(store.prefix)?;
            text.line()?;
        }
        Ok(text.ended())
    }

    fn info_text(&self) -> Result<Vec<u8>, Refusal> {
        let mut text = Text::new(self.alloc);
        text.word(b"info number")?;
        text.number(self.now.number)?;
        text.word(b"frozen")?;
        text.number(self.log.frozen as u64)?;
        text.word(b"charge")?;
        text.number(self.log.charge)?;
        text.word(b"free")?;
        text.number(self.sizes.slots)?;
        text.word(b"manifest")?;
        text.number(self.manifest.sequence)?;
        Ok(text.end()?)
    }
}
