//! The lines of cursors.

use crate::cursor::{Cursor, Position, list_of};
use crate::line::Actor;
use crate::machine::{LONGEST_KEY, Machine, refuse_too_many};
use crate::refusal::{Refusal, refuse_if, refuse_length};
use crate::text::{Text, item_line, words_line};
use std::alloc::Global;

/// How many cursors may be live.
const MOST_CURSORS: u64 = 1_024;

/// The reply of a seek: where the cursor stands now.
fn standing_line(alloc: Global, cursor: &Cursor) -> Result<Vec<u8>, Refusal> {
    match cursor.first() {
        Some(pair) => Ok(item_line(alloc, b"at", &pair.key)?),
        None => Ok(words_line(alloc, b"eof")?),
    }
}

impl Machine {
    fn cursor(&mut self, name: &[u8]) -> Result<&mut Cursor, Refusal> {
        for cursor in &mut self.cursors {
            if cursor.name.as_slice() == name {
                return Ok(cursor);
            }
        }
        Err(Refusal::Plain(b"err no-name"))
    }

    /// The place of the transaction that an actor is.
    fn place_of_actor(&self, who: Actor<'_>) -> Result<Option<usize>, Refusal> {
        match who {
            Actor::At => Ok(None),
            Actor::Named(name) => {
                let (at, _) = self.active(name)?;
                Ok(Some(at))
            }
        }
    }

    pub(crate) fn create_cursor(
        &mut self,
        name: &[u8],
        who: Actor<'_>,
        of: (&[u8], bool, Vec<u8>),
    ) -> Result<Vec<u8>, Refusal> {
        let (store, reverse, filter) = of;
        let used = self
            .cursors
            .iter()
            .any(|cursor| cursor.name.as_slice() == name);
        refuse_if(used, b"err name-used")?;
        let transaction = self.place_of_actor(who)?;
        let state = self.state_of(who)?;
        let Some(store) = state.named(store) else {
            return Err(Refusal::Plain(b"err no-store"));
        };
        refuse_length(b"err key-length", filter.len() as u64, 0, LONGEST_KEY)?;
        refuse_too_many(self.cursors.len() as u64, MOST_CURSORS)?;
        let reply = words_line(self.alloc, b"ok")?;
        let list = list_of(self.alloc, &store.pairs, reverse, &filter)?;
        self.cursors.push(Cursor {
            name: Vec::from_slice(self.alloc, name)?,
            transaction,
            store: store.id,
            reverse,
            filter,
            list,
            position: Position::Front,
            last: None,
        })?;
        Ok(reply)
    }

    pub(crate) fn seek(&mut self, name: &[u8], key: Vec<u8>) -> Result<Vec<u8>, Refusal> {
        let alloc = self.alloc;
        let cursor = self.cursor(name)?;
        refuse_length(b"err key-length", key.len() as u64, 0, LONGEST_KEY)?;
        cursor.position = Position::At(key);
        cursor.last = None;
        standing_line(alloc, cursor)
    }

    pub(crate) fn seek_range(
        &mut self,
        name: &[u8],
        first: Vec<u8>,
        last: Vec<u8>,
    ) -> Result<Vec<u8>, Refusal> {
        let alloc = self.alloc;
        let cursor = self.cursor(name)?;
        refuse_if(cursor.reverse, b"err forward-only")?;
        refuse_length(b"err key-length", first.len() as u64, 0, LONGEST_KEY)?;
        refuse_length(b"err key-length", last.len() as u64, 0, LONGEST_KEY)?;
        cursor.position = Position::At(first);
        cursor.last = Some(last);
        standing_line(alloc, cursor)
    }

    pub(crate) fn read(&mut self, name: &[u8]) -> Result<Vec<u8>, Refusal> {
        let alloc = self.alloc;
        let cursor = self.cursor(name)?;
        let Some(pair) = cursor.first() else {
            return Ok(words_line(alloc, b"eof")?);
        };
        let mut text = Text::new(alloc);
        text.word(b"pair")?;
        text.item(&pair.key)?;
        text.item(&pair.value)?;
        let reply = text.end()?;
        let key = Vec::from_slice(alloc, &pair.key)?;
        cursor.position = Position::Past(key);
        Ok(reply)
    }

    pub(crate) fn update(&mut self, name: &[u8]) -> Result<Vec<u8>, Refusal> {
        let alloc = self.alloc;
        let cursor = self.cursor(name)?;
        let store = cursor.store;
        let transaction = cursor.transaction;
        let state = self.state_at(transaction)?;
        let Some(store) = state.of_id(store) else {
            return Err(Refusal::Plain(b"err no-store"));
        };
        let reply = words_line(alloc, b"ok")?;
        let cursor = self.cursor(name)?;
        cursor.list = list_of(alloc, &store.pairs, cursor.reverse, &cursor.filter)?;
        Ok(reply)
    }

    pub(crate) fn close_cursor(&mut self, name: &[u8]) -> Result<Vec<u8>, Refusal> {
        let reply = words_line(self.alloc, b"ok")?;
        let _cursor = self.cursor(name)?;
        self.cursors.retain(|cursor| cursor.name.as_slice() != name);
        Ok(reply)
    }
}
