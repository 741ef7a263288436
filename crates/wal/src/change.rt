//! Reads one change.
ghost use Rattle.std.specs.Prelude.{◌≡◌, ◌≤◌, ℕ, [], length, IfOk};
ghost use Rattle.hse_fields.specs.LogForm.{longest_name, ValueFits};
ghost use Rattle.hse_fields.specs.LogReading.{change, kind_of, name_of, change_of};
ghost use Rattle.hse_rows.specs.writes.Lengths.{IsKeyLength, IsPrefixLength};
ghost use Rattle.wal.specs.Given.{Gives, kind_as};
ghost use Rattle.wal.specs.Live.{prefix_fits};
ghost use Rattle.wal.specs.Logged.{last_of, logged, logged_change};

use crate::kind::{Kind, kind_of_byte};
use crate::live::name_may;
use crate::order::{may_front_follow, may_kind_follow, may_store_follow};
use crate::reader::Reader;
use hse_fields::{Refusal, split_bytes, split_u8, split_u16, split_u64};
use hse_io::NoMemory;
use hse_rows::{Change, Key, KeyFault, Prefix, PrefixFault, StoreId, Value, ValueFault, Write};
use std::alloc::Global;

fn key_of(alloc: Global, name: &[u8]) -> Result<Key, NoMemory>
    requires { IsKeyLength (length name.now) }
    ensures { IfOk result (λ key. key ≡ name.now) }
{
    match Key::new(alloc, name) {
        Ok(key) => Ok(key),
        Err(KeyFault::Length(_)) => unreachable!(),
        Err(KeyFault::NoMemory) => Err(NoMemory),
    }
}

fn prefix_of(alloc: Global, name: &[u8]) -> Result<Prefix, NoMemory>
    requires { IsPrefixLength (length name.now) }
    ensures { IfOk result (λ prefix. prefix ≡ name.now) }
{
    match Prefix::new(alloc, name, name.len() as u8) {
        Ok(prefix) => Ok(prefix),
        Err(PrefixFault::Length(_)) => unreachable!(),
        Err(PrefixFault::NoMemory) => Err(NoMemory),
    }
}

fn value_of(alloc: Global, bytes: &[u8]) -> Result<Value, NoMemory>
    ensures { IfOk result (λ value. value ≡ bytes.now) }
{
    match Value::new(alloc, bytes, bytes.len() as u64) {
        Ok(value) => Ok(value),
        Err(ValueFault::Length(_)) => unreachable!(),
        Err(ValueFault::NoMemory) => Err(NoMemory),
    }
}

/// The change of this kind; a change that is no put has no value.
fn change_with(alloc: Global, kind: Kind, name: &[u8], value: &[u8]) -> Result<Change, NoMemory>
    requires some { 1 ≤ length name.now }
    requires short { length name.now ≤ longest_name (kind_as kind) }
    requires none { ValueFits (length value.now) (kind_as kind) value.now }
    ensures { IfOk result (λ c. (store : ℕ)
        → logged_change store c ≡ change (kind_as kind) store name.now value.now) }
{
    match kind {
        Kind::Put => {
            let key = key_of(alloc, name)?;
            let value = value_of(alloc, value)?;
            Ok(Change::Put(key, value))
        }
        Kind::Del => Ok(Change::Del(key_of(alloc, name)?)),
        Kind::PDel => Ok(Change::PDel(prefix_of(alloc, name)?)),
    }
}

impl<'b, 'a> Reader<'b, 'a> {
    /// The kind of a change behind the last one.
    #[tactic(auto, unfolding(hse_fields::specs::LogReading::kind_of))]
    fn kind(self, last: Option<&Write>) -> Result<(Kind, &'b [u8]), Refusal>
        ensures { Gives (λ x. (kind_as x.0, x.1.now)) result
            (kind_of (last_of last.entry) self.entry.bytes.now) }
    {
        let (byte, rest) = split_u8(self.bytes)?;
        let Some(kind) = kind_of_byte(byte) else {
            return Err(self.refusal());
        };
        if !may_kind_follow(last, kind) {
            return Err(self.refusal());
        }
        Ok((kind, rest))
    }

    /// The name behind its length, of a change of this kind and store with so many bytes from its
    /// first one on. The order is tested before the length, since a change that breaks it is
    /// refused at its first byte, which is the lower place.
    #[tactic(auto, unfolding(hse_fields::specs::LogReading::name_of))]
    fn name(
        self,
        last: Option<&Write>,
        left: u64,
        kind: Kind,
        store: u64,
    ) -> Result<(&'b [u8], &'b [u8]), Refusal>
        ensures gives { Gives (λ x. (x.0.now, x.1.now)) result
            (name_of (prefix_fits self.entry.live.now) (last_of last.entry) left (kind_as kind)
            store self.entry.bytes.now) }
        ensures some { IfOk result (λ x. 1 ≤ length x.0.now) }
        ensures short { IfOk result (λ x. length x.0.now ≤ longest_name (kind_as kind)) }
    {
        let (size, rest) = split_u16(self.bytes)?;
        let size = size as u64;
        if !may_front_follow(last, kind, store, size, rest) {
            return Err(Refusal::Left(left));
        }
        if !kind.may_have(size) {
            return Err(self.refusal());
        }
        if !name_may(self.live, kind, store, size) {
            return Err(self.refusal());
        }
        Ok(split_bytes(rest, size)?)
    }

    /// A change behind the last one of its commit.
    #[tactic(auto, unfolding(hse_fields::specs::LogReading::change_of))]
    pub(crate) fn change(self, last: Option<&Write>) -> Result<(Write, &'b [u8]), Refusal>
        ensures { Gives (λ x. (logged x.0, x.1.now)) result
            (change_of (prefix_fits self.entry.live.now) self.entry.most (last_of last.entry)
            self.entry.bytes.now) }
    {
        let left = self.bytes.len() as u64;
        let (kind, rest) = self.kind(last)?;
        let (store, rest) = split_u64(rest)?;
        if !may_store_follow(last, kind, store) {
            return Err(self.refusal());
        }
        let (name, rest) = Reader {
            bytes: rest,
            ..self
        }
        .name(last, left, kind, store)?;
        let (value, rest) = Reader {
            bytes: rest,
            ..self
        }
        .value(kind)?;
        let change = change_with(self.alloc, kind, name, value)?;
        let store = StoreId(store);
        Ok((Write { store, change }, rest))
    }
}
