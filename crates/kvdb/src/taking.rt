//! A turn is taken.
ghost use Rattle.std.specs.Prelude.{◌≡◌, IfOk, OnErr};
ghost use Rattle.hse_rows.specs.machine.Core.{Core};
ghost use Rattle.engine_state.specs.Serves.{IsSound};
ghost use Rattle.kvdb.specs.Taking.{Takes, wish_as};
ghost use Rattle.hse_rows.specs.machine.Turn as machine;
ghost use Rattle.kvdb.specs.Serves.{Serves};
ghost use Rattle.kvdb.specs.declared.side.Side.TheVariants as side;

use crate::engine::Kvdb;
use crate::side::{Side, TurnKind};
use crate::turn::{Turn, TurnFault, TurnWish};
use media_disk::Disk;
use std::alloc::Global;
use std::mem::replace;
use wal::commits_are_a_payload;

impl<D: Disk> Kvdb<D> {
    /// Takes the turn of a sync.
    pub(crate) fn take_sync(&mut self, alloc: Global) -> Result<Turn<D>, TurnFault>
        ensures takes { (m : Core) → IsSound m → Serves D.Device self.old m
            → Takes D.Device m machine.sync result self.new }
        ensures given { IfOk result (λ turn. self.old.side ≡ side.In turn.back) }
        ensures out { IfOk result (λ turn. self.new.side ≡ side.Out turn.kind turn.number) }
        ensures kept { OnErr result (self.new.side ≡ self.old.side) }
        ensures moment { self.new.moment ≡ self.old.moment }
    {
        commits_are_a_payload();
        if self.state.is_broken() {
            return Err(TurnFault::Broken);
        }
        let number = self.state.number();
        match &self.side {
            Side::Out(kind, _) => return Err(TurnFault::Busy(*kind)),
            Side::In(back) => {
                if self.state.waiting_charge() > back.log.room() {
                    return Err(TurnFault::NoMemory);
                }
            }
        }
        let Ok(batch) = self.state.take_waiting(alloc) else {
            return Err(TurnFault::NoMemory);
        };
        match replace(&mut self.side, Side::Out(TurnKind::Sync, number)) {
            Side::In(back) => Ok(Turn {
                back,
                kind: TurnKind::Sync,
                number,
                batch,
                plan: None,
            }),
            Side::Out(_, _) => unreachable!(),
        }
    }

    /// Takes the turn: it makes every test and takes all memory that the turn needs, and makes no
    /// device call. The refusals come in the order of the table of turns. After a fault all is as
    /// before.
    pub fn take_turn(&mut self, alloc: Global, what: &TurnWish) -> Result<Turn<D>, TurnFault>
        ensures takes { (m : Core) → IsSound m → Serves D.Device self.old m
            → Takes D.Device m (wish_as what.now) result self.new }
        ensures given { IfOk result (λ turn. self.old.side ≡ side.In turn.back) }
        ensures out { IfOk result (λ turn. self.new.side ≡ side.Out turn.kind turn.number) }
        ensures kept { OnErr result (self.new.side ≡ self.old.side) }
        ensures moment { self.new.moment ≡ self.old.moment }
    {
        match what {
            TurnWish::Sync => self.take_sync(alloc),
            TurnWish::Create(name, mode, prefix) => self.take_create(alloc, name, *mode, *prefix),
            TurnWish::Drop(name) => self.take_drop(alloc, name),
        }
    }
}
