//! What a cursor's keys begin with, and its direction.
ghost use Rattle.std.specs.Prelude.{◌≡◌, IfOk};
ghost use Rattle.std.specs.Option.{option_map};
ghost use Rattle.merge.specs.Places.{direction_of};
ghost use Rattle.cursors.specs.Starts.{IsBehindAll};

use crate::end::end_of;
use crate::kind::Asked;
use hse_io::NoMemory;
use hse_rows::Edge;
use std::alloc::Global;
use std::marker::Model;

/// What a cursor's keys begin with, and its direction. A reverse one knows bytes behind all such
/// keys, so that it begins there and not at the end of all keys.
#[derive(Drop)]
pub(crate) struct Scope {
    filter: Edge,
    reverse: bool,
    end: Option<Vec<u8>>,
}

impl Model for Scope {
    ghost use Rattle.std.specs.Option.{option_map};
    ghost use Rattle.merge.specs.Places.{direction_of};
    ghost use Rattle.cursors.specs.Starts.{ScopeState, IsBehindAll};

    ghost Value = { ScopeState };

    ghost view = { λ s. record { direction = direction_of s.reverse; prefix = s.filter } };

    ghost invariant = { λ s. IsBehindAll s.filter (option_map (λ end. end.items) s.end) };
}

impl Scope {
    /// A filter and a direction.
    pub(crate) fn new(alloc: Global, reverse: bool, filter: Edge) -> Result<Scope, NoMemory>
        ensures { IfOk result (λ scope.
            scope ≡ record { direction = direction_of reverse; prefix = filter }) }
    {
        if !reverse {
            return Ok(Scope {
                filter,
                reverse,
                end: None,
            });
        }
        let end = end_of(alloc, filter.bytes())?;
        Ok(Scope {
            filter,
            reverse,
            end,
        })
    }

    /// Whether it goes down.
    pub(crate) fn is_reverse(&self) -> bool
        ensures { direction_of result ≡ self.now.direction }
    {
        self.reverse
    }

    /// What a cursor asks for, up to a last key where there is one.
    pub(crate) fn asked<'a>(&'a self, last: Option<&'a [u8]>) -> Asked<'a>
        ensures direction { direction_of result.reverse ≡ self.now.direction }
        ensures filter { result.filter.now ≡ self.now.prefix }
        ensures last { option_map (λ last. last.now) result.last
            ≡ option_map (λ last. last.now) last.entry }
        ensures end { IsBehindAll result.filter.now (option_map (λ end. end.now) result.end) }
    {
        Asked {
            filter: self.filter.bytes(),
            end: self.end.as_deref(),
            last,
            reverse: self.reverse,
        }
    }
}
