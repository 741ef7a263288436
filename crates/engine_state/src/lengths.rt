//! The lengths of a write's bytes.
ghost use Rattle.std.specs.Prelude.{◌≡◌};
ghost use Rattle.hse_rows.specs.states.State.{Store as a_store};
ghost use Rattle.hse_rows.specs.writes.Change.{change_of};
ghost use Rattle.hse_rows.specs.machine.Sizes.{Sizes};
ghost use Rattle.hse_rows.specs.machine.Core.{longest_value};
ghost use Rattle.hse_rows.specs.machine.CoreRefusal.{key_refusal, value_refusal, prefix_refusal, change_refusal};
ghost use Rattle.engine_state.specs.Says.{Fronts};

use crate::faults::WriteFault;
use hse_rows::ChangeRef;
use view::is_key;

/// Why these bytes are no key.
fn key_fault(key: &[u8]) -> Option<WriteFault>
    ensures { Fronts result (key_refusal key.now) }
{
    if is_key(key) {
        return None;
    }
    Some(WriteFault::KeyLength(key.len() as u64))
}

/// Why these bytes are no value of at most `most`.
fn value_fault(value: &[u8], most: u64) -> Option<WriteFault>
    ensures { (sizes : Sizes) → longest_value sizes ≡ most → Fronts result (value_refusal sizes value.now) }
{
    if value.len() as u64 <= most {
        return None;
    }
    Some(WriteFault::ValueLength(value.len() as u64))
}

/// Why these bytes are no prefix of a store whose prefixes have at most `most`.
fn prefix_fault(prefix: &[u8], most: u8) -> Option<WriteFault>
    ensures { (store : a_store) → store.prefix_length ≡ most → Fronts result (prefix_refusal store prefix.now) }
{
    if prefix.len() == 0 {
        return Some(WriteFault::PrefixLength(0));
    }
    if prefix.len() as u64 <= most as u64 {
        return None;
    }
    Some(WriteFault::PrefixLength(prefix.len() as u64))
}

/// Why a store takes no such change: of its lengths the first that is outside the limits.
pub(crate) fn change_fault(most: u64, prefix: u8, change: ChangeRef<'_>) -> Option<WriteFault>
    ensures { (sizes : Sizes) (store : a_store) → longest_value sizes ≡ most → store.prefix_length ≡ prefix
        → Fronts result (change_refusal sizes store (change_of change.entry)) }
{
    match change {
        ChangeRef::Put(key, value) => match key_fault(key) {
            Some(fault) => Some(fault),
            None => value_fault(value, most),
        },
        ChangeRef::Del(key) => key_fault(key),
        ChangeRef::PDel(deleted) => prefix_fault(deleted, prefix),
    }
}
