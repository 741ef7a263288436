//! Bytes behind all keys that begin with a filter.
ghost use Rattle.std.specs.Prelude.{◌++◌, ◌∷◌, [], IfOk, IfSome};
ghost use Rattle.std.specs.Option.{option_map};
ghost use Rattle.cursors.specs.Starts.{IsBehind, IsBehindAll};

use hse_io::NoMemory;
use std::alloc::Global;

/// A front of the filter, and the byte that raises it above all that begins with the filter. There
/// is none where each byte is the greatest.
fn raised(filter: &[u8]) -> Option<(&[u8], u8)>
    ensures { IfSome result (λ end. IsBehind filter.now (end.0.now ++ end.1 ∷ [])) }
{
    let mut left = filter;
    while let [front @ .., last] = left {
        if *last < 255 {
            return Some((front, *last + 1));
        }
        left = front;
    }
    None
}

/// The least bytes behind all keys that begin with a filter, where there are such.
pub(crate) fn end_of(alloc: Global, filter: &[u8]) -> Result<Option<Vec<u8>>, NoMemory>
    ensures { IfOk result (λ end. IsBehindAll filter.now (option_map (λ end. end.items) end)) }
{
    let Some((front, last)) = raised(filter) else {
        return Ok(None);
    };
    let mut end = Vec::with_capacity(alloc, front.len() + 1)?;
    end.extend_from_slice(front)?;
    end.push(last)?;
    Ok(Some(end))
}
