//! A line's words.
ghost use Rattle.std.specs.Prelude.{◌≡◌, ◌==◌, take, IfOk};
ghost use Rattle.std.specs.List.{slice_split};
ghost use Rattle.shell_text.specs.Texts.{texts};

use std::alloc::{AllocError, Global};

/// More words than any line of the grammar has.
pub(crate) const TOO_MANY: usize = 7;

/// The parts of a line between its spaces, from the first on up to `TOO_MANY` of them.
pub(crate) fn words_of(alloc: Global, line: &[u8]) -> Result<Vec<&[u8]>, AllocError>
    ensures { IfOk result (λ words.
        texts words.items ≡ take TOO_MANY (slice_split (λ byte. byte == 32) line.now)) }
{
    line.split(|byte| *byte == b' ')
        .take(TOO_MANY)
        .collect(alloc)
}
