//! The kinds of changes.
ghost use Rattle.std.specs.Prelude.{◌≡◌, ◌≤◌, true, option_map};
ghost use Rattle.hse_fields.specs.LogForm.{longest_name};
ghost use Rattle.hse_fields.specs.LogText.{code};
ghost use Rattle.hse_fields.specs.LogReading.{kind_with, name_in_limits};
ghost use Rattle.wal.specs.Given.{kind_as};

use hse_fields::{DELETION, LONGEST_KEY, LONGEST_PREFIX, PREFIX_DELETE, PUT};

#[derive(Clone, Copy)]
pub(crate) enum Kind {
    Put,
    Del,
    PDel,
}

/// The kind of this byte, if one has it.
pub(crate) fn kind_of_byte(byte: u8) -> Option<Kind>
    ensures { option_map kind_as result ≡ kind_with byte }
{
    match byte {
        PUT => Some(Kind::Put),
        DELETION => Some(Kind::Del),
        PREFIX_DELETE => Some(Kind::PDel),
        _ => None,
    }
}

impl Kind {
    /// The kind's byte.
    pub(crate) fn byte(self) -> u8
        ensures { result ≡ code (kind_as self) }
    {
        match self {
            Kind::Put => PUT,
            Kind::Del => DELETION,
            Kind::PDel => PREFIX_DELETE,
        }
    }

    /// The most bytes that a name of this kind has: a key, or a prefix.
    fn longest_name(self) -> u64
        ensures { result ≡ longest_name (kind_as self) }
    {
        match self {
            Kind::Put | Kind::Del => LONGEST_KEY,
            Kind::PDel => LONGEST_PREFIX,
        }
    }

    /// Whether a name of this kind may have so many bytes, in any store.
    pub(crate) fn may_have(self, size: u64) -> bool
        ensures tells { result ≡ name_in_limits (kind_as self) size }
        ensures some { result ≡ true → 1 ≤ size }
        ensures short { result ≡ true → size ≤ longest_name (kind_as self) }
    {
        1 <= size && size <= self.longest_name()
    }
}
