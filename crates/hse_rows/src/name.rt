//! The name of a store.
ghost use Rattle.std.specs.Prelude.{◌≡◌, ◌↔◌, IsTrue, IfOk, IfErr};
ghost use Rattle.std.specs.List.{list_all};
ghost use Rattle.hse_rows.specs.writes.Names.{is_name_byte, IsName};
ghost use Rattle.hse_rows.specs.writes.Refusals.{RefusesName};

use crate::shared_bytes::SharedBytes;
use hse_io::NoMemory;
use std::alloc::Global;
use std::marker::Model;
use thiserror::Error;

/// A name: 1 to 31 of the letters, the digits, `-` and `_`. Names are in the order of their bytes.
#[derive(Drop, PartialEq, Eq, PartialOrd, Ord)]
pub struct StoreName {
    text: SharedBytes,
}

impl Model for StoreName {
    ghost use Rattle.std.specs.Prelude.{List, ℕ};
    ghost use Rattle.hse_rows.specs.writes.Names.{IsName};

    ghost Value = { List ℕ };

    ghost view = { λ n. n.text };

    ghost inverse = { λ text. record { text = text } };

    ghost invariant = { λ n. IsName n.text };
}

/// Why no name was made.
#[derive(Clone, Copy, Debug, PartialEq, Eq, Error)]
pub enum NameFault {
    #[error("no name")]
    BadName,
    #[error("out of memory")]
    NoMemory,
}

impl From<NoMemory> for NameFault {
    ghost use Rattle.std.specs.Prelude.{◌≡◌};
    ghost use Rattle.hse_rows.specs.declared.name.NameFault.TheVariants.{NoMemory as OutOfMemory};

    ghost from_gives = { λ _ fault. fault ≡ OutOfMemory };

    fn from(_: NoMemory) -> Self {
        NameFault::NoMemory
    }
}

/// The most bytes that a name has.
const LONGEST_NAME: usize = 31;

/// Whether names may have this byte.
fn is_allowed(byte: u8) -> bool
    ensures { result ≡ is_name_byte byte }
{
    matches!(byte, b'a'..=b'z' | b'A'..=b'Z' | b'0'..=b'9' | b'-' | b'_')
}

/// Whether they may have each of these bytes.
fn are_allowed(text: &[u8]) -> bool
    ensures { result ≡ list_all is_name_byte text.now }
{
    text.iter().all(|byte| is_allowed(*byte))
}

/// Whether a text is a name.
fn is_name(text: &[u8]) -> bool
    ensures { IsTrue result ↔ IsName text.now }
{
    if text.is_empty() || text.len() > LONGEST_NAME {
        return false;
    }
    are_allowed(text)
}

impl StoreName {
    /// The name of this text. `BadName` comes exactly where it is not 1 to 31 of the letters, the
    /// digits, `-` and `_`.
    pub fn new(alloc: Global, text: &[u8]) -> Result<StoreName, NameFault>
        ensures made { IfOk result (λ name. name ≡ text.now) }
        ensures within { IfOk result (λ name. IsName name) }
        ensures refused { IfErr result (RefusesName text.now) }
    {
        if !is_name(text) {
            return Err(NameFault::BadName);
        }
        let text = SharedBytes::new(alloc, text)?;
        Ok(StoreName { text })
    }

    /// The name's text. It takes no memory.
    pub fn bytes(&self) -> &[u8]
        ensures value { result.now ≡ self.now }
        ensures within { IsName self.now }
    {
        self.text.bytes()
    }

    /// One more owner of the same name.
    pub fn share(&self, _alloc: Global) -> Result<StoreName, NoMemory>
        ensures { IfOk result (λ name. name ≡ self.now) }
    {
        let text = self.text.share()?;
        Ok(StoreName { text })
    }
}
