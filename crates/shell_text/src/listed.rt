//! A list in a vector.
ghost use Rattle.std.specs.Prelude.{◌≡◌};

use std::marker::Model;

/// What a vector holds, as a list: contracts see neither where it stands nor what room it has.
#[derive(Drop)]
pub struct Listed<T: Drop> {
    items: Vec<T>,
}

/// Any bytes, as a key or a value: what an item of a line stands for, and what a reply prints.
pub type Item = Listed<u8>;

impl<T: Drop> Model for Listed<T> {
    ghost use Rattle.std.specs.Prelude.{List};

    ghost Value = { List T };

    ghost view = { λ listed. listed.items.items };
}

impl<T: Drop> Listed<T> {
    /// The list of what a vector holds. It takes no memory.
    pub fn of(items: Vec<T>) -> Listed<T>
        ensures { result ≡ items.items }
    {
        Listed { items }
    }

    /// What the list holds. It takes no memory.
    pub fn as_slice(&self) -> &[T]
        ensures { result.now ≡ self.now }
    {
        &self.items
    }

    /// The vector, given back. It takes no memory.
    pub fn into_vec(self) -> Vec<T>
        ensures { result.items ≡ self }
    {
        self.items
    }
}
