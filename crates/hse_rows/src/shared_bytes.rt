//! Bytes that several owners share.
ghost use Rattle.std.specs.Prelude.{◌≡◌, IfOk};

use hse_io::NoMemory;
use std::alloc::Global;
use std::cmp::Ordering;
use std::marker::Model;
use std::sync::ArcSlice;

/// Bytes that never change and that their owners share. They may cross threads.
#[derive(Drop)]
pub struct SharedBytes {
    bytes: ArcSlice<u8>,
}

impl Model for SharedBytes {
    ghost use Rattle.std.specs.Prelude.{List, ℕ};
    ghost use Rattle.std.specs.Arc.{arc_slice_items};

    ghost Value = { List ℕ };

    ghost view = { λ s. arc_slice_items s.bytes };
}

impl SharedBytes {
    /// A copy of these bytes.
    pub fn new(alloc: Global, bytes: &[u8]) -> Result<SharedBytes, NoMemory>
        ensures { IfOk result (λ s. s ≡ bytes.now) }
    {
        Ok(SharedBytes {
            bytes: ArcSlice::from_slice(alloc, bytes)?,
        })
    }

    /// The bytes. It takes no memory.
    pub fn bytes(&self) -> &[u8]
        ensures { result.now ≡ self.now }
    {
        &self.bytes
    }

    /// One more owner of the same bytes.
    pub fn share(&self) -> Result<SharedBytes, NoMemory>
        ensures { IfOk result (λ s. s ≡ self.now) }
    {
        Ok(SharedBytes {
            bytes: self.bytes.clone()?,
        })
    }
}

impl PartialEq for SharedBytes {
    ghost use Rattle.std.specs.Prelude.{nat_eq};
    ghost use Rattle.std.specs.Cmp.{partial_equiv_from_equiv};
    ghost use Rattle.std.specs.Cmp.Lexicographic.{pointwise, nat_list_eq_equiv};

    ghost eq = { pointwise nat_eq };

    ghost laws = { partial_equiv_from_equiv nat_list_eq_equiv };

    fn eq(&self, other: &SharedBytes) -> bool {
        self.bytes() == other.bytes()
    }
}

impl Eq for SharedBytes {
    ghost use Rattle.std.specs.Cmp.Lexicographic.{nat_list_eq_equiv};

    ghost laws = { nat_list_eq_equiv };
}

impl Ord for SharedBytes {
    ghost use Rattle.std.specs.Prelude.{refl};
    ghost use Rattle.std.specs.Ordering.{nat_cmp};
    ghost use Rattle.std.specs.Cmp.Lexicographic.{slice_cmp, nat_list_cmp_total, texts_ties};

    ghost cmp = { slice_cmp nat_cmp };

    ghost total = { nat_list_cmp_total };

    ghost matches_partial_cmp = { λ _ _. refl };

    ghost matches_eq = { texts_ties };

    fn cmp(&self, other: &SharedBytes) -> Ordering {
        self.bytes().cmp(other.bytes())
    }
}

impl PartialOrd for SharedBytes {
    ghost use Rattle.std.specs.Ordering.{nat_cmp, as_partial_cmp};
    ghost use Rattle.std.specs.Cmp.Lexicographic.{slice_cmp, texts_po};

    ghost partial_cmp = { as_partial_cmp (slice_cmp nat_cmp) };

    ghost laws = { texts_po };

    fn partial_cmp(&self, other: &SharedBytes) -> Option<Ordering> {
        Some(self.cmp(other))
    }
}
