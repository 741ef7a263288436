//! Why a call made no mark.

/// Why a call that ends with a mark did not.
#[derive(Clone, Copy, Debug, PartialEq, Eq)]
pub enum Unmarked<F> {
    /// This kept it from its end.
    Fault(F),
    /// There was no room for the mark. Nothing has changed.
    NoMemory,
}
