//! What contracts know of a device.
ghost use Rattle.std.specs.Prelude.{List, ℕ};

/// What contracts know of a device of bytes. A device in memory tells its content, and the clauses on content hold
/// where it is told. That a real file keeps the model is not proved.
pub trait Device {
    /// That this type tells its content.
    ghost tells: { Type 0 };

    /// What a read gives.
    ghost seen: { Self → List ℕ };

    /// The ranges that a crash may leave with any bytes, an offset and a length each, the newest first.
    ghost pending: { Self → List (ℕ × ℕ) };

    /// The size last answered by `size` or set by `set_size`.
    ghost extent: { Self → ℕ };

    /// A count that rises where the device fails.
    ghost faults: { Self → ℕ };

    /// How many calls of the five there were.
    ghost clock: { Self → ℕ };

    /// Which device it is: of a device that is lent, the loan.
    ghost name: { Self → ℕ };

    /// The images that a crash at some moment since that clock might have left, inside a call too.
    ghost could: { Self → ℕ → List ℕ → Type 0 };
}
