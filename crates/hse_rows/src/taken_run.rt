//! Numbers of creations and drops that follow one another.
ghost use Rattle.std.specs.Prelude.{◌+◌, ◌<◌, ◌≤◌, ◌^◌};

/// Numbers of creations and drops that follow one another: the first of them, and how many.
#[derive(Clone, Copy, Debug, PartialEq, Eq)]
pub struct TakenRun {
    pub first: u64,
    pub count: u32,
    ghost some: { 1 ≤ count },
    ghost short: { count < 2 ^ 32 },
    ghost fits: { first + count ≤ 2 ^ 62 + 1 },
}
