//! How many threads and how many silent steps a run may have.

ghost use Rattle.std.specs.Prelude.{◌≤◌};

/// How many threads and how many silent steps a run may have.
#[derive(Clone, Copy)]
pub struct Limits {
    /// How many threads there may be: 1 to 16.
    pub threads: u8,
    /// How many silent steps there may be: 1 to 30,000,000.
    pub steps: u32,
    ghost some_threads: { 1 ≤ threads },
    ghost few_threads: { threads ≤ 16 },
    ghost some_steps: { 1 ≤ steps },
    ghost few_steps: { steps ≤ 30000000 },
}
