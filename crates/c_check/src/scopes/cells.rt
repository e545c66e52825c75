//! How many cells the variables of a file have.

ghost use Rattle.std.specs.Prelude.{◌≡◌, ◌+◌, nat_lt};
ghost use Rattle.c_check.specs.Cells.{cells_of, most_cells};
ghost use Rattle.c_check.specs.Standing.{up_to_most};

use crate::acts::act::Thing;
use std::marker::Model;

/// The most cells that the variables of a file may have.
const MOST_CELLS: u64 = 1_048_576;

/// A count of cells, which stands still at one more than there may be. Contracts see it as a number.
#[derive(Drop)]
pub struct CellCount {
    count: u64,
}

impl Model for CellCount {
    ghost use Rattle.std.specs.Prelude.{ℕ, ◌≤◌};

    ghost Value = { ℕ };

    ghost view = { λ cells. cells.count };

    ghost invariant = { λ cells. cells.count ≤ 1048577 };
}

impl CellCount {
    /// No cells.
    pub fn new() -> CellCount
        ensures { result ≡ 0 }
    {
        CellCount { count: 0 }
    }

    /// There is one more variable.
    pub fn add(&mut self, thing: Thing)
        ensures { self.new ≡ up_to_most (self.old + cells_of thing) }
    {
        let count = self.count + cells_of(thing);
        self.count = count.min(MOST_CELLS + 1);
    }

    /// Whether there would be too many with one more variable.
    pub fn is_too_much(&self, thing: Thing) -> bool
        ensures { result ≡ nat_lt most_cells (self.now + cells_of thing) }
    {
        MOST_CELLS < self.count + cells_of(thing)
    }
}

/// How many cells a variable has.
fn cells_of(thing: Thing) -> u64
    ensures { result ≡ cells_of thing }
{
    match thing {
        Thing::Int | Thing::Lock => 1,
        Thing::Array(size) => u64::from(size),
        Thing::Function(_, _) => 0,
    }
}
