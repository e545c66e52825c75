//! The tally of a run.

ghost use Rattle.std.specs.Prelude.{◌≡◌, ◌+◌, ◌-◌, ◌^◌, min};

use std::fmt;

/// What a row turned out to be.
#[derive(Clone, Copy)]
pub enum Verdict {
    /// The answer is the one that was wanted.
    Agrees,
    /// It is another one, or the row can't be read.
    Differs,
}

/// How many rows there were, and how many of them differ from what was wanted. Each count stays at its greatest value.
#[derive(Clone, Copy)]
pub struct Tally {
    rows: u64,
    differing: u64,
}

impl Tally {
    /// The tally of no rows.
    pub fn new() -> Tally
        ensures rows { result.rows ≡ 0 }
        ensures differing { result.differing ≡ 0 }
    {
        Tally {
            rows: 0,
            differing: 0,
        }
    }

    /// Counts a row.
    pub fn add(&mut self, verdict: Verdict)
        ensures rows { self.new.rows ≡ min (self.old.rows + 1) (2 ^ 64 - 1) }
        ensures agrees { verdict ≡ Verdict.Agrees → self.new.differing ≡ self.old.differing }
        ensures differs { verdict ≡ Verdict.Differs → self.new.differing ≡ min (self.old.differing + 1) (2 ^ 64 - 1) }
    {
        self.rows = self.rows.saturating_add(1);
        match verdict {
            Verdict::Agrees => {}
            Verdict::Differs => self.differing = self.differing.saturating_add(1),
        }
    }
}

impl fmt::Display for Tally {
    fn fmt<W: fmt::Write>(&self, f: &mut fmt::Formatter<W>) -> fmt::Result {
        let Tally { rows, differing } = *self;
        write!(f, "{rows} rows, {differing} differ")
    }
}
