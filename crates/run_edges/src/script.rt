//! What the sources and sinks in memory are told to do.
ghost use Rattle.std.specs.Prelude.{◌≡◌, ◌≤◌, drop, vec_len};
ghost use Rattle.run_edges.specs.Script.{next_count};

use std::marker::Model;

/// What one call of a source or a sink in memory does.
#[derive(Clone, Copy, Debug, PartialEq, Eq)]
pub enum Script {
    /// Moves at most so many bytes, where 0 counts as 1.
    Most(usize),
    /// Fails, moves nothing, and raises the count of faults.
    Fail,
}

/// The steps of a script that no call has obeyed yet.
#[derive(Drop)]
pub(crate) struct Steps {
    script: Vec<Script>,
    obeyed: usize,
}

// Clauses see the steps that are left.
impl Model for Steps {
    ghost use Rattle.std.specs.Prelude.{List, drop, ◌≤◌, vec_len};
    ghost use Rattle.run_edges.specs.declared.script.Script.{Script};

    ghost Value = { List Script };

    ghost view = { λ s. drop s.obeyed s.script.items };

    ghost invariant = { λ s. s.obeyed ≤ vec_len s.script };
}

impl Steps {
    pub(crate) fn new(script: Vec<Script>) -> Steps
        ensures { result ≡ script.items }
    {
        Steps { script, obeyed: 0 }
    }

    /// Drops the next step, and says how many of `fitting` bytes it moves, or `None` where it fails.
    pub(crate) fn next(&mut self, fitting: usize) -> Option<usize>
        ensures count { result ≡ next_count self.old fitting }
        ensures rest { self.new ≡ drop 1 self.old }
    {
        let Some(step) = self.script.get(self.obeyed).copied() else {
            return Some(fitting);
        };
        self.obeyed += 1;
        match step {
            Script::Most(most) => Some(most.max(1).min(fitting)),
            Script::Fail => None,
        }
    }
}
