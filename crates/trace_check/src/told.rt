//! A checker that is told of the items of a trace.

ghost use Rattle.std.specs.Prelude.{[], MatchResult};
ghost use Rattle.trace_format.specs.declared.trace.Trace.{Trace};
ghost use Rattle.trace_format.specs.Items.{items_of};
ghost use Rattle.trace_check.specs.Items.{KnowsItems};
ghost use Rattle.trace_check.specs.Nested.{IsFirstBreach, Nested};

use crate::breach::Breach;
use crate::checker::Checker;
use std::alloc::{AllocError, Global};
use trace_format::{EndMark, Item, Taker};

/// What was told of the items of a trace so far.
#[derive(Drop)]
pub(crate) struct Told {
    /// The allocator.
    alloc: Global,
    /// The checker, once the header has come.
    checker: Option<Checker>,
    /// The end mark, once it has come.
    end: Option<EndMark>,
}

impl Told {
    /// Nothing was told.
    pub fn new(alloc: Global) -> Told
        ensures knows { KnowsItems result [] }
    {
        Told {
            alloc,
            checker: None,
            end: None,
        }
    }

    /// Whether the trace that was told whole is nested, and else its first breach.
    pub fn verdict(&self) -> Result<(), Breach>
        ensures { (trace : Trace) → KnowsItems self.now (items_of trace) →
            MatchResult result (λ _. Nested trace.header trace.events trace.end)
            (IsFirstBreach trace.header trace.events trace.end) }
    {
        match (&self.checker, &self.end) {
            (Some(checker), Some(end)) => checker.verdict(end),
            _ => Ok(()),
        }
    }
}

impl Taker for Told {
    ghost use Rattle.trace_check.specs.Items.{KnowsItems};

    type Stop = AllocError;

    ghost took = { λ start now items. KnowsItems now items };

    // Want of memory is free.
    ghost stopped = { λ start now items next stop. Unit {0} };

    fn take(&mut self, item: &Item) -> Result<(), AllocError> {
        match item {
            Item::More => {}
            Item::Header(header) => self.checker = Some(Checker::new(self.alloc, *header)),
            Item::Event(event) => {
                if let Some(checker) = &mut self.checker {
                    checker.step(event)?;
                }
            }
            Item::End(end) => self.end = Some(*end),
        }
        Ok(())
    }
}
