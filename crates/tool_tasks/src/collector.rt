//! Collecting the items of a trace.

ghost use Rattle.std.specs.Prelude.{◌≡◌, []};
ghost use Rattle.tool_tasks.specs.Answering.{IsJudged};
ghost use Rattle.tool_tasks.specs.Collecting.{trace_in};
ghost use Rattle.trace_format.specs.Validity.{IsTrace};

use crate::unread::Unread;
use ompt_calls::{EventRecord, Sequence};
use std::alloc::{AllocError, Global};
use trace_check::Checker;
use trace_format::{EndMark, Header, Item, RECORDED, Taker, Trace, VERSION};

/// What collects the items of a trace: its parts, as far as they have come.
#[derive(Drop)]
pub(crate) struct Collector {
    /// The header.
    pub header: Header,
    /// The events.
    pub events: Vec<EventRecord>,
    /// The end mark.
    pub end: EndMark,
}

impl Collector {
    /// Nothing has come. The header and the end mark are replaced once they come.
    pub fn new(alloc: Global) -> Collector
        ensures { result.events.items ≡ [] }
    {
        Collector {
            header: Header {
                version: VERSION,
                threads: 1,
                origin: RECORDED,
                mask: 0,
            },
            events: Vec::new(alloc),
            end: EndMark {
                status: 0,
                detail: 0,
                count: 0,
            },
        }
    }

    /// The trace that has come.
    pub fn into_trace(self) -> Trace
        ensures { result ≡ trace_in self }
    {
        Trace {
            header: self.header,
            events: Sequence(self.events),
            end: self.end,
        }
    }

    /// Whether the trace that has come is nested, and else its first breach.
    pub fn judge(&self, alloc: Global) -> Result<(), Unread>
        ensures { IsTrace (trace_in self.now) → IsJudged result (trace_in self.now) }
    {
        let mut checker = Checker::new(alloc, self.header);
        for event in &self.events {
            let Ok(()) = checker.step(event) else {
                return Err(Unread::Memory);
            };
        }
        match checker.verdict(&self.end) {
            Ok(()) => Ok(()),
            Err(breach) => Err(Unread::Broken(breach)),
        }
    }
}

impl Taker for Collector {
    ghost use Rattle.std.specs.Prelude.{◌≡◌};
    ghost use Rattle.tool_tasks.specs.Collecting.{collected, trace_in};

    type Stop = AllocError;

    ghost took = { λ start now items. trace_in now ≡ collected (trace_in start) items };

    // Want of memory is free.
    ghost stopped = { λ start now items next stop. Unit {0} };

    fn take(&mut self, item: &Item) -> Result<(), AllocError> {
        match item {
            Item::More => {}
            Item::Header(header) => self.header = *header,
            Item::Event(event) => self.events.push(*event)?,
            Item::End(end) => self.end = *end,
        }
        Ok(())
    }
}
