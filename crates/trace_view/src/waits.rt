//! The waits of a trace as a table.

ghost use Rattle.std.specs.Prelude.{◌≡◌, ◌++◌, IfOk, List, OnOk, Some};
ghost use Rattle.std.specs.Option.{option_copied};
ghost use Rattle.ompt_calls.specs.declared.event.EventRecord.{EventRecord as EventOf};
ghost use Rattle.trace_check.specs.Nested.{last_seq};
ghost use Rattle.trace_view.specs.Naming.{name_text};
ghost use Rattle.trace_view.specs.Waits.{IsWaitTable, cause_text};
ghost use Rattle.trace_view.specs.WaitTallies.{HasTallies, line_of};

use crate::wait_ends::WaitKey;
use crate::wait_tallies::{Tally, tallies_of};
use ompt_calls::{CodePlace, EventRecord};
use std::alloc::{AllocError, Global};
use std::collections::BTreeMap;
use std::fmt;
use std::fmt::{Display, Formatter};
use trace_format::Trace;

/// The table of the waits of a trace: a line for each construct, cause and thread with a wait.
pub fn waits_text(alloc: Global, trace: &Trace) -> Result<Vec<u8>, AllocError>
    ensures { IfOk result (λ text. IsWaitTable trace.now.events text.items) }
{
    let events = trace.events.0.as_slice();
    let tallies = tallies_of(alloc, events)?;
    table(alloc, &tallies, last_seq(events))
}

/// The position of the last event, and 0 where there is none.
fn last_seq(events: &[EventRecord]) -> u32
    ensures { result ≡ last_seq events.now }
{
    match events.last() {
        Some(event) => event.seq,
        None => 0,
    }
}

/// The table of what was counted, where the last event has this position.
fn table(
    alloc: Global,
    tallies: &BTreeMap<WaitKey, Tally>,
    last: u32,
) -> Result<Vec<u8>, AllocError>
    ensures { IfOk result (λ text. (events : List EventOf) → HasTallies tallies.now events → last ≡ last_seq events →
        IsWaitTable events text.items) }
{
    let mut text = Vec::new(alloc);
    text.extend_from_slice(b"place cause thread waits positions open\n")?;
    for (key, tally) in tallies {
        put_line(alloc, key, tally, last, &mut text)?;
    }
    Ok(text)
}

/// Adds the line of a key, if a wait began.
fn put_line(
    alloc: Global,
    key: &WaitKey,
    tally: &Tally,
    last: u32,
    text: &mut Vec<u8>,
) -> Result<(), AllocError>
    ensures { OnOk result (text.new.items ≡ text.old.items ++ line_of last (key.now, tally.now)) }
{
    if tally.begins.count == 0 {
        return Ok(());
    }
    let place = CodePlace(key.place);
    let cause = Cause { number: key.cause };
    let waited = tally.waited(last)?;
    let line = format!(in alloc;
        "{place} {cause} {} {} {waited} {}\n",
        key.thread,
        tally.begins.count,
        tally.open()
    )?;
    text.extend_from_slice(line.as_bytes())
}

/// What is waited for, by its name, and a number without one as itself.
#[derive(Clone, Copy)]
struct Cause {
    number: u64,
}

impl Display for Cause {
    ghost output = { λ cause. Some (cause_text cause.number) };

    fn fmt<W: fmt::Write>(&self, f: &mut Formatter<W>) -> fmt::Result {
        match cause_name(self.number) {
            Some(name) => write!(f, "{name}"),
            None => write!(f, "{}", self.number),
        }
    }
}

/// The name of what is waited for, if it has one.
fn cause_name(cause: u64) -> Option<&'static str>
    ensures { name_text (option_copied result) cause ≡ cause_text cause }
{
    match cause {
        17 => Some("ompt_mutex_lock"),
        21 => Some("ompt_mutex_critical"),
        3 => Some("ompt_sync_region_barrier_explicit"),
        5 => Some("ompt_sync_region_taskwait"),
        8 => Some("ompt_sync_region_barrier_implicit_workshare"),
        9 => Some("ompt_sync_region_barrier_implicit_parallel"),
        _ => None,
    }
}
