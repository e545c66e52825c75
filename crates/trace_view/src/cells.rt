//! The cells of which the picture of states is made: what is drawn of each thread at each column.

ghost use Rattle.std.specs.Prelude.{◌≡◌, ◌≤◌, ◌<◌, ◌+◌, ◌*◌, All, IfOk, get_or, length, map, set};
ghost use Rattle.tool_tasks.specs.Span.{AreRising};
ghost use Rattle.trace_view.specs.Cells.{AreAfter, IsGrid, cell_later, events_before, is_before, next_cell, no_cell};
ghost use Rattle.trace_view.specs.Svg.{is_switch, span_of, threads_of};

use crate::shades::shade_of;
use ompt_calls::{Call, EventRecord};
use std::alloc::{AllocError, Global};

/// How many threads a trace has at most. A column has a cell for each.
pub(crate) const THREADS: usize = 16;

/// The cell before the first event of a thread.
const NO_CELL: Cell = Cell {
    shade: 0,
    has_switch: false,
};

/// What is drawn of a thread at a column.
#[derive(Clone, Copy)]
pub(crate) struct Cell {
    /// The shade of its state, or 0 before its first event.
    pub shade: u8,
    /// Whether it goes from a task to another one.
    pub has_switch: bool,
}

/// How many threads have rows: one more than the greatest number.
pub(crate) fn threads_of(events: &[EventRecord]) -> u8
    requires { All (λ event. event.thread < 16) events.now }
    ensures threads { result ≡ threads_of events.now }
    ensures few { result ≤ 16 }
{
    let mut threads = 0_u8;
    for event in events {
        threads = threads.max(event.thread + 1);
    }
    threads
}

/// The cells of all threads, one column after the other.
pub(crate) fn cells_of(
    alloc: Global,
    columns: u8,
    events: &[EventRecord],
) -> Result<Vec<Cell>, AllocError>
    requires rising { AreRising 0 events.now }
    requires few { All (λ event. event.thread < 16) events.now }
    ensures { IfOk result (λ cells. IsGrid columns events.now columns cells.items) }
{
    let span = span_of(events);
    let mut all = Vec::new(alloc);
    let mut cells = [NO_CELL; THREADS];
    let mut past = 0;
    for column in 0..columns {
        let end = column_end(span, column);
        enter_column(&mut cells);
        past = take_until(events, past, columns, end, &mut cells);
        all.extend_from_slice(&cells)?;
    }
    Ok(all)
}

/// How many positions the events have: one more than the greatest.
fn span_of(events: &[EventRecord]) -> u64
    ensures span { result ≡ span_of events.now }
    ensures few { result ≤ 4294967296 }
{
    let mut span = 0_u64;
    for event in events {
        span = span.max(u64::from(event.seq) + 1);
    }
    span
}

/// Where a column ends, by positions of which each counts as often as there are columns.
fn column_end(span: u64, column: u8) -> u64
    requires { span ≤ 4294967296 }
    ensures { result ≡ (column + 1) * span }
{
    (u64::from(column) + 1) * span
}

/// No event has come to pass in the next column yet.
fn enter_column(cells: &mut [Cell])
    ensures { cells.new ≡ map cell_later cells.old }
{
    for cell in cells.iter_mut() {
        cell.has_switch = false;
    }
}

/// Takes the events before this end, of which the first `from` were taken before, and says how many are taken now.
fn take_until(
    events: &[EventRecord],
    from: usize,
    columns: u8,
    end: u64,
    cells: &mut [Cell],
) -> usize
    requires rising { AreRising 0 events.now }
    requires few { All (λ event. event.thread < 16) events.now }
    requires long { length cells.old ≡ 16 }
    requires front { from ≤ length (events_before columns end events.now) }
    requires cells { AreAfter cells.old events.now from from }
    ensures taken { result ≡ length (events_before columns end events.now) }
    ensures cells { AreAfter cells.new events.now from result }
{
    let mut past = from;
    while past < events.len() && is_before(&events[past], columns, end) {
        take(&events[past], cells);
        past += 1;
    }
    past
}

/// Whether an event lies before this end, where so many columns share the positions.
fn is_before(event: &EventRecord, columns: u8, end: u64) -> bool
    ensures { result ≡ is_before columns end event.now }
{
    u64::from(event.seq) * u64::from(columns) < end
}

/// Takes an event.
fn take(event: &EventRecord, cells: &mut [Cell])
    requires { event.now.thread < length cells.old }
    ensures { cells.new
        ≡ set cells.old event.now.thread (next_cell (get_or cells.old event.now.thread no_cell) event.now) }
{
    let thread = usize::from(event.thread);
    cells[thread] = next_cell(cells[thread], event);
}

/// The cell after an event of its thread.
fn next_cell(cell: Cell, event: &EventRecord) -> Cell
    ensures { result ≡ next_cell cell event.now }
{
    Cell {
        shade: shade_of(event.state),
        has_switch: cell.has_switch || is_switch(&event.call),
    }
}

/// Whether the thread goes from a task to another one.
fn is_switch(call: &Call) -> bool
    ensures { result ≡ is_switch call.now }
{
    matches!(call, Call::TaskSchedule { .. })
}
