//! The report of the states of threads over the run.

ghost use Rattle.std.specs.Prelude.{ℕ, ◌≡◌, ◌<◌, ◌≤◌, ◌++◌, IfOk, List, filter, length, map, nat_le, slice_index_or, take};
ghost use Rattle.std.specs.List.{range_with_len};
ghost use Rattle.ompt_calls.specs.declared.event.EventRecord.{EventRecord};
ghost use Rattle.tool_report.specs.Moments.{moments_of};
ghost use Rattle.tool_report.specs.Order.{AreKept, AreRising};
ghost use Rattle.tool_report.specs.Timeline.{column_end, column_letter, letter_of, letter_of_last, span_of, state_line, timeline_of};
ghost use Rattle.tool_report.specs.declared.timeline.Moment.{Moment};

use crate::merging::Memory;
use crate::timeline::{Moment, Timeline};
use omp_codes::states::{
    IDLE, OVERHEAD, WAIT_BARRIER_EXPLICIT, WAIT_BARRIER_IMPLICIT_PARALLEL,
    WAIT_BARRIER_IMPLICIT_WORKSHARE, WAIT_CRITICAL, WAIT_LOCK, WAIT_TASKWAIT, WORK_PARALLEL,
    WORK_SERIAL,
};
use std::alloc::Global;

/// The report of what these timelines keep: for each thread with an event a line with so many columns, which share the positions of the run
/// between them. A column has the letter of the state after the thread's last event up to its end, or a dot where there is none. Part t is
/// that of thread t.
pub fn timeline_text(alloc: Global, parts: &[Timeline], columns: u8) -> Result<Vec<u8>, Memory>
    ensures { IfOk result (λ text. (events : List EventRecord) → AreKept moments_of events parts.now →
        text.items ≡ timeline_of columns events) }
{
    let span = span_of(parts);
    let mut text = Vec::new(alloc);
    for thread in 0..parts.len() {
        let moments = parts[thread].moments();
        if !moments.is_empty() {
            push_line(alloc, &mut text, thread, moments, columns, span)?;
        }
    }
    Ok(text)
}

/// The letter of a state.
fn letter_of(state: u16) -> u8
    ensures { result ≡ letter_of state }
{
    match u32::from(state) {
        WORK_SERIAL => b's',
        WORK_PARALLEL => b'p',
        WAIT_BARRIER_IMPLICIT_PARALLEL | WAIT_BARRIER_IMPLICIT_WORKSHARE | WAIT_BARRIER_EXPLICIT =>
            b'b',
        WAIT_TASKWAIT => b'w',
        WAIT_LOCK => b'l',
        WAIT_CRITICAL => b'c',
        IDLE => b'i',
        OVERHEAD => b'o',
        _ => b'?',
    }
}

/// The position at which a column ends, where so many columns share so many positions.
fn column_end(columns: u8, span: u64, column: u8) -> u64
    requires column { column < columns }
    requires some { 1 ≤ span }
    requires few { span ≤ 4294967296 }
    ensures { result ≡ column_end columns span column }
{
    ((u64::from(column) + 1) * span - 1) / u64::from(columns)
}

/// One more than the greatest position of an event, and 0 where there is none.
fn span_of(parts: &[Timeline]) -> u64
    ensures few { result ≤ 4294967296 }
    ensures some { (thread : ℕ) (d : List Moment) → thread < length parts.now →
        1 ≤ length (slice_index_or parts.now thread d) → 1 ≤ result }
    ensures span { (events : List EventRecord) → AreKept moments_of events parts.now → result ≡ span_of events }
{
    let mut span = 0_u64;
    for part in parts {
        let moments = part.moments();
        if !moments.is_empty() {
            let last = moments[moments.len() - 1].seq;
            span = span.max(u64::from(last) + 1);
        }
    }
    span
}

/// Adds the line of a thread with these moments.
fn push_line(
    alloc: Global,
    text: &mut Vec<u8>,
    thread: usize,
    moments: &[Moment],
    columns: u8,
    span: u64,
) -> Result<(), Memory>
    requires some { 1 ≤ span }
    requires few { span ≤ 4294967296 }
    ensures { IfOk result (λ _. (events : List EventRecord) → AreRising events → moments.now ≡ moments_of events →
        text.new.items ≡ text.old.items ++ state_line columns span thread events) }
{
    let number = format!(in alloc; "{thread:>2} ")?;
    text.extend_from_slice(number.as_bytes())?;
    push_letters(text, moments, columns, span)?;
    text.push(b'\n')?;
    Ok(())
}

/// Adds the letters of a thread's line.
fn push_letters(
    text: &mut Vec<u8>,
    moments: &[Moment],
    columns: u8,
    span: u64,
) -> Result<(), Memory>
    requires some { 1 ≤ span }
    requires few { span ≤ 4294967296 }
    ensures { IfOk result (λ _. (events : List EventRecord) → AreRising events → moments.now ≡ moments_of events →
        text.new.items ≡ text.old.items ++ map (column_letter columns span events) (range_with_len 0 columns)) }
{
    let mut past = 0;
    for column in 0..columns {
        past = passed(moments, past, column_end(columns, span, column));
        text.push(letter_before(moments, past))?;
    }
    Ok(())
}

/// The letter of the last of the first so many moments, and a dot where there is none.
fn letter_before(moments: &[Moment], past: usize) -> u8
    requires { past ≤ length moments.now }
    ensures { (events : List EventRecord) → moments.now ≡ moments_of events →
        result ≡ letter_of_last (take past events) }
{
    if past == 0 {
        b'.'
    } else {
        letter_of(moments[past - 1].state)
    }
}

/// How many of these moments lie up to this position, where at least `from` do.
fn passed(moments: &[Moment], from: usize, position: u64) -> usize
    requires { from ≤ length moments.now }
    ensures within { result ≤ length moments.now }
    ensures front { (events : List EventRecord) → AreRising events → moments.now ≡ moments_of events →
        from ≤ length (filter (λ (event : EventRecord). nat_le event.seq position) events) →
        result ≡ length (filter (λ (event : EventRecord). nat_le event.seq position) events) }
{
    let mut passed = from;
    while passed < moments.len() && u64::from(moments[passed].seq) <= position {
        passed += 1;
    }
    passed
}
