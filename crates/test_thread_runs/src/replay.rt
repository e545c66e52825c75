//! A history once more, on a machine alone.

use omp_machine::{Machine, Memory, Went};
use omp_model::{Entry, What};
use ompt_calls::EventRecord;
use std::alloc::Global;
use std::process::Abort;

/// The machine goes through the history, in which no tool stores. These are the events that it tells, in order.
pub(crate) fn replay(
    rt: &impl Abort,
    alloc: Global,
    machine: &mut Machine,
    history: &[Entry],
) -> Result<Vec<EventRecord>, Memory> {
    let mut told = Vec::new(alloc);
    let mut seq = 0_u32;
    for entry in history {
        if let Some(event) = follow(rt, machine, seq, *entry)? {
            told.push(event)?;
        }
        seq = seq.saturating_add(1);
    }
    Ok(told)
}

/// The machine does what the entry at this position says: the event that is told, if one is.
fn follow(
    rt: &impl Abort,
    machine: &mut Machine,
    seq: u32,
    entry: Entry,
) -> Result<Option<EventRecord>, Memory> {
    match entry.what {
        What::Go => go(rt, machine, seq, entry.thread),
        What::Put(_, _) => panic!(rt; "no tool stores"),
        What::Back => {
            back(rt, machine, entry.thread);
            Ok(None)
        }
    }
}

/// The callback of the thread, which has to be inside one, has returned.
fn back(rt: &impl Abort, machine: &mut Machine, thread: u8) {
    assert!(rt; machine.pending(thread));
    machine.back(thread);
}

/// A turn of the thread, which has to be enabled, at this position: the event that is told, if one is.
fn go(
    rt: &impl Abort,
    machine: &mut Machine,
    seq: u32,
    thread: u8,
) -> Result<Option<EventRecord>, Memory> {
    assert!(rt; machine.enabled(thread));
    match machine.go(thread) {
        Ok(went) => Ok(told_by(machine, seq, thread, went)),
        Err(memory) => Err(memory),
    }
}

/// The event of the thread's turn at this position, if the turn told one.
fn told_by(machine: &mut Machine, seq: u32, thread: u8, went: Went) -> Option<EventRecord> {
    let Went::Told(call, snapshot) = went else {
        return None;
    };
    let event = EventRecord {
        seq,
        thread,
        state: snapshot.state,
        wait_id: snapshot.wait_id,
        call,
    };
    machine.reuse(snapshot);
    Some(event)
}
