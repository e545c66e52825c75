//! The gate: guests of which each ends its callback of `mutex_acquire` only after that of every other one has begun. Where the parts of
//! a run are called one after another, they don't get through.

use crate::fixture::{ample, owned, source_of};
use omp_codes::callbacks;
use ompt_calls::{Call, Reply, Snapshot};
use ompt_cli::top;
use run_edges::{MemSource, Memory};
use std::alloc::Global;
use std::process::Abort;
use std::sync::atomic::{AtomicBool, AtomicU32, Ordering};
use std::sync::{Arc, Wait};
use std::test::Fail;
use std::thread;
use std::thread::Threads;
use tool_api::{ACTIVE, GuestTool, Registrar};

/// How many turns a guest waits for the others.
const TURNS: u32 = 100_000_000;

/// What a guest notes for the others, and for the test.
#[derive(Drop)]
struct Notes {
    /// The flag: its callback of `mutex_acquire` has begun.
    has_begun: AtomicBool,
    /// It has passed its limit of turns.
    has_given_up: AtomicBool,
    /// It has heard of another mutex than 1.
    has_strayed: AtomicBool,
    /// The position of its `mutex_acquired`, and that of its `mutex_released`; 0 where there was none.
    acquired: AtomicU32,
    released: AtomicU32,
}

impl Notes {
    /// What is noted where nothing was heard.
    fn new() -> Notes {
        Notes {
            has_begun: AtomicBool::new(false),
            has_given_up: AtomicBool::new(false),
            has_strayed: AtomicBool::new(false),
            acquired: AtomicU32::new(0),
            released: AtomicU32::new(0),
        }
    }

    /// Whether this guest gave the mutex up before the other one had it.
    fn is_before(&self, other: &Notes) -> bool {
        self.released.load(Ordering::SeqCst) < other.acquired.load(Ordering::SeqCst)
    }
}

/// A guest at the gate. The gate has the notes of each guest, by its thread.
#[derive(Drop)]
struct Waiting {
    gate: Arc<Vec<Notes>>,
}

impl GuestTool for Waiting {
    ghost use Rattle.std.specs.Prelude.{⊤};

    ghost stands_for = { λ guest h. ⊤ };

    fn initialize(&mut self, registrar: &mut Registrar) -> u32 {
        registrar.set(callbacks::MUTEX_ACQUIRE);
        registrar.set(callbacks::MUTEX_ACQUIRED);
        registrar.set(callbacks::MUTEX_RELEASED);
        ACTIVE
    }

    fn callback(
        &mut self,
        seq: u32,
        thread: u8,
        call: &Call,
        _snapshot: &Snapshot,
    ) -> Result<Reply, tool_api::Memory> {
        if let Some(notes) = self.gate.get(usize::from(thread)) {
            note(&self.gate, notes, seq, call);
        }
        Ok(Reply::none())
    }

    fn finalize(&mut self) {}
}

/// Notes a call at this position. Where the guest asks for the mutex, it waits at the gate.
fn note(gate: &[Notes], notes: &Notes, seq: u32, call: &Call) {
    match call {
        Call::MutexAcquire { wait_id: 1, .. } => {
            notes.has_begun.store(true, Ordering::SeqCst);
            if !waits_for_all(gate) {
                notes.has_given_up.store(true, Ordering::SeqCst);
            }
        }
        Call::MutexAcquired { wait_id: 1, .. } => notes.acquired.store(seq, Ordering::SeqCst),
        Call::MutexReleased { wait_id: 1, .. } => notes.released.store(seq, Ordering::SeqCst),
        _ => notes.has_strayed.store(true, Ordering::SeqCst),
    }
}

/// Waits until all have come to the gate. It answers whether they have within the limit of turns.
fn waits_for_all(gate: &[Notes]) -> bool {
    for _turn in 0..TURNS {
        if have_all_begun(gate) {
            return true;
        }
        thread::yield_now();
    }
    false
}

/// Whether all have come to the gate.
fn have_all_begun(gate: &[Notes]) -> bool {
    for notes in gate {
        if !notes.has_begun.load(Ordering::SeqCst) {
            return false;
        }
    }
    true
}

/// A critical in a region of two.
const CRITICAL_OF_TWO: &[u8] = b"int main(void) {
#pragma omp parallel num_threads(2)
#pragma omp critical
;
return 0;
}
";

/// A critical in a region of four.
const CRITICAL_OF_FOUR: &[u8] = b"int main(void) {
#pragma omp parallel num_threads(4)
#pragma omp critical
;
return 0;
}
";

/// Two guests that share two flags get through.
#[test]
fn two_guests_meet_at_the_gate(rt: HostRuntime) -> Result<(), Fail> {
    meet(&rt, &["run", "--threads", "2"], CRITICAL_OF_TWO, 2)?;
    Ok(())
}

/// Four guests that share four flags get through.
#[test]
fn four_guests_meet_at_the_gate(rt: HostRuntime) -> Result<(), Fail> {
    meet(&rt, &["run", "--threads", "4"], CRITICAL_OF_FOUR, 4)?;
    Ok(())
}

/// So many guests get through in a run with these words and this text.
fn meet<R: AllocGlobal + Threads + Wait + Sync + Abort>(
    rt: &R,
    words: &[&str],
    text: &[u8],
    guests: usize,
) -> Result<(), Memory> {
    let gate = gate_for(rt.alloc(), guests)?;
    let status = status_at(rt, words, text, &gate)?;
    assert!(rt; status == 0);
    have_met(rt, &gate);
    Ok(())
}

/// A gate for so many guests.
fn gate_for(alloc: Global, guests: usize) -> Result<Arc<Vec<Notes>>, Memory> {
    let mut gate = Vec::new(alloc);
    for _guest in 0..guests {
        gate.push(Notes::new())?;
    }
    Ok(Arc::new(alloc, gate)?)
}

/// The status of the command with these words and this text, and a guest for each place at the gate.
fn status_at<R: AllocGlobal + Threads + Wait + Sync>(
    rt: &R,
    words: &[&str],
    text: &[u8],
    gate: &Arc<Vec<Notes>>,
) -> Result<u8, Memory> {
    let mut guests: Vec<Box<dyn GuestTool>> = Vec::new(rt.alloc());
    for _guest in 0..gate.len() {
        let gate = Arc::try_clone(gate)?;
        guests.push(Box::new(rt.alloc(), Waiting { gate })?)?;
    }
    status_with(rt, words, text, guests)
}

/// The status of the command with these words and this text, and these guests.
fn status_with<R: AllocGlobal + Threads + Wait + Sync>(
    rt: &R,
    words: &[&str],
    text: &[u8],
    guests: Vec<Box<dyn GuestTool>>,
) -> Result<u8, Memory> {
    let words = owned(rt.alloc(), words)?;
    let mut source = source_of(rt.alloc(), text)?;
    status_from(rt, &words, &mut source, guests)
}

/// The status of the command with these words and this source, and these guests.
fn status_from<R: AllocGlobal + Threads + Wait + Sync>(
    rt: &R,
    words: &[String],
    source: &mut MemSource,
    guests: Vec<Box<dyn GuestTool>>,
) -> Result<u8, Memory> {
    let mut out = ample(rt.alloc())?;
    let mut err = ample(rt.alloc())?;
    let top = top(rt, rt.alloc(), words, source, &mut out, &mut err, guests);
    Ok(top.status)
}

/// Each guest has met all others within its limit, and has had the mutex, of which it heard alone, while no other one had it.
fn have_met(rt: &impl Abort, gate: &[Notes]) {
    for notes in gate {
        has_met(rt, notes);
    }
    for place in 1..gate.len() {
        is_apart(rt, &gate[place], &gate[..place]);
    }
}

/// The guest has met all others within its limit, and has had the mutex, of which it heard alone.
fn has_met(rt: &impl Abort, notes: &Notes) {
    assert!(rt; notes.has_begun.load(Ordering::SeqCst));
    assert!(rt; !notes.has_given_up.load(Ordering::SeqCst));
    assert!(rt; !notes.has_strayed.load(Ordering::SeqCst));
    let acquired = notes.acquired.load(Ordering::SeqCst);
    let released = notes.released.load(Ordering::SeqCst);
    assert!(rt; acquired > 0);
    assert!(rt; acquired < released);
}

/// This guest has had the mutex while none of the others had it.
fn is_apart(rt: &impl Abort, notes: &Notes, others: &[Notes]) {
    for other in others {
        assert!(rt; notes.is_before(other) || other.is_before(notes));
    }
}
