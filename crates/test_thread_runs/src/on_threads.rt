//! Four passes, each on a thread of the system, with a lister that is told what its pass is told.

ghost use Rattle.std.specs.Prelude.{◌≡◌, IfOk, length};

use crate::fixture::{STEPS, program_of};
use crate::replay::replay;
use omp_codes::PROFILE_MASK;
use omp_machine::{Limits, Machine};
use omp_model::Cause;
use ompt_calls::EventRecord;
use std::alloc::{AllocError, Global};
use std::process::Abort;
use std::sync::Wait;
use std::test::Fail;
use std::thread::Threads;
use team_run::Ran;
use thread_run::run_threads;
use tool_report::Lister;

/// Tasks of one member, a loop whose iterations are taken one by one, and criticals.
const TASKS_AND_A_LOOP: &[u8] = b"#include <stdio.h>
int main(void) {
  int sum = 0;
#pragma omp parallel num_threads(4)
  {
#pragma omp single
    for (int i = 0; i < 5; i++) {
#pragma omp task
      {
#pragma omp critical
        sum += 1;
      }
    }
#pragma omp for schedule(dynamic, 1)
    for (int i = 0; i < 7; i++) {
#pragma omp critical
      sum += 5;
    }
  }
  printf(\"%d\\n\", sum);
  return 0;
}
";

/// What it prints, in whatever order the tasks and the iterations come.
const PRINTED: &[u8] = b"40\n";

/// How many threads and silent steps there may be.
const LIMITS: Limits = Limits {
    threads: 4,
    steps: STEPS,
};

/// How often the program is run.
const ROUNDS: u32 = 100;

/// Each pass is told the events that a replay of the history has of its thread, at their places and in their order.
#[test]
fn four_passes_on_four_threads(rt: HostRuntime) -> Result<(), Fail> {
    for _ in 0..ROUNDS {
        let ran = run_on_threads(&rt, rt.alloc())?;
        is_replayed(&rt, rt.alloc(), &ran)?;
    }
    Ok(())
}

/// A run of the program, each thread with a lister.
fn run_on_threads<R: Threads + Wait + Sync + Abort>(
    rt: &R,
    alloc: Global,
) -> Result<Ran<Lister>, Fail> {
    let program = program_of(rt, alloc, TASKS_AND_A_LOOP)?;
    let listers = four_listers(alloc)?;
    Ok(run_threads(rt, alloc, program, LIMITS, listers)?)
}

/// A lister for each thread, which has heard nothing.
fn four_listers(alloc: Global) -> Result<Vec<Lister>, AllocError>
    ensures { IfOk result (λ listers. length listers.items ≡ 4) }
{
    let listers = [
        Lister::new(alloc),
        Lister::new(alloc),
        Lister::new(alloc),
        Lister::new(alloc),
    ];
    Ok(Vec::from_array(alloc, listers)?)
}

/// A machine goes through the history of the run to the same end, and tells what the listers were told.
fn is_replayed(rt: &impl Abort, alloc: Global, ran: &Ran<Lister>) -> Result<(), Fail> {
    let mut machine = new_machine(rt, alloc)?;
    goes_through(rt, alloc, &mut machine, ran)
}

/// A machine of the program before the first entry.
fn new_machine(rt: &impl Abort, alloc: Global) -> Result<Machine, Fail> {
    let program = program_of(rt, alloc, TASKS_AND_A_LOOP)?;
    Ok(Machine::new(alloc, program, PROFILE_MASK, LIMITS)?)
}

/// The machine goes through the history of the run.
fn goes_through(
    rt: &impl Abort,
    alloc: Global,
    machine: &mut Machine,
    ran: &Ran<Lister>,
) -> Result<(), Fail> {
    let told = replay(rt, alloc, machine, ran.history.as_slice())?;
    are_done(rt, ran, machine);
    have_heard(rt, &ran.parts, &told);
    Ok(())
}

/// The run and the machine are done, and have printed the same.
fn are_done(rt: &impl Abort, ran: &Ran<Lister>, machine: &Machine) {
    assert!(rt; matches!(ran.cause, Cause::Done));
    assert!(rt; matches!(machine.cause(), Some(Cause::Done)));
    assert!(rt; ran.text.as_slice() == PRINTED);
    assert!(rt; machine.text() == PRINTED);
}

/// Each lister has heard the events of its thread among those that were told.
fn have_heard(rt: &impl Abort, listers: &[Lister], told: &[EventRecord]) {
    assert!(rt; listers.len() == usize::from(LIMITS.threads));
    for (thread, lister) in listers.iter().enumerate() {
        has_heard(rt, thread, lister.events(), told);
    }
}

/// These are the events of the thread among those that were told.
fn has_heard(rt: &impl Abort, thread: usize, events: &[EventRecord], told: &[EventRecord]) {
    let mut heard = events.iter();
    for event in told {
        if usize::from(event.thread) == thread {
            assert!(rt; heard.next() == Some(event));
        }
    }
    assert!(rt; heard.next().is_none());
}
