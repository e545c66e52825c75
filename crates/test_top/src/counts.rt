//! How many calls four guests get of each callback, through the command: serially, and by threads in each order of events.

use crate::fixture::{Ran, Told, ran_in, tell_guests};
use crate::listening::ACTIVE;
use run_edges::Memory;
use std::process::Abort;
use std::sync::Wait;
use std::test::Fail;
use std::thread::Threads;

/// Words of a serial run with four threads, and of a run by four threads.
const RUNS_ON_FOUR: [&[&str]; 2] = [
    &["run", "--serial", "--threads", "4"],
    &["run", "--threads", "4"],
];

/// A program that four threads run, what it prints, and what the four guests together get: how many calls of each callback of the profile,
/// in their order, and how many in all.
struct Counted {
    text: &'static [u8],
    printed: &'static [u8],
    calls: [u64; 17],
    all: u64,
}

const COUNTED: &[Counted] = &[
    // Two sections, of which each is dispatched once. Each of four members begins and ends their work.
    Counted {
        text: b"int main(void) {
#pragma omp parallel num_threads(4)
#pragma omp sections nowait
{
#pragma omp section
;
#pragma omp section
;
}
return 0;
}
",
        printed: b"",
        calls: [4, 4, 1, 1, 0, 0, 10, 8, 0, 8, 0, 8, 0, 0, 0, 0, 2],
        all: 46,
    },
    // 15 calls of fib, of which 7 create two tasks each and wait for them. The others are the barriers of the single and of the region.
    Counted {
        text: b"#include <omp.h>
#include <stdio.h>
int fib(int n) {
  int x, y;
  if (n < 2) return n;
  #pragma omp task shared(x)
  x = fib(n - 1);
  #pragma omp task shared(y)
  y = fib(n - 2);
  #pragma omp taskwait
  return x + y;
}
int main(void) {
  int r;
  #pragma omp parallel
  #pragma omp single
  r = fib(5);
  printf(\"%d\\n\", r);
  return 0;
}
",
        printed: b"5\n",
        calls: [4, 4, 1, 1, 14, 28, 10, 30, 0, 8, 0, 30, 0, 0, 0, 0, 0],
        all: 130,
    },
];

#[test]
fn guests_on_four_threads_count_their_calls(rt: HostRuntime) -> Result<(), Fail> {
    for words in RUNS_ON_FOUR {
        for counted in COUNTED {
            count(&rt, words, counted)?;
        }
    }
    Ok(())
}

/// Four guests that register the callbacks of the profile count the calls of this program.
fn count<R: AllocGlobal + Threads + Wait + Sync + Abort>(
    rt: &R,
    words: &[&str],
    counted: &Counted,
) -> Result<(), Memory> {
    let told = tell_guests(rt, words, counted.text, 4, ACTIVE, &[])?;
    are_counted(rt, &told, counted);
    Ok(())
}

/// The program has run and printed what it prints, and its calls were counted.
fn are_counted(rt: &impl Abort, told: &Told, counted: &Counted) {
    assert!(rt; told.status == 0);
    assert!(rt; told.out.bytes() == counted.printed);
    has_calls(rt, ran_in(rt, told), counted);
}

/// There are four guests, and together they got these calls.
fn has_calls(rt: &impl Abort, ran: &Ran, counted: &Counted) {
    assert!(rt; ran.guests.len() == 4);
    for (place, calls) in counted.calls.iter().enumerate() {
        assert!(rt; calls_at(ran, place) == *calls, "at {place}");
    }
    assert!(rt; all_calls(ran) == counted.all);
}

/// How many calls the guests got together.
fn all_calls(ran: &Ran) -> u64 {
    let mut all = 0_u64;
    for guest in &ran.guests {
        all = all.saturating_add(guest.counts[0]);
    }
    all
}

/// How many calls of the callback at this place of the profile the guests got together.
fn calls_at(ran: &Ran, place: usize) -> u64 {
    let mut all = 0_u64;
    for guest in &ran.guests {
        if let Some(calls) = guest.by_callback.get(place) {
            all = all.saturating_add(*calls);
        }
    }
    all
}
