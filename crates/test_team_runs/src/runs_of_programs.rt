//! Runs of programs whose parts hear all events, and one without a tool. They show what no clause says: that a run finds memory, and comes
//! to its end.

use crate::fixture::run_with;
use crate::parts::{Keeping, run_on_one, run_on_two};
use omp_model::Cause;
use std::process::Abort;
use team_run::Memory;
use tool_api::Quiet;

/// A program, on how many threads it runs, one or two, and what it is to come to: the cause, what it prints, and how many events are told.
struct Run {
    text: &'static [u8],
    threads: u8,
    cause: Cause,
    printed: &'static [u8],
    told: usize,
}

/// Counted by hand: the four events of the initial thread and task, and what stands between them.
const RUNS: &[Run] = &[
    Run {
        text: b"int main(void) { return 0; }\n",
        threads: 1,
        cause: Cause::Done,
        printed: b"",
        told: 4,
    },
    Run {
        text: b"#include <stdio.h>\nint main(void) { printf(\"%d\\n\", 6 * 7); return 3; }\n",
        threads: 1,
        cause: Cause::Returned(3),
        printed: b"42\n",
        told: 4,
    },
    // The region's begin and end, the worker's two, and six of each member.
    Run {
        text: b"int main(void) {\n#pragma omp parallel num_threads(2)\n;\nreturn 0;\n}\n",
        threads: 2,
        cause: Cause::Done,
        printed: b"",
        told: 20,
    },
    // A lock is initialised, asked for, acquired, and asked for again.
    Run {
        text: b"#include <omp.h>\nomp_lock_t l;\nint main(void) {\n\
            omp_init_lock(&l);\nomp_set_lock(&l);\nomp_set_lock(&l);\nreturn 0;\n}\n",
        threads: 1,
        cause: Cause::Deadlock,
        printed: b"",
        told: 6,
    },
    // A task is created, begins and ends.
    Run {
        text: b"int main(void) {\n#pragma omp task\n;\nreturn 0;\n}\n",
        threads: 1,
        cause: Cause::Done,
        printed: b"",
        told: 7,
    },
];

/// Each run comes to its end, and finds memory on the way.
#[test]
fn runs_come_to_their_ends(rt: HostRuntime) -> Result<(), Memory> {
    for run in RUNS {
        comes_to_its_end(&rt, run)?;
    }
    Ok(())
}

fn comes_to_its_end<R: Abort + AllocGlobal>(rt: &R, run: &Run) -> Result<(), Memory> {
    let ran = if run.threads == 2 {
        run_on_two(rt.alloc(), run.text)?
    } else {
        run_on_one(rt.alloc(), run.text)?
    };
    assert!(rt; ran.cause == run.cause);
    assert!(rt; ran.text.as_slice() == run.printed);
    assert_eq!(rt; count_told(&ran.parts), run.told);
    Ok(())
}

/// How many events the parts were told.
fn count_told(parts: &[Keeping]) -> usize {
    let mut told = 0_usize;
    for part in parts {
        told = told.saturating_add(part.heard.len());
    }
    told
}

/// A run without a tool, of a program that prints: why it ends, what it printed, and its entries, a Go and a Back for each event.
#[test]
fn a_run_without_a_tool_prints(rt: HostRuntime) -> Result<(), Memory> {
    let text = b"#include <stdio.h>\nint main(void) { printf(\"%d\\n\", 6 * 7); return 3; }\n";
    let parts = Vec::from_array(rt.alloc(), [Quiet])?;
    let ran = run_with(rt.alloc(), text, parts)?;
    assert!(rt; ran.cause == Cause::Returned(3));
    assert!(rt; ran.text.as_slice() == b"42\n".as_slice());
    assert_eq!(rt; ran.history.as_slice().len(), 8);
    Ok(())
}
