//! Programs that are generated, against one that is written out by hand, and the summary of a run.

use crate::fixture::{ONE, program_of};
use ompt_calls::{Call, EventRecord, Frame};
use std::test::Fail;
use tool_report::{Memory, generated_text, summary_text};

/// The program with four blocks.
const FOUR_BLOCKS: &[u8] = b"#include <stdio.h>
int s;
int main(void) {
int i;
#pragma omp parallel for reduction(+:s) schedule(dynamic,2)
for (i = 0; i < 8; i++) s += i;
#pragma omp parallel
#pragma omp single
for (i = 0; i < 4; i++) {
#pragma omp task
{
#pragma omp critical
s = s + 1;
}
}
#pragma omp parallel sections
{
#pragma omp section
{
#pragma omp critical
s += 10;
}
#pragma omp section
{
#pragma omp critical
s += 20;
}
}
s = s * 3 % 10007;
printf(\"%d\\n\", s);
return 0;
}
";

#[test]
fn four_blocks_are_generated(rt: HostRuntime) -> Result<(), Memory> {
    let text = generated_text(rt.alloc(), 4)?;
    assert!(rt; text.as_slice() == FOUR_BLOCKS);
    Ok(())
}

/// How many blocks a program has, and how long it is.
const LENGTHS: [(u16, usize); 6] = [
    (1, 173),
    (2, 294),
    (3, 436),
    (4, 455),
    (40, 3_821),
    (400, 37_481),
];

/// Each generated text is read, and breaks no rule.
#[test]
fn generated_texts_are_programs(rt: HostRuntime) -> Result<(), Memory> {
    for (blocks, length) in LENGTHS {
        let text = generated_text(rt.alloc(), blocks)?;
        assert!(rt; text.len() == length, "of {blocks}");
        let _program = program_of(rt.alloc(), &text)?;
    }
    Ok(())
}

/// A record of this call.
fn record_of(seq: u32, call: Call) -> EventRecord {
    EventRecord {
        seq,
        thread: 0,
        state: 0x101,
        wait_id: 0,
        call,
    }
}

/// The summary of a program of eleven bytes, which had three events, a region among them, and printed a number.
#[test]
fn a_summary_has_five_lines(rt: HostRuntime) -> Result<(), Memory> {
    let ends = Call::ParallelEnd {
        region: ONE,
        task: ONE,
        flags: 0x8000_0001,
        codeptr: 1,
    };
    let begins = Call::ParallelBegin {
        task: ONE,
        frame: Frame { exit: 0, enter: 0 },
        region: ONE,
        requested: 1,
        flags: 0x8000_0001,
        codeptr: 1,
    };
    let events = [
        record_of(0, Call::ThreadEnd { thread: ONE }),
        record_of(2, begins),
        record_of(4, ends),
    ];
    let text = summary_text(rt.alloc(), b"int main(){", &events, b"7\n")?;
    assert!(rt; text.as_slice() == b"bytes 11\nrecords 3\nregions 1\ntasks 0\n7\n".as_slice());
    Ok(())
}
