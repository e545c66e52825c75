//! Rows: a program, and the lines of its run, which were written by hand. Only runs show which lines are written.

use crate::inquirer::Inquirer;
use crate::lines::Lines;
use crate::storing::Storing;
use ompt_cli::top_alone;
use run_edges::{MemSink, MemSource, Memory};
use std::alloc::Global;
use std::sync::{Arc, Mutex};
use std::test::Fail;
use tool_api::GuestTool;

/// A program, and the lines of its run.
#[derive(Clone, Copy)]
struct Row {
    program: &'static str,
    lines: &'static str,
}

/// A region in a region: tasks of both stand on one stack.
const NESTED_REGION: Row = Row {
    program: "int main(void) {
#pragma omp parallel num_threads(1)
#pragma omp parallel
;
return 0;
}
",
    lines: "0 0 257 0
2 0 0 0 task 1 1:0 0/0 1:0 0 region 1:0 1
4 0 257 0 task 1 1:0 0/32769 1:0 0 region 1:0 1
6 0 1 0 task 2 2:0 2/0 2:0 0 task 1 1:0 0/32769 1:0 0 region 2:0 1 region 1:0 1
8 0 257 0 task 2 2:0 2/32770 2:0 0 task 1 1:0 0/32769 1:0 0 region 2:0 1 region 1:0 1
10 0 1 0 task 2 3:0 3/0 3:0 0 task 2 2:0 2/32770 2:0 0 task 1 1:0 0/32769 1:0 0 region 3:0 1 region 2:0 1 region 1:0 1
12 0 257 0 task 2 3:0 3/32771 3:0 0 task 2 2:0 2/32770 2:0 0 task 1 1:0 0/32769 1:0 0 region 3:0 1 region 2:0 1 region 1:0 1
14 0 17 0 task 2 3:0 3/32771 3:0 0 task 2 2:0 2/32770 2:0 0 task 1 1:0 0/32769 1:0 0 region 3:0 1 region 2:0 1 region 1:0 1
16 0 257 0 task 2 3:0 3/32771 3:0 0 task 2 2:0 2/32770 2:0 0 task 1 1:0 0/32769 1:0 0 region 3:0 1 region 2:0 1 region 1:0 1
18 0 257 0 task 2 3:0 3/32771 3:0 0 task 2 2:0 2/32770 2:0 0 task 1 1:0 0/32769 1:0 0 region 3:0 1 region 2:0 1 region 1:0 1
20 0 257 0 task 2 2:0 2/32770 2:0 0 task 1 1:0 0/32769 1:0 0 region 2:0 1 region 1:0 1
22 0 257 0 task 2 2:0 2/32770 2:0 0 task 1 1:0 0/32769 1:0 0 region 2:0 1 region 1:0 1
24 0 257 0 task 2 2:0 2/32770 2:0 0 task 1 1:0 0/32769 1:0 0 region 2:0 1 region 1:0 1
26 0 17 0 task 2 2:0 2/32770 2:0 0 task 1 1:0 0/32769 1:0 0 region 2:0 1 region 1:0 1
28 0 257 0 task 2 2:0 2/32770 2:0 0 task 1 1:0 0/32769 1:0 0 region 2:0 1 region 1:0 1
30 0 257 0 task 2 2:0 2/32770 2:0 0 task 1 1:0 0/32769 1:0 0 region 2:0 1 region 1:0 1
32 0 257 0 task 1 1:0 0/32769 1:0 0 region 1:0 1
34 0 257 0 task 1 1:0 0/32769 1:0 0 region 1:0 1
36 0 257 0
38 0 257 0
",
};

/// A lock is asked for twice. The thread waits for it at 6 and at 10, and no thread can go on.
const LOCK: Row = Row {
    program: "#include <omp.h>
omp_lock_t l;
int main(void) {
  omp_init_lock(&l);
  omp_set_lock(&l);
  omp_set_lock(&l);
  return 0;
}
",
    lines: "0 0 257 0
2 0 0 0 task 1 1:0 0/0 1:0 0 region 1:0 1
4 0 0 0 task 1 1:0 0/32769 1:0 0 region 1:0 1
6 0 65 65536 task 1 1:0 0/32769 1:0 0 region 1:0 1
8 0 0 0 task 1 1:0 0/32769 1:0 0 region 1:0 1
10 0 65 65536 task 1 1:0 0/32769 1:0 0 region 1:0 1
",
};

#[test]
fn lines_are_those_written_by_hand(rt: HostRuntime) -> Result<(), Fail> {
    for row in [NESTED_REGION, LOCK] {
        let lines = Arc::new(rt.alloc(), Mutex::new(Lines::new(rt.alloc())))?;
        let guest = Inquirer::new(rt, rt.alloc(), Arc::try_clone(&lines)?, Storing::Nothing);
        let mut guests: Vec<Box<dyn GuestTool>> = Vec::new(rt.alloc());
        guests.push(Box::new(rt.alloc(), guest)?)?;
        run(rt.alloc(), row.program, guests)?;
        let text = lines.lock(&rt).text(rt.alloc())?;
        assert_eq!(rt; text.as_slice(), row.lines.as_bytes());
    }
    Ok(())
}

/// Runs this program serially by one thread, whose guest is handed in.
fn run(alloc: Global, program: &str, guests: Vec<Box<dyn GuestTool>>) -> Result<(), Memory> {
    let mut words = Vec::new(alloc);
    for word in ["run", "--serial", "--threads", "1"] {
        words.push(String::from_str(alloc, word)?)?;
    }
    let mut source = MemSource::new(program.as_bytes().to_vec(alloc)?, Vec::new(alloc));
    let mut out = MemSink::new(alloc, 100, Vec::new(alloc))?;
    let mut err = MemSink::new(alloc, 100, Vec::new(alloc))?;
    let _ran = top_alone(
        alloc,
        words.as_slice(),
        &mut source,
        &mut out,
        &mut err,
        guests,
    );
    Ok(())
}
