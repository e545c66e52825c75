//! Programs that are generated, and the summary of a run of one.

ghost use Rattle.std.specs.Prelude.{◌≡◌, ◌+◌, IfOk};
ghost use Rattle.tool_report.specs.Counts.{count_of};
ghost use Rattle.tool_report.specs.Generator.{generated, summary_of, block, text_of_lines};

use crate::merging::Memory;
use omp_codes::callbacks::{PARALLEL_BEGIN, TASK_CREATE};
use ompt_calls::EventRecord;
use std::alloc::Global;

/// What a program begins with.
const HEAD: &str = "#include <stdio.h>\nint s;\nint main(void) {\nint i;\n";

/// What a program ends with.
const TAIL: &str = "printf(\"%d\\n\", s);\nreturn 0;\n}\n";

/// A reduced sum by a loop of a team.
const LOOP_BLOCK: &str =
    "#pragma omp parallel for reduction(+:s) schedule(dynamic,2)\nfor (i = 0; i < 8; i++) s += i;\n";

/// Four tasks of one member.
const TASK_BLOCK: &str =
    "#pragma omp parallel\n#pragma omp single\nfor (i = 0; i < 4; i++) {\n#pragma omp task\n{\n#pragma omp critical\ns = s + 1;\n}\n}\n";

/// Two sections.
const SECTION_BLOCK: &str =
    "#pragma omp parallel sections\n{\n#pragma omp section\n{\n#pragma omp critical\ns += 10;\n}\n\
    #pragma omp section\n{\n#pragma omp critical\ns += 20;\n}\n}\n";

/// Arithmetic.
const SUM_BLOCK: &str = "s = s * 3 % 10007;\n";

/// The program with so many blocks: a loop of a team, tasks, sections and arithmetic by turns.
pub fn generated_text(alloc: Global, blocks: u16) -> Result<Vec<u8>, Memory>
    ensures { IfOk result (λ text. text.items ≡ generated blocks) }
{
    let mut text = Vec::new(alloc);
    text.extend_from_slice(HEAD.as_bytes())?;
    for number in 0..blocks {
        text.extend_from_slice(block_after(number).as_bytes())?;
    }
    text.extend_from_slice(TAIL.as_bytes())?;
    Ok(text)
}

/// The block that stands behind so many.
fn block_after(number: u16) -> &'static str
    ensures { result.now ≡ text_of_lines (block (number + 1)) }
{
    match number % 4 {
        0 => LOOP_BLOCK,
        1 => TASK_BLOCK,
        2 => SECTION_BLOCK,
        _ => SUM_BLOCK,
    }
}

/// The summary of a run of this program, which had these events and printed this text: the program's length in bytes, how many events,
/// parallel regions and tasks there were, and what was printed.
pub fn summary_text(
    alloc: Global,
    program: &[u8],
    events: &[EventRecord],
    printed: &[u8],
) -> Result<Vec<u8>, Memory>
    ensures { IfOk result (λ text. text.items ≡ summary_of program.now events.now printed.now) }
{
    let bytes = program.len();
    let records = events.len();
    let regions = count_of(PARALLEL_BEGIN, events);
    let tasks = count_of(TASK_CREATE, events);
    let counts = format!(in alloc;
        "bytes {bytes}\nrecords {records}\nregions {regions}\ntasks {tasks}\n"
    )?;
    let mut text = counts.into_bytes();
    text.extend_from_slice(printed)?;
    Ok(text)
}

/// How many of these are calls of the callback with this number.
fn count_of(number: u32, events: &[EventRecord]) -> usize
    ensures { result ≡ count_of number events.now }
{
    events
        .iter()
        .filter(|event| event.call.number() == number)
        .count()
}
