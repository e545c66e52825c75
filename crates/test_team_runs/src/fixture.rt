//! A text and its program, runs of programs, and words and an answer that several tests have.

ghost use Rattle.std.specs.Prelude.{◌≤◌, length};

use c_check::{Program, check};
use c_syntax::read_program;
use c_tokens::tokens;
use ompt_calls::Word;
use std::alloc::{AllocError, Global};
use team_run::{Limits, Memory, Ran, run_serial};
use tool_api::ToolPart;

/// A region of two.
pub(crate) const REGION_OF_TWO: &[u8] = b"int main(void) {
#pragma omp parallel num_threads(2)
{ }
return 0;
}
";

pub(crate) const ONE: Word = Word {
    identity: 1,
    value: 0,
};

pub(crate) const TWO: Word = Word {
    identity: 2,
    value: 0,
};

/// The most bytes of a text.
const TEXT_LIMIT: usize = 65_536;

/// The program of a text that has no fault. A fault is told as want of memory.
pub(crate) fn program_of(alloc: Global, text: &[u8]) -> Result<Program, Memory> {
    if text.len() > TEXT_LIMIT {
        return Err(AllocError);
    }
    let found = match tokens(alloc, text) {
        Ok(found) => found,
        Err(_) => return Err(AllocError),
    };
    let tree = match read_program(alloc, text, &found) {
        Ok(tree) => tree,
        Err(_) => return Err(AllocError),
    };
    match check(alloc, tree) {
        Ok(program) => Ok(program),
        Err(_) => Err(AllocError),
    }
}

/// A serial run of the text's program, with a thread for each part.
pub(crate) fn run_with<P: ToolPart>(
    alloc: Global,
    text: &[u8],
    parts: Vec<P>,
) -> Result<Ran<P>, Memory>
    requires some { 1 ≤ length parts.items }
    requires few { length parts.items ≤ 16 }
{
    let program = program_of(alloc, text)?;
    let limits = Limits {
        threads: parts.len() as u8,
        steps: 1_000_000,
    };
    run_serial(alloc, program, limits, parts)
}
