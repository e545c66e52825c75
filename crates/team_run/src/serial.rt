//! The serial run: threads take turns round and round, each a whole turn with its callback.

ghost use Rattle.std.specs.Prelude.{◌≡◌, IfOk, length, true};
ghost use Rattle.team_run.specs.Program.{IsRanOf};

use crate::edges::{finalize_first, initialize_first};
use crate::ran::{Memory, Ran};
use crate::serial_run::SerialRun;
use c_check::Program;
use omp_machine::Limits;
use omp_model::Cause;
use std::alloc::{AllocError, Global};
use step_book::{Book, Closed};
use tool_api::ToolPart;

/// Runs the program serially. What the parts are called for, and what no clause says, stands at [`Ran`].
///
/// Where the cause is `Memory` the history stops between two turns, or after the Go of an event whose thread's part found none.
pub fn run_serial<P: ToolPart>(
    alloc: Global,
    program: Program,
    limits: Limits,
    mut parts: Vec<P>,
) -> Result<Ran<P>, Memory>
    requires { length parts.items ≡ limits.threads }
    ensures ran { IfOk result (IsRanOf P.stands_for P.same true program limits.threads limits.steps parts.items) }
{
    let start = initialize_first(&mut parts);
    let book = Book::start(alloc, program, start.mask, limits)?;
    let mut run = SerialRun {
        book,
        parts,
        next: 0,
    };
    let cause = run.finish();
    if cause == Cause::Memory && run.book.entries().is_empty() {
        return Err(AllocError);
    }
    finalize_first(start, &mut run.parts);
    let Closed { history, text, .. } = run.book.close();
    Ok(Ran {
        cause,
        mask: start.mask,
        history,
        text,
        parts: run.parts,
    })
}
