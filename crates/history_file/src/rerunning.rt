//! Whether a file is a certificate of a program: its history is taken through the machine, entry by entry.

ghost use Rattle.std.specs.Prelude.{IfOk};
ghost use Rattle.history_file.specs.Certificates.{run_of_file};
ghost use Rattle.history_file.specs.Validity.{IsHistoryFile};
ghost use Rattle.history_file.specs.Verdicts.{IsVerdict};

use crate::file::HistoryFile;
use crate::progress::Progress;
use crate::verdict::Verdict;
use c_check::Program;
use omp_machine::Memory;
use std::alloc::Global;

/// Whether the file is a certificate of the program, with the calls that are heard of its history; or how many of its first entries are legal
/// together, where it is none. A legal history that ends in another cause than the file's, or in none, is legal at its whole length.
///
/// The error is that no memory is left.
pub fn rerun(alloc: Global, program: Program, file: &HistoryFile) -> Result<Verdict, Memory>
    requires { IsHistoryFile file.now }
    ensures { IfOk result (IsVerdict (run_of_file program file.now) file.now) }
{
    let mut progress = Progress::start(alloc, program, file)?;
    progress.judge(alloc, file)
}
