//! How many rows of a table there were, and how many of them differ from what was wanted.
//!
//! The programs that read tables, `test_texts`, `test_commands` and `test_task_trees`, count their rows with a [`Tally`], and end with its printed
//! line. Its clauses say that each row is counted, and each row that differs. Why a line of `test_commands` or `test_task_trees` can't be read is
//! a [`RowFault`].
#![tactic(auto)]

mod row_fault;
mod tally;

pub use row_fault::RowFault;
pub use tally::{Tally, Verdict};
