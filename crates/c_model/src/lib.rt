//! What one task of a program does between events, as definitions.
//!
//! `specs/` says it over the tree of a program, plain lists and numbers:
//!
//! - `Parts`, `Clauses`, `Loops`: the parts of trees, of directives, and of the loops that they share out;
//! - `Program`: the functions and variables of a program;
//! - `Cells`: names with their cells, and the cells that a declaration makes;
//! - `Value`: the number of an expression, or its trap;
//! - `Text`: what a `printf` prints;
//! - `Task`: what is left of a task's code, and what one step of it can come to;
//! - `Copies`: the cells that a construct makes of its own;
//! - `StepOutcomes`: what a step comes to, in the words of the forms;
//! - `Statements`, `Calls`, `Constructs`: one definition for each form of statement and each stage of a construct;
//! - `Step`: what a task does next: one line for each form;
//! - `NextIsEvent`: which outcomes there are where an event or the end stands next;
//! - `Upcoming`: what comes next by its form, and which regions are open;
//! - `TrapsAndLimits`: the traps and limits that a task's code can come to;
//! - `Answers`: which answers are given to what a task asks, and `Asked`: how much there is of the work that asks;
//! - `AfterEvents`: how it goes on after an answer or an event;
//! - `Begin`: how the code of main, of a member of a team and of an explicit task begins;
//! - `Occurring`: of which item an event or a question is;
//! - `Width`: how many names a task ever has in scope;
//! - `Scoped`: that the names and functions that a task's code uses are in scope, and `UsedCells`: that the cells that it uses were made;
//! - `Formed`: which forms the nodes of a program's tree have.
//!
//! `docs/statements.md` tells the same in a page. `src/` has the types and numbers that the definitions share with the code. Nothing
//! here runs a program: the interpreter, `c_steps`, is proved equal to `silent`, `after_answer` and `after_event`.
//!
//! The definitions are total. A child that is missing is an empty program, a name that nothing declares reads as 0, traps with an
//! index and can't be set, a function that there isn't has an empty body, a cell that wasn't made reads as 0, a form that can't stand where it
//! stands is an empty statement, as a declarator that no block has. In a program that breaks no rule no task uses a name, a function or a cell that
//! there isn't, and the nodes of its tree have the forms of `Formed`: the laws below say it. The law on
//! cells takes what an explicit task copies by rule to be in scope where it is created; of the texts that spell such programs `c_slots`
//! proves that it is. An answer to what wasn't asked changes nothing; `Answers` says which answers are given.
//!
//! Proved, by the contract of the function that is named:
//!
//! - whether an event or the end stands next, or else a silent step or a question, is told by the form of what stands next alone
//!   ([`standing_is_told_by_form`]);
//! - a task comes to the same whether or not it has left out what it goes past, goes on the same and creates the same task
//!   ([`settling_changes_nothing`]);
//! - an answer to what stands next is of the kind that its step asks for ([`answers_are_asked_for`]);
//! - a task for which nothing is left has ended ([`ended_code_has_no_step`]);
//! - a task's code traps with 1, 2 or 3, and meets the limits 3, 6 and 7 ([`traps_and_limits_are_known`]);
//! - an event is of the item that stands next, and stands at its construct, directive or call ([`events_are_of_what_stands_next`]);
//! - what is asked, the item that stands next asks, in its construct or call ([`questions_are_of_what_stands_next`]);
//! - no task of a program ever has more names in scope than the program's width, and no call that is open has when it goes on
//!   ([`no_environment_grows_past_the_width`]);
//! - the nodes of the tree that words spell have the forms of `Formed` ([`spelled_trees_are_formed`]);
//! - no task of a program that breaks no rule uses a name that isn't in scope, or calls what is no function of the file with so many
//!   parameters ([`no_task_uses_an_unknown_name`]), and a name in scope has its entry ([`names_in_scope_are_found`]);
//! - each cell that a task uses was made ([`each_cell_that_a_task_uses_was_made`], [`cells_in_scope_are_made`]).
//!
//! In `proofs/` programs and expressions are computed: `Values` at the edges of numbers, arrays and loops, `Examples` with a loop, a recursion
//! and a loop that is shared out, `Hiding` with a loop whose variable has the name of one that it reduces, `Waiting` with locks, `single`,
//! `barrier`, `masked` and sections, `Criticals` with criticals, and `Tasks` with explicit tasks. `WidthExamples`
//! has the widths of some of them, and `ScopedExamples` their forms, and that one of them breaks no rule and so knows its names.
//! That the definitions are C's and OpenMP's is for their reader to judge.
#![tactic(auto)]

mod entry;
mod laws;
mod limits;
mod point;
mod question;
mod traps;
mod upcoming;
mod view;

pub use entry::Entry;
pub use laws::{
    answers_are_asked_for, cells_in_scope_are_made, each_cell_that_a_task_uses_was_made,
    ended_code_has_no_step, events_are_of_what_stands_next, names_in_scope_are_found,
    no_environment_grows_past_the_width, no_task_uses_an_unknown_name,
    questions_are_of_what_stands_next, settling_changes_nothing, spelled_trees_are_formed,
    standing_is_told_by_form, traps_and_limits_are_known,
};
pub use limits::{CALL_LIMIT, CALLS, CELL_LIMIT, CELLS, LINE_UNIT, LOCK_UNIT, TEXT, TEXT_LIMIT};
pub use point::{MutexKind, Point, Schedule, SyncKind, SyncStage, Target, Work, WorkKind};
pub use question::{Answer, Ask};
pub use traps::{INDEX, OVERFLOW, ZERO_DIVIDE};
pub use upcoming::Upcoming;
pub use view::View;
