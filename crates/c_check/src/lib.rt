//! The rules of programs beyond the grammar, and how constructs see variables.
//!
//! [`check`] answers the program of a tree that breaks no rule, or the fault of the tree: the first by its place in the text, and of
//! those at one place the one with the least number ([`CheckFault`]). A [`Program`] has the tree, a slot for each name that is
//! declared, the sharing of each variable for each construct ([`Sharing`]), the variables that a task copies by rule, the numbers of
//! criticals, and the parts of a loop that is shared out ([`SharedLoop`]).
//!
//! The definitions that are to be believed, over the tree alone, in the order in which they build on one another:
//!
//! - `specs/Acts.antt`: what a tree does with names, scopes and constructs, in the order of its text: its acts. It stands on
//!   `NameLists.antt`, `Printed.antt`, `Usages.antt`, `Clauses.antt` and `Statements.antt`, and on `Loops.antt` for the variable of a loop
//!   and the form of one that a `for` directive can share out;
//! - `specs/Declarations.antt`, `specs/Constructs.antt` and `specs/Here.antt`: where a program stands after some acts. `Nearest.antt`
//!   says without a search which declaration a name finds, and [`nearest_declaration`] that it is so;
//! - `specs/Shares.antt`: how a construct sees a variable, and which tasks around a use have a copy by rule, by the constructs around;
//! - `specs/Rules.antt`: for each rule, the places at which an act breaks it where a program stands. `Cells.antt` counts the cells of a
//!   file;
//! - `specs/Checked.antt`: what it is to break a rule, that none is broken, and the fault of a program, with `Faults.antt` for numbers,
//!   places and which of two faults comes first, and `First.antt` for what [`first_fault`] says of it;
//! - `specs/Seen.antt` and `specs/LoopParts.antt`: what a program is asked. `Once.antt` has numbers that count once.
//!
//! All other files there serve the code and the proofs alone: how the code keeps declarations (`Visible`), constructs (`Around`, `Spots`),
//! slots, copies and criticals (`Slots`, `Copies`, `Criticals`, `Pairs`), what a walk has left to do (`Tasks`, `Weights`, `Steps`), what
//! a checker stands for (`Standing`, `Under`, `Ended`), and nodes in place of trees (`SharedLoops`).
//!
//! Proved:
//!
//! - [`check`] answers `Ok` only for a tree that breaks no rule, and each fault but want of memory is the tree's. So the answer is
//!   determined but for want of memory, which may be answered at any time;
//! - the fault of a tree is one that it has, none that it has comes before it, and there is none exactly where no rule is broken, by
//!   [`first_fault`];
//! - after any acts a name is that of the nearest enclosing declaration before it, by [`nearest_declaration`];
//! - [`Program::slot`], [`Program::sharing`], [`Program::task_copies`], [`Program::critical_number`], [`Program::critical_count`] and
//!   [`Program::shared_loop`] answer what the definitions have.
//!
//! That the loop of each `for` construct of a checked program has parts is a law of `c_model`. Which sentences of `docs/rules.md` the definitions
//! stand for is to be read. The time and the memory are no clauses.
#![tactic(auto)]

mod acts;
mod constructs;
mod fault;
mod laws;
mod program;
mod rules;
mod scopes;
mod sharing;

pub use acts::loop_parts::SharedLoop;
pub use fault::CheckFault;
pub use laws::{first_fault, nearest_declaration};
pub use program::Program;
pub use rules::checking::check;
pub use sharing::Sharing;
