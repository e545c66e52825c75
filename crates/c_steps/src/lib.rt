//! What one task of a program does between events: an interpreter that is proved equal to the definitions of `c_model`.
//!
//! A [`Code`] is a checked program that is made ready to run. [`Cells`] are what all tasks of a run share: numbers by cell, and the bytes
//! that were printed. A [`Control`] is what is left of one task's code. Contracts see it as a `ControlView` (`specs/ControlView.antt`):
//! frames, which are nodes of the tree with how far they have come, names with their cells, and room. `task_at` there says which task of
//! the definitions that is.
//!
//! - [`Control::try_steps`] makes silent steps of C's own statements, as many as it can up to a count.
//! - [`Control::advance`] makes one silent step, or says what stands next: a question, an event, the end, a trap or a limit ([`Next`]).
//! - [`Control::give`] goes on after an answer, and [`Control::passed`] behind an event.
//! - [`Control::stands`] tells whether an event or the end stands next.
//! - [`Control::upcoming`] tells what comes next as far as its form does, [`Control::upcoming_at_once`] the same where what stands first
//!   tells it by itself, and [`Control::is_in_work`], [`Control::is_in_exclusive`] and [`Control::is_in_critical`] in which regions of
//!   constructs the task is.
//! - [`Control::value`] is the number of an expression where the code stands, and [`Control::returned`] what the last call gave.
//! - [`Control::asked_count`] and [`Control::asked_sections`] tell how much there is of the work that asks.
//! - [`Control::main`], [`Control::member`] and [`Control::task`] are how the code of each kind of task begins. [`Control::blank`] and
//!   [`Control::clear`] have no code, and [`Control::reserve`] makes room.
//!
//! Each answers, and leaves control and cells, as the definition of the same name has it. Only what makes a new value and `reserve` take
//! memory; where they find none, nothing has changed.
//!
//! The modules: `code` with `file`, `functions`, `slots`, `widths`, and `node`, a node of it; `parts`, `clauses`, `listed` and `loops`,
//! which read the tree; `scope` and `in_scope`, what an expression is evaluated in; `evaluate` with `numbers`, the numbers of expressions,
//! and `printing`; `stack` and `cells`, which have room, as the names in scope have by `kept_room`; `item`, `frame` and `look`, what stands
//! next; `copies`, a construct's own cells; and `control`, with a file for each family of forms, `around` for the regions that a task is in,
//! and `upcoming` for what comes next. In `specs/` `Items`, `ControlView`, `OfProgram`, `Passing` and `Advancing` are what contracts of
//! public calls cite; the others serve those of private ones.
//!
//! Nothing is claimed of the time of a step. That the cells are those that the control's names have is the caller's to see to.
#![tactic(auto)]

mod cells;
mod chains;
mod clauses;
mod code;
mod control;
mod copies;
mod evaluate;
mod file;
mod frame;
mod functions;
mod in_scope;
mod item;
mod listed;
mod look;
mod loops;
mod next;
mod node;
mod numbers;
mod parts;
mod printing;
mod scope;
mod slots;
mod stack;
mod widths;

pub use cells::Cells;
pub use code::Code;
pub use control::Control;
pub use next::Next;
