//! Which slots the names in a task's scope have, and so that all that a task's code uses is there.
//!
//! The checker gives each declaration of a text a slot, and says of each task construct which variables the task copies by rule, by their
//! slots. `c_model` looks these up in the scope of the task that creates it. Here stands why they are found there: in a task's scope are the
//! slots of all variables that the checker has in scope where the task's code stands in the text.
//!
//! - `OwnPlaces`: that no two names that are declared or used, and no two constructs, stand at one place;
//! - `Slotted`: where the statements that a task has left stand in the text, and that the slots in scope there are in the task's scope;
//! - `CodesOfRun`: what the tasks of a run come to, and what it is that all that a task uses is there.
//!
//! Proved, by the contract of the function that is named:
//!
//! - in a text each name and each construct has its own place ([`each_name_and_construct_has_its_own_place`]);
//! - each task has the slots in scope: main, members of teams and explicit tasks, from where they begin, and behind each silent step, answer
//!   and event ([`each_task_has_the_slots_in_scope`]);
//! - so what an explicit task copies by rule is in the scope of the task that creates it ([`copies_are_in_scope`]), and each cell that the
//!   explicit task uses was made ([`each_cell_of_an_explicit_task_was_made`]);
//! - whatever a task of a text that breaks no rule comes to, its names are in scope and its cells were made
//!   ([`all_that_a_task_uses_is_there`]).
//!
//! A copy of a variable has the slot of the variable, so a scope may have a slot more than once: the last one counts. What is proved is that
//! there is one; that it is the nearest is for the reader of `c_model` to see. The crate has no code that runs.
#![tactic(auto)]

mod laws;

pub use laws::{
    all_that_a_task_uses_is_there, copies_are_in_scope, each_cell_of_an_explicit_task_was_made,
    each_name_and_construct_has_its_own_place, each_task_has_the_slots_in_scope,
};
