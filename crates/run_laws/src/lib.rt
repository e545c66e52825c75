//! What follows from the definitions of a run, in the rules' own words.
//!
//! Proved, as laws of the definitions:
//!
//! - [`histories_are_bounded`]: a legal history has at most 524,288 turns and 2,621,440 entries;
//! - [`replies_fix_a_serial_run`]: a serial run is a function of what its tools store. Two serial histories to the end in which the same is
//!   stored after each turn, and so within each callback, are the same;
//! - [`answers_make_one_serial_run`]: for given stores after each event, as for given replies of the tools, there is one serial history to the
//!   end, and it ends in a cause;
//! - [`ended_serial_runs_are_whole`]: a serial history that ends in a cause is one to the end;
//! - [`words_are_last_stored`]: after a legal history the data word of each thread, region and task is the last one that was put there, or 0.
//!
//! The crate has no code that runs.
#![tactic(auto)]

mod laws;

pub use laws::{
    answers_make_one_serial_run, ended_serial_runs_are_whole, histories_are_bounded,
    replies_fix_a_serial_run, words_are_last_stored,
};
