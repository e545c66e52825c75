//! OMPT's numbers, as literals.
//!
//! Definitions, contracts and code cite the numbers of callbacks and enumerations by the names that `omp_codes` gives them. So a name with a wrong
//! number would be the same wrong number everywhere, and no other contract would show it. Here each but those of the callbacks is compared
//! with the number that stands in OpenMP 5.2, 19.4. Those of the callbacks are compared beside them, in `omp_codes::callbacks`.
//!
//! Proved, as laws of the constants:
//!
//! - [`states_have_their_numbers`]: the states of a thread;
//! - [`flags_have_their_bits`]: the flags of regions and tasks;
//! - [`kinds_have_their_numbers`]: ends of a scope, kinds of threads, work, synchronization, mutexes and dispatch, statuses of tasks;
//! - [`answers_have_their_numbers`]: what a registration is answered.
//!
//! The crate has no code that runs.
#![tactic(auto)]

mod laws;

pub use laws::{
    answers_have_their_numbers, flags_have_their_bits, kinds_have_their_numbers,
    states_have_their_numbers,
};
