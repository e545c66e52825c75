//! Recorded traces are nested: what a run with all callbacks of the profile is recorded as breaks no rule of the trace checker.
//!
//! One relation between the machine's state and the events so far is kept by each entry of a history, in parts (`proofs/Known.antt`): what each event
//! tells of threads, brackets, identities, regions, locks, tasks and barriers is what the state has. Under it each event keeps the rules of
//! `trace_check`, and where main returned nothing is open at the end.
//!
//! Proved, as a law of the definitions: [`runs_are_nested`].
//!
//! The crate has no code that runs.
#![tactic(auto)]

mod laws;

pub use laws::runs_are_nested;
