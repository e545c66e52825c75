//! A run doesn't depend on how the nodes of its program's tree are numbered.
//!
//! A program is seen as its trees by their numbers, the number of the whole, the place where its text ends, and the name `main`
//! (`c_syntax`). A text fixes the tree of the whole, the place and the name, and leaves the numbers open.
//!
//! Proved, as a law of the definitions: [`numbers_are_free`].
//!
//! The crate has no code that runs.
#![tactic(auto)]

mod laws;

pub use laws::numbers_are_free;
