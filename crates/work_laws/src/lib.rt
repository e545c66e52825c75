//! Each iteration of a loop is told once, and each section of a sections construct.
//!
//! The members of a team share a loop's iterations: each takes chunks, and each chunk that it takes is told by an event,
//! dispatch. `team_parts` has what a team deals. Here it is shown of whole runs, of a program that breaks no rule and with 1
//! to 16 threads: what the events of a history tell is what the team has dealt. That is so whatever the program's code does
//! between, and whichever callbacks are registered.
//!
//! - `specs/Told.antt` goes over a history and has what its events tell of one meeting of one team: the chunks, the
//!   sections, and whose work has ended;
//! - `specs/Sections.antt` has a construct's sections by their places, and what it is that constructs have places of their
//!   own.
//!
//! Proved, as laws of the definitions. The program breaks no rule and has the form of a tree of a text. In the laws that speak
//! of a run it has 1 to 16 threads:
//!
//! - [`each_iteration_once_in_a_run`]: where each member of the team has ended a loop, each of its iterations is in exactly
//!   one of the chunks that were told, and no chunk has anything else. Where each has ended a sections construct, as many
//!   sections were told as it has;
//! - [`each_section_once_in_a_run`]: where each member has ended a sections construct, and where no two constructs of the
//!   program have one place, its sections were told, each once, in the order of the text;
//! - [`each_construct_has_its_own_place`]: in a program whose text has at most 65,536 bytes no two constructs have one place;
//! - [`sections_are_told_in_order`]: with n sections told of the construct, the next that is dealt is the one with number n,
//!   counted from 0, as long as there is one;
//! - [`chunks_have_a_size`]: a loop's iterations are dealt by its schedule as it is written. The definitions raise a size
//!   of 0 of a dynamic or guided loop, and no loop has that.
//!
//! What is so of each state is in `proofs/Shares.antt`, `Tells`. Members have asked in some order, and what they were dealt
//! is what was told. Code that asks for a section is in the construct that its member met last. A member whose code has come
//! to the end of a loop or of sections is dealt nothing more there.
//!
//! A share that a silent step takes is told in the same turn (`proofs/Turns.antt`). What is so of each item of a task's code,
//! and stays so, is in `proofs/Items.antt` and `ItemSteps.antt`. It stands there for whatever is asked of statements and
//! constructs. In whole runs it is in `proofs/CodeRuns.antt`.
//!
//! The crate has no code that runs.
#![tactic(auto)]

mod laws;

pub use laws::{
    chunks_have_a_size, each_construct_has_its_own_place, each_iteration_once_in_a_run,
    each_section_once_in_a_run, sections_are_told_in_order,
};
