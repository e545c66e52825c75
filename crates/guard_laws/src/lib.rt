//! What the guards in the definitions of a run leave out never comes up.
//!
//! The definitions of a run answer in each state, also in states that no run comes to. A region may end there where none was forked, and a member
//! may begin where there is no code for it. A team may deal what doesn't fit the loop or sections that ask. Here these cases are shown to be none of a run of
//! 1 to 16 threads of a program that breaks no rule and whose tree has the shape of one that a text spells, whichever callbacks are registered.
//!
//! Proved, as laws of the definitions:
//!
//! - [`region_ends_name_regions`]: the end of a parallel region names a region that was forked, and its encountering task is the thread's current one;
//! - [`members_have_code`]: where a member begins, the end of its region stands next in the code of the task that has forked the region, and the
//!   member has the code that this one has for it;
//! - [`deals_fit_the_asker`]: where a silent step asks for a chunk or a section, it is answered what the team deals, of which nothing is left out.
//!
//! The last one stands on what is so of each state of such a run (`proofs/WorksMet.antt`). The worksharing construct that a task has open is what
//! its member has met last in its team, with as many iterations or sections.
//!
//! The crate has no code that runs.
#![tactic(auto)]

mod laws;

pub use laws::{deals_fit_the_asker, members_have_code, region_ends_name_regions};
