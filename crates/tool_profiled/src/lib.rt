//! Tools beside profiles: in a run each thread's part is a tool and a profile in one.
//!
//! A run has a part for each thread. [`join_all`] joins each of them with a [`Profile`](tool_report::Profile), as a
//! [`Both`](tool_both::Both) of the two. It asks the first part for its registration, and the profile beside it, once each, before
//! the run. So each part is told of the events that the first one has registered, and each profile of all events of the profile.
//! [`part_all`] takes them apart after the run, in their order, and takes no memory.
//!
//! A tool is asked before it is known what is said of it. So what is joined holds an [`Asked`] part: it stands for a record with a mark,
//! which is the first start of the record. Where the mark's answer is 0, nothing is said of the part, and else the part stands for the
//! record without the mark. A [`Both`](tool_both::Both) stands for a record only where each of its tools stands for one: with the first
//! mark that is so for any tool, and what a run has counted holds whatever the tools stand for.
//!
//! Proved by the contracts:
//!
//! - [`Asked`] hands each call on to the part that it holds, and stands for what that part stands for: `AskedFor` of `specs/Asking.antt`;
//! - [`join_all`] asks the first part and the first profile once, and gives a list in which part t is joined with a profile that was told
//!   nothing: `AreJoined` of `specs/Joining.antt`. There is room then for as many parts and profiles;
//! - [`part_all`] gives these very parts and profiles, in their order.
//!
//! `specs/Hearing.antt` says what a tool has heard beside a profile, `HasHeard`: exactly the events of its mask, each with stores of its
//! own. That it is so after a run, that a profile has counted all events of its thread, that nothing is stored where the tool stores nothing,
//! and what the run has registered is proved in `proofs/Hearing.antt`, for those who prove a run.
//!
//! That memory is found where it is there isn't said by a clause. The must-fail edits try wrong bodies.
#![tactic(auto)]

mod asked;
mod joining;
mod parting;

pub use asked::Asked;
pub use joining::{Joined, Profiled, join_all};
pub use parting::{Parted, part_all};
