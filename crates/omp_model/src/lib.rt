//! The profile's OpenMP machine, as definitions.
//!
//! `docs/machine.md` tells it in words. `specs/` says it over the tree of a program, plain lists and numbers:
//!
//! - `State`: threads, tasks, regions, cells and locks, and what stands beside them;
//! - `Members`: where a thread is: its task, its region, its number in the region's team;
//! - `Gates`: what a thread comes to next, and whether it has to wait for it, with no expression evaluated;
//! - `Changes`: the words of change, of which effects are made;
//! - `Silent`: silent steps, and what the team and the locks answer to what a step asks;
//! - `EventEffects` and `Returning`: what happens at an event's Go, with the traps and limits that it meets, and at its callback's Back;
//! - `Turn`: up to 64 silent steps and an event, and in what state a trap or a limit halts the run;
//! - `Words`, `Frames`, `Snapshots`, `Calls`: what a tool hears of an event, and what it can inquire meanwhile;
//! - `Legal`, `Cause`, `Heard`, `Records`: histories, why a run ends, and what is heard of it;
//! - `Serial`, `Storing`, `Running`: the serial order;
//! - `Empty`: the smallest program with its run;
//! - `MadeWorld`, `Named`, `Conditions`: what a state names, and what a tool hears and inquires, was made, and how far its tasks have come.
//!
//! What one task's code does between events is `c_model`'s, what a team meets `team_parts`', tasks with their ready order `task_pool`'s, and locks
//! `sync_objects`'.
//!
//! The definitions are total. A thread that isn't a member of its region's team meets nothing and is dealt nothing, a finished task doesn't
//! start, and nothing happens to what wasn't made. No run meets the first two, and what a run names was made: the laws below say so.
//!
//! What the team deals is given to the code only where it fits the work that asks. A member has code only where the end of the region that was forked
//! stands first in its encountering task's code. And a `ParallelEnd` may name region 0, which is none. In runs of 1 to 16 threads of a
//! program that breaks no rule, and whose tree has the shape of one that a text spells, all that is dealt fits, each member has its region's code,
//! and each end names a region that was forked: `guard_laws` proves that.
//!
//! Proved, by the contract of the function that is named:
//!
//! - a thread is enabled exactly where it is inside no callback, the run isn't halted and its turn is one ([`enabled_threads_have_turns`]);
//! - the callback of an event is that of its call ([`calls_are_of_their_callbacks`]);
//! - two serial histories of a run in which nothing is stored, and that go on to its end, are the same, and each is the one that `serial`
//!   computes ([`serial_history_is_one`]);
//! - for the smallest program, with the callbacks of the profile, a million silent steps and 1 to 16 threads, `serial` has eight entries and four
//!   records, and ends because all is done ([`empty_program_ends`]);
//! - after each legal history of a run that has a thread, all that the state names was made ([`what_a_run_names_was_made`]), and each thread with a
//!   task is a member of its region's team ([`threads_with_tasks_are_members`]);
//! - what a tool hears of an event that has just occurred, and what it can inquire, was made ([`what_a_tool_hears_was_made`]), so the stores of its
//!   reply may stand ([`stores_of_replies_may_stand`]);
//! - after each legal history of a run that has a thread, each task on a stack is under way, each ready one is ready, and what is to start, to finish
//!   or to become ready does so ([`tasks_are_orderly`]).
//!
//! In `proofs/` serial runs of small programs are computed: `Rows` has seven with each line that a tool hears, the cause and the count of entries,
//! and `Facts` single lines, a run with stores, states and a snapshot. That the definitions are OpenMP's is for their reader to judge. For the code
//! that runs on them, `GonePast` has what is left as it was where a task leaves out what it goes past, and `Coming` what a task's code comes to
//! where its thread comes to a step or an event of it. `AlikeWorlds` has that a turn leads to a world that is alike, or to the Go of an event from
//! one, and what is so of such a world; `Arriving` what is so where a thread has come to an event; `Gos` and `Backs` what each event's Go and Back
//! change. They say it in words of their own. `Alike` has worlds that are alike but for code, cells and words, as those before and after silent steps.
//! `Arrivals` has how far a thread has come that comes to an event. `Touching` has what of a world, beside code, the Go of an event and its Back change.
#![tactic(auto)]

mod cause;
mod event;
mod history;
mod laws;
mod limits;
mod parts;

pub use cause::Cause;
pub use event::{Arrival, Callback, Endpoint, Event, Halt, Outcome, Share};
pub use history::{Entry, History, What};
pub use laws::{
    calls_are_of_their_callbacks, empty_program_ends, enabled_threads_have_turns,
    serial_history_is_one, stores_of_replies_may_stand, tasks_are_orderly,
    threads_with_tasks_are_members, what_a_run_names_was_made, what_a_tool_hears_was_made,
};
pub use limits::{
    IMPLICIT_REGION, INITIAL_TASK, MISMATCH, NESTING, STACK, STACK_LIMIT, STEPS, STEPS_OF_A_TURN,
    STORE_LIMIT, TASKS, TEAM_SIZE, TURN_LIMIT, TURNS,
};
pub use parts::{RegionHead, ThreadStage};
