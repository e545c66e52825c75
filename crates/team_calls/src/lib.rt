//! In each run the members of a team call it in the order of the standard's words.
//!
//! `team_words` has a team as lists of what each member has met, and the order in which members make calls: a member meets
//! the next thing once it has passed its barrier. It asks for a chunk or a section only once it has met something, and it
//! waits only at a barrier. Here it is shown of whole runs that members make their calls so.
//!
//! - `specs/Called.antt` goes over a history and has the calls that the members of one region make on its team. A silent
//!   step asks for a chunk or a section, and where none is left this changes nothing. At the Go of an event a member meets
//!   a construct or a barrier, or passes a barrier. At the Back of an event it has arrived at one;
//! - `specs/Agreed.antt` has when members meet the same in the same order.
//!
//! Proved, as laws of the definitions, for legal histories of a run with 1 to 16 threads. Its program breaks no rule and has
//! the form of a tree of a text:
//!
//! - [`members_call_in_order`]: the calls are made in the members' order, and a member passes a barrier only where all have
//!   arrived or another has passed it; of tasks `waits_end_in_a_run` tells. The team that the machine has is what these calls
//!   leave. So its counters are those of what each member has met, with the chunks and sections that it took, where it has
//!   arrived and where it has passed;
//! - [`members_meet_the_same`]: the n-th construct or barrier that a member meets is the n-th of each other one that has had
//!   as many. A member that would meet something else makes no call, since its turn is a trap;
//! - [`waits_end_in_a_run`]: where the end of a member's wait at a barrier stands next, the machine lets it end in just two
//!   cases. All members have arrived and no explicit task of the region is unfinished, or some member has passed the barrier.
//!   So the event in which such a wait ends occurs in these cases alone;
//! - [`all_arrive_in_a_run`]: no member passes a barrier before all have arrived at it.
//!
//! What a member asks beside these calls, whether its wait may end and what it would meet, changes nothing.
//!
//! What is so of each state is in `proofs/Called.antt`, and in `proofs/Places.antt` how far a member has come at the barrier
//! that it met last, by where its code stands.
//!
//! The crate has no code that runs.
#![tactic(auto)]

mod laws;

pub use laws::{
    all_arrive_in_a_run, members_call_in_order, members_meet_the_same, waits_end_in_a_run,
};
