//! A team in the standard's words, and that the counters of `team_parts` tell just this.
//!
//! `team_parts` defines a team by counters. It counts how many meetings and barriers each member has had, at how many
//! barriers it has begun to wait, and how many it has passed. OpenMP speaks of each member's own constructs and barriers. So here a
//! team is, for each member, the list of what it has met, in order; and for each meeting the chunks or sections that
//! the member took there, whether it has arrived, and whether it has passed.
//!
//! - `specs/Team.antt` has the team, and what a member is answered where it meets something. It says when a wait may end:
//!   where each member has arrived at its meeting with this number and no explicit task is unfinished, or where some
//!   member has passed its own;
//! - `specs/Shares.antt` has the next chunk and the next section. A chunk that isn't of a static loop begins behind all
//!   that the members took;
//! - `specs/Calls.antt` has the calls of members, with what these definitions answer and leave behind them, and what
//!   those of `team_parts` do. It has also the order in which members make them. A member meets the next thing once it
//!   has passed its barrier. It asks for a chunk or a section only once it has met something, and waits only at a
//!   barrier;
//! - `specs/Counted.antt` has which counters are those of a team;
//! - `specs/Dealt.antt` has a loop, and sections, of which nothing is left;
//! - `specs/Example.antt` has calls of two members, with their answers.
//!
//! Proved, as laws of the definitions, for a team of up to 16 members that makes any such calls from its begin on:
//!
//! - [`counters_tell_the_team`]: the counters answer each call as the team does, and behind all of them they count what
//!   the members have met, where they have arrived and passed, and how much each took;
//! - [`waits_end_once_all_have_arrived`]: by the counters a wait may end just where the team says so;
//! - [`all_arrive_before_one_passes`]: where members pass only when their waits may end, no member passes a barrier
//!   before all have arrived at it;
//! - [`each_iteration_taken_once`] and [`each_section_taken_once`]: where nothing is left for any member, they took
//!   each iteration, or each section, once;
//! - [`two_members_share_work`]: the example is such a list of calls, and leaves nothing of its loop and its sections.
//!
//! That the members of a team make their calls in this order in each run is proved in `team_calls`. The crate has no code
//! that runs.
#![tactic(auto)]

mod laws;

pub use laws::{
    all_arrive_before_one_passes, counters_tell_the_team, each_iteration_taken_once,
    each_section_taken_once, two_members_share_work, waits_end_once_all_have_arrived,
};
