//! The members of a team: what they meet, the chunks and sections that they take, and their waits at barriers.
//!
//! All members of a team meet the same worksharing constructs and barriers in the same order. So contracts see a [`Team`]
//! as the list of its meetings, each with how many chunks or sections each member took in it, and for each [`Member`] how
//! many of these meetings it has had, at how many barriers it has begun to wait, and at how many its wait has ended.
//! None of these numbers ever falls. Beside them stands how many more meetings there is room for.
//!
//! - `specs/Meetings.antt` has the meetings, and when two are the same;
//! - `specs/Chunks.antt` has the next chunk of a loop and the next section. A static loop deals to each member by what
//!   this member took, and any other one by what all members took;
//! - `specs/Team.antt` has what each call answers and does, and when a wait at a barrier may end;
//! - `specs/Dealing.antt` has a whole loop: members ask in some order until nothing is left for any of them;
//! - `specs/Gatherings.antt` and `specs/Sound.antt` have how the code keeps a meeting, and what is true of each team.
//!
//! The contracts say:
//!
//! - [`Team::meet`] tells whether the member is the first here, or answers [`Mismatch`] exactly where another member has
//!   met something else in this place, and then nothing has changed;
//! - [`Team::next_chunk`] and [`Team::next_section`] answer what the definitions have, none exactly where nothing is left
//!   for the member or what it met last has none, and count what was taken;
//! - [`Team::arrive`], [`Team::may_pass`] and [`Team::pass`]: a wait may end where all members have begun theirs at this
//!   barrier and no explicit task is unfinished, or where that of some member has ended here;
//! - only [`Team::new`] and [`Team::reserve`] take memory, and after want of it nothing has changed. [`Team::reserve`]
//!   makes room for one meeting;
//! - [`each_iteration_once`]: by these definitions, whichever members ask for chunks in whichever order, until nothing is
//!   left for any of them, each iteration of the loop is dealt once, for each schedule. [`same_is_equal`]: meetings are
//!   the same where all of them is the same.
//!
//! A team keeps its meetings to its end. The code finds the one that a member had last by its number, and keeps for each
//! how much was dealt to those that asked, so that nothing is summed up when a member asks; and for the team at how many
//! barriers each member has begun to wait, and the most at which a wait has ended, so that no member is looked at where a
//! wait may end. What calls cost is no clause.
//!
//! Tests of `test_parts` try chunks of each schedule, meetings, barriers and sections, and long lists of calls beside plain
//! lists of all that each member met and took.
#![tactic(auto)]

mod chunks;
mod gathering;
mod laws;
mod meeting;
mod member;
mod team;

pub use laws::{each_iteration_once, same_is_equal};
pub use meeting::{Meeting, Mismatch, Schedule, TEAM_LIMIT};
pub use member::Member;
pub use team::{Memory, Team};
