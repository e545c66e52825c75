//! The codes of OMPT: the numbers of its callbacks and enumerations, what registrations are answered, and the states that a thread may have.
//!
//! Each enumeration has a module of constants, each with the name that it has in `omp-tools.h`, without the beginning that all of them
//! share: `ompt_scope_begin` is [`endpoints::BEGIN`], and `ompt_callback_work` is [`callbacks::WORK`]. Only those are there that a tool
//! meets in this runtime.
//!
//! Proved for every number, over the definitions of `specs/`:
//!
//! - [`set_answer`] is `answer_of`, and [`is_profile`] is `in_profile`;
//! - [`PROFILE`] lists the callbacks that `in_profile` says, by rising numbers, [`PROFILE_MASK`] is the mask with them, and each has a name,
//!   by [`profile_has_its_mask`];
//! - [`callbacks::name`] is `callback_name`, and the numbers of the callbacks are those of [`callbacks_have_their_numbers`];
//! - [`next_state`] is `next_of`: the one that follows in the list of the states.
//!
//! Tests in `test_calls` compare a few answers with values written out by hand. Nothing here takes memory.
#![tactic(auto)]

mod answers;
pub mod callbacks;
pub mod dispatch_kinds;
pub mod endpoints;
pub mod mutex_kinds;
pub mod parallel_flags;
pub mod set_results;
pub mod states;
pub mod sync_kinds;
pub mod task_flags;
pub mod task_statuses;
pub mod thread_kinds;
pub mod thread_states;
pub mod work_kinds;

pub use answers::set_answer;
pub use callbacks::{
    PROFILE, PROFILE_MASK, callbacks_have_their_numbers, is_profile, profile_has_its_mask,
};
pub use states::next_state;
