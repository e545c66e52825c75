//! What the parts of this crate answer.

use ompt_calls::Reply;

/// What they answer to `initialize`: they are active.
pub(crate) const ACTIVE: u32 = 1;

/// The reply that stores nothing.
pub(crate) const NOTHING: Reply = Reply {
    first: None,
    second: None,
    third: None,
};
