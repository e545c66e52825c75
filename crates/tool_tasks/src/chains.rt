//! The chains of a trace.

use crate::reaches::{Link, Reach};

/// A longest chain of a trace.
#[derive(Drop)]
pub(crate) struct Chains {
    /// A link for each charged event.
    pub links: Vec<Link>,
    /// The longest chain.
    pub longest: Reach,
}
