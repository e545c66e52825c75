//! What is kept of constructs.

use crate::acts::act::DataClause;
use c_syntax::Directive;
use c_tokens::Spot;

/// A variable that a data clause lists.
#[derive(Clone, Copy)]
pub struct Mention {
    pub slot: u32,
    pub clause: DataClause,
}

/// Which clauses a directive has of those that may stand once.
#[derive(Clone, Copy)]
pub struct Clauses {
    pub num_threads: bool,
    pub default_shared: bool,
    pub default_none: bool,
    pub schedule: bool,
    pub nowait: bool,
    pub condition: bool,
}

/// How a construct begins.
#[derive(Clone, Copy)]
pub struct Head {
    /// The place of its `#`.
    pub spot: Spot,
    pub directive: Directive,
    /// The number of the name of a critical, or 0.
    pub critical: u32,
    /// How many declarations stand before it.
    pub first: usize,
}

/// A use of a variable that the construct whose `#` stands there, which has `default(none)`, doesn't list.
#[derive(Clone, Copy)]
pub struct Unlisted {
    pub spot: Spot,
    pub slot: u32,
    pub construct: Spot,
}

/// A loop inside the construct whose `#` stands there, which a directive shares out, has this variable.
#[derive(Clone, Copy)]
pub struct LoopInside {
    pub slot: u32,
    pub construct: Spot,
}

/// A construct that has ended, by its number, and the numbers of those that were around it, the innermost last.
#[derive(Drop)]
pub struct EndedNumber {
    pub construct: usize,
    pub outer: Vec<usize>,
}
