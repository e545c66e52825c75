//! What the members of a team meet: worksharing constructs and barriers.

use thiserror::Error;

/// The most members of a team.
pub const TEAM_LIMIT: usize = 16;

/// How the iterations of a loop are dealt (OpenMP 5.2, 11.5.3).
#[derive(Clone, Copy, PartialEq, Eq)]
pub enum Schedule {
    /// Chunks of so many, round and round by member; 0 stands for one block each.
    Static(u32),
    /// The next chunk of so many, to the member that asks.
    Dynamic(u32),
    /// The next chunk, to the member that asks: a share of the rest, but at least so many.
    Guided(u32),
}

/// A worksharing construct or a barrier that a member has come to. Two members meet the same where all of it is the
/// same.
#[derive(Clone, Copy, PartialEq, Eq)]
pub enum Meeting {
    /// A loop.
    Loop {
        /// The place of the construct in the text.
        at: u64,
        /// The first value of the loop's variable.
        start: i64,
        /// The number of iterations.
        count: u64,
        /// What is added to the variable from one iteration to the next.
        step: i64,
        /// How its iterations are dealt.
        schedule: Schedule,
    },
    /// A construct with sections.
    Sections {
        /// The place of the construct in the text.
        at: u64,
        /// The number of sections.
        count: u32,
    },
    /// A construct that one member executes.
    Single {
        /// The place of the construct in the text.
        at: u64,
    },
    /// A barrier.
    Barrier {
        /// The place of its construct in the text.
        at: u64,
        /// Its kind, as a callback of a tool tells it.
        kind: u32,
    },
}

/// Another member has met something else in this place.
#[derive(Clone, Copy, Debug, PartialEq, Eq, Error)]
#[error("another member met something else")]
pub struct Mismatch;
