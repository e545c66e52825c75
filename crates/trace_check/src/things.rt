//! What is kept of what a trace has open.

ghost use Rattle.std.specs.Prelude.{◌≡◌};

use crate::bracket::Bracket;

/// Where an implicit task is in a team.
#[derive(Clone, Copy)]
pub(crate) struct Seat {
    /// The region that it joined.
    pub region: u32,
    /// Its index there.
    pub index: u32,
}

/// The task that a thread runs.
#[derive(Clone, Copy)]
pub(crate) struct Current {
    /// Its number.
    pub task: u32,
    /// Where it is in a team, if it has joined one.
    pub seat: Option<Seat>,
}

/// What a thread asks for: a kind and a wait identifier.
#[derive(Clone, Copy)]
pub(crate) struct Asked {
    pub kind: u32,
    pub wait_id: u32,
}

/// A thread that began.
#[derive(Clone, Copy)]
pub(crate) struct Thread {
    /// Whether it has ended.
    pub ended: bool,
    /// Whether it had an event beside its begin.
    pub later: bool,
    /// What its newest event asks for.
    pub asked: Option<Asked>,
    /// The task that it runs.
    pub current: Option<Current>,
    /// How many brackets are open on it.
    pub depth: u32,
}

/// An open bracket.
#[derive(Clone, Copy)]
pub(crate) struct Opened {
    pub bracket: Bracket,
    /// The task that its thread ran before it.
    pub before: Option<Current>,
}

/// A region that has no end yet.
#[derive(Clone, Copy)]
pub(crate) struct Region {
    /// The size of its team, once an implicit task has begun.
    pub actual: Option<u32>,
    /// How many implicit tasks have begun.
    pub had: u64,
    /// So many waits at barriers are known to have begun in each of its implicit tasks.
    pub waited: u64,
}

/// An implicit task of such a region.
#[derive(Clone, Copy)]
pub(crate) struct Member {
    /// Its number.
    pub task: u32,
    /// Whether it has ended.
    pub left: bool,
    /// How many waits at barriers it has begun.
    pub waits: u64,
    /// How many tasks that it created aren't complete.
    pub children: u64,
}

/// A created task that isn't complete.
#[derive(Clone, Copy)]
pub(crate) struct Created {
    /// The task that created it.
    pub creator: Current,
    /// Whether a thread has gone to it.
    pub started: bool,
    /// How many tasks that it created aren't complete.
    pub children: u64,
}
