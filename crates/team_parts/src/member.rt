//! How far a member has come.

ghost use Rattle.std.specs.Prelude.{◌≡◌, ◌+◌, ◌<◌, ◌^◌};
ghost use Rattle.team_parts.specs.Meetings.{is_barrier};
ghost use Rattle.team_parts.specs.Team.{new_member, with_meeting};

use crate::meeting::Meeting;

/// How far a member has come, in numbers that only grow.
#[derive(Clone, Copy)]
pub struct Member {
    /// How many meetings it has had.
    pub met: u64,
    /// How many of them were barriers.
    pub barriers: u64,
    /// At how many of these barriers it has begun to wait.
    pub begun: u64,
    /// At how many of them its wait has ended.
    pub passed: u64,
}

/// A member that has met nothing.
pub fn new_member() -> Member
    ensures { result ≡ new_member }
{
    Member {
        met: 0,
        barriers: 0,
        begun: 0,
        passed: 0,
    }
}

impl Member {
    /// The member has had one meeting more.
    pub fn with_meeting(self, what: Meeting) -> Member
        requires met { self.met + 1 < 2 ^ 64 }
        requires barriers { self.barriers + 1 < 2 ^ 64 }
        ensures { result ≡ with_meeting self what }
    {
        let barriers = if is_barrier(what) {
            self.barriers + 1
        } else {
            self.barriers
        };
        Member {
            met: self.met + 1,
            barriers,
            ..self
        }
    }
}

/// Whether it is a barrier.
fn is_barrier(what: Meeting) -> bool
    ensures { result ≡ is_barrier what }
{
    matches!(what, Meeting::Barrier { .. })
}
