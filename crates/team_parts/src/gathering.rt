//! A meeting of the team, with what its members took in it.

ghost use Rattle.std.specs.Prelude.{◌≡◌, ◌≤◌, ◌<◌, ◌+◌, ◌^◌, length, slice_index_or, is_some, IfSome};
ghost use Rattle.team_parts.specs.Gatherings.{fresh_gathering, meeting_of, with_dealt, shared_length, with_taken_if};
ghost use Rattle.team_parts.specs.Sound.{IsCounted};
ghost use Rattle.team_parts.specs.Chunks.{next_chunk_of, next_section_of};

use crate::chunks::{chunk_at, next_length, own_chunk};
use crate::meeting::{Meeting, Schedule, TEAM_LIMIT};

/// A meeting of the team.
#[derive(Clone, Copy)]
pub struct Gathering {
    /// What is met.
    pub what: Meeting,
    /// How many chunks or sections each member has taken.
    pub taken: [u64; TEAM_LIMIT],
    /// How many iterations, or sections, were dealt to the members that asked.
    pub dealt: u64,
}

/// A meeting in which nothing was taken yet.
pub fn fresh_gathering(what: Meeting) -> Gathering
    ensures { result ≡ fresh_gathering what }
{
    Gathering {
        what,
        taken: [0; TEAM_LIMIT],
        dealt: 0,
    }
}

impl Gathering {
    /// The member takes its next chunk, if there is one for it.
    pub fn take_chunk(&mut self, size: u64, member: u32) -> Option<(u64, u64)>
        requires few { size ≤ TEAM_LIMIT }
        requires member { member < size }
        requires counted { IsCounted size self.old }
        ensures answer { result ≡ next_chunk_of (meeting_of self.old) size member }
        ensures taken { meeting_of self.new ≡ with_taken_if (meeting_of self.old) member (is_some result) }
        ensures counted { IsCounted size self.new }
    {
        let chunk = self.next_chunk(size, member)?;
        let shared = self.shared_length(chunk.1);
        self.take(member, shared);
        Some(chunk)
    }

    /// The member takes the next section, if there is one.
    pub fn take_section(&mut self, size: u64, member: u32) -> Option<u32>
        requires few { size ≤ TEAM_LIMIT }
        requires member { member < size }
        requires counted { IsCounted size self.old }
        ensures answer { result ≡ next_section_of (meeting_of self.old) }
        ensures taken { meeting_of self.new ≡ with_taken_if (meeting_of self.old) member (is_some result) }
        ensures counted { IsCounted size self.new }
    {
        let section = self.next_section(size)?;
        self.take(member, 1);
        Some(section)
    }

    /// The member's next chunk, if there is one for it.
    fn next_chunk(&self, size: u64, member: u32) -> Option<(u64, u64)>
        requires few { size ≤ TEAM_LIMIT }
        requires member { member < size }
        requires counted { IsCounted size self.now }
        ensures chunk { result ≡ next_chunk_of (meeting_of self.now) size member }
        ensures fits { IfSome result (λ chunk. chunk.0 + chunk.1 < 2 ^ 64) }
    {
        let Meeting::Loop {
            count,
            schedule,
            ..
        } = self.what
        else {
            return None;
        };
        if let Schedule::Static(chunk) = schedule {
            return own_chunk(chunk, size, count, member, self.taken[member as usize]);
        }
        if self.dealt >= count {
            return None;
        }
        let length = next_length(schedule, size, count - self.dealt);
        Some((self.dealt, length))
    }

    /// The next section, if there is one.
    fn next_section(&self, size: u64) -> Option<u32>
        requires { IsCounted size self.now }
        ensures { result ≡ next_section_of (meeting_of self.now) }
    {
        match self.what {
            Meeting::Sections { count, .. } if self.dealt < u64::from(count) => {
                Some(self.dealt as u32)
            }
            _ => None,
        }
    }

    /// The member has taken a chunk, or a section, of so many of those that are dealt to the members that ask.
    fn take(&mut self, member: u32, dealt: u64)
        requires member { member < length self.old.taken }
        requires taken { slice_index_or self.old.taken member 0 + 1 < 2 ^ 64 }
        requires dealt { self.old.dealt + dealt < 2 ^ 64 }
        ensures { self.new ≡ with_dealt self.old member dealt }
    {
        self.taken[member as usize] += 1;
        self.dealt += dealt;
    }

    /// How many of those that are dealt to the members that ask a chunk has.
    fn shared_length(&self, length: u64) -> u64
        ensures { result ≡ shared_length self.now.what length }
    {
        match self.what {
            Meeting::Loop {
                schedule: Schedule::Static(_),
                ..
            } => 0,
            _ => length,
        }
    }
}
