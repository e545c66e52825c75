//! All that each member of a team met and took, in plain lists.

use std::alloc::{AllocError, Global};
use team_parts::{Meeting, Mismatch, Schedule};

/// What a member met, with the chunks and sections that it took there.
#[derive(Drop)]
pub(crate) struct PlainMeeting {
    pub what: Meeting,
    pub chunks: Vec<(u64, u64)>,
    pub has_arrived: bool,
    pub has_passed: bool,
}

impl PlainMeeting {
    /// Whether the iteration is in a chunk that was taken.
    fn has_taken(&self, iteration: u64) -> bool {
        for (start, length) in &self.chunks {
            if *start <= iteration && iteration - *start < *length {
                return true;
            }
        }
        false
    }
}

/// All that each member met.
#[derive(Drop)]
pub(crate) struct PlainTeam {
    pub members: Vec<Vec<PlainMeeting>>,
}

impl PlainTeam {
    /// So many members that have met nothing.
    pub fn new(alloc: Global, size: u32) -> Result<PlainTeam, AllocError> {
        let mut members = Vec::new(alloc);
        for _member in 0..size {
            members.push(Vec::new(alloc))?;
        }
        Ok(PlainTeam { members })
    }

    /// How many meetings the member had.
    pub fn met(&self, member: usize) -> usize {
        self.members
            .get(member)
            .map_or(0, |meetings| meetings.len())
    }

    /// What the member met last, if anything.
    pub fn last(&self, member: usize) -> Option<Meeting> {
        let meeting = self.members.get(member)?.last()?;
        Some(meeting.what)
    }

    /// Whether the member's last meeting is a barrier that it hasn't passed.
    pub fn is_waiting(&self, member: usize) -> bool {
        self.members.get(member).is_some_and(|meetings| meetings.last().is_some_and(|meeting| {
            matches!(meeting.what, Meeting::Barrier { .. }) && !meeting.has_passed
        }))
    }

    /// The member's wait at its last meeting ends, or else it begins.
    pub fn wait(&mut self, member: usize, may_end: bool) {
        if let Some(meeting) = self.last_mut(member) {
            meeting.has_passed = may_end;
            meeting.has_arrived = meeting.has_arrived || !may_end;
        }
    }

    /// The member takes this chunk in its last meeting.
    pub fn take(&mut self, member: usize, chunk: (u64, u64)) -> Result<(), AllocError> {
        if let Some(meeting) = self.last_mut(member) {
            meeting.chunks.push(chunk)?;
        }
        Ok(())
    }

    fn last_mut(&mut self, member: usize) -> Option<&mut PlainMeeting> {
        self.members.get_mut(member)?.last_mut()
    }

    /// The member meets this next, if nobody met something else in this place. Tells whether it is the first here.
    pub fn meet(
        &mut self,
        alloc: Global,
        member: usize,
        what: Meeting,
    ) -> Result<Result<bool, Mismatch>, AllocError> {
        let answer = self.answer_to_meet(self.met(member), what);
        if answer.is_ok() {
            self.put(alloc, member, what)?;
        }
        Ok(answer)
    }

    /// Whether nobody has had the meeting with this number, if nobody met something else there.
    fn answer_to_meet(&self, number: usize, what: Meeting) -> Result<bool, Mismatch> {
        let mut is_first = true;
        for meetings in &self.members {
            if let Some(meeting) = meetings.get(number) {
                is_first = false;
                if meeting.what != what {
                    return Err(Mismatch);
                }
            }
        }
        Ok(is_first)
    }

    /// The member has met this.
    fn put(&mut self, alloc: Global, member: usize, what: Meeting) -> Result<(), AllocError> {
        if let Some(meetings) = self.members.get_mut(member) {
            meetings.push(PlainMeeting {
                what,
                chunks: Vec::new(alloc),
                has_arrived: false,
                has_passed: false,
            })?;
        }
        Ok(())
    }

    /// How many iterations or sections all members took in the meeting with this number.
    fn taken_by_all(&self, number: usize) -> u64 {
        let mut taken = 0_u64;
        for meetings in &self.members {
            if let Some(meeting) = meetings.get(number) {
                for chunk in &meeting.chunks {
                    taken = taken.saturating_add(chunk.1);
                }
            }
        }
        taken
    }

    /// The iterations or sections that the schedule gives to the member in what it met last, by going through all of them.
    pub fn next_piece(&self, member: usize, last: Option<Meeting>) -> Option<(u64, u64)> {
        let size = self.members.len() as u64;
        let (count, schedule) = dealt_of(last?);
        let taken = self.taken_by_all(self.met(member).saturating_sub(1));
        let rest = count.saturating_sub(taken);
        match schedule {
            Schedule::Static(0) => self.own_iterations(member, share_of(count, size), count),
            Schedule::Static(chunk) => self.own_iterations(member, u64::from(chunk), count),
            Schedule::Dynamic(chunk) => piece(taken, u64::from(chunk).min(rest)),
            Schedule::Guided(chunk) => {
                piece(taken, share_of(rest, size).max(u64::from(chunk)).min(rest))
            }
        }
    }

    /// The first iterations in a row that are the member's by number and that it hasn't taken.
    fn own_iterations(&self, member: usize, length: u64, count: u64) -> Option<(u64, u64)> {
        let size = self.members.len() as u64;
        let meeting = self.members.get(member)?.last()?;
        let mut found = None;
        for iteration in 0..count {
            let owner = iteration.checked_div(length)?.checked_rem(size)?;
            let is_own = owner == member as u64 && !meeting.has_taken(iteration);
            found = match found {
                None if is_own => Some((iteration, 1)),
                Some((start, taken)) if is_own && taken < length => Some((start, taken + 1)),
                None => None,
                _ => break,
            };
        }
        found
    }

    pub fn may_pass(&self, member: usize, unfinished: u32) -> bool {
        let number = self.met(member).saturating_sub(1);
        let mut have_arrived = true;
        let mut has_passed = false;
        for meetings in &self.members {
            match meetings.get(number) {
                Some(meeting) => {
                    have_arrived = have_arrived && meeting.has_arrived;
                    has_passed = has_passed || meeting.has_passed;
                }
                None => have_arrived = false,
            }
        }
        have_arrived && unfinished == 0 || has_passed
    }
}

/// How many iterations or sections there are, and how they are dealt.
fn dealt_of(what: Meeting) -> (u64, Schedule) {
    match what {
        Meeting::Loop {
            count,
            schedule,
            ..
        } => (count, schedule),
        Meeting::Sections { count, .. } => (u64::from(count), Schedule::Dynamic(1)),
        Meeting::Single { .. } | Meeting::Barrier { .. } => (0, Schedule::Dynamic(1)),
    }
}

/// The least share that is enough for all where each of so many takes it.
fn share_of(count: u64, size: u64) -> u64 {
    for share in 0..count {
        if share.saturating_mul(size) >= count {
            return share;
        }
    }
    count
}

/// A piece that has something in it.
fn piece(start: u64, length: u64) -> Option<(u64, u64)> {
    if length == 0 {
        None
    } else {
        Some((start, length))
    }
}
