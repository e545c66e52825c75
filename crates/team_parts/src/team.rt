//! A team: its members, and what they have met.

ghost use Rattle.std.specs.Prelude.{◌≡◌, ◌<◌, ◌≤◌, [], IfOk, OnOk, OnErr, length, replicate, take, map, slice_get};
ghost use Rattle.team_parts.specs.Team.{new_member, meeting_answer, answer_to_meet, after_meeting, next_chunk, after_chunk, next_section, after_section, with_begun, may_pass, with_passed, last_number};
ghost use Rattle.team_parts.specs.Meetings.{HasChunk};
ghost use Rattle.team_parts.specs.Gatherings.{meeting_of};
ghost use Rattle.team_parts.specs.Sound.{IsFewest};

use crate::gathering::{Gathering, fresh_gathering};
use crate::meeting::{Meeting, Mismatch};
use crate::member::{Member, new_member};
use std::alloc::Global;
use std::marker::Model;

/// The error of a call that found no memory.
pub type Memory = std::alloc::AllocError;

/// A team of threads.
///
/// All members meet the same things in the same order. So contracts see the list of the team's meetings, each with how
/// many chunks or sections each member took in it, for each member how many of the meetings it has had, at how many
/// barriers it has begun to wait and at how many its wait has ended, and beside these how many more meetings there is
/// room for. Only [`Team::new`] and [`Team::reserve`] take memory.
#[derive(Drop)]
pub struct Team {
    /// The members, by number.
    members: Vec<Member>,
    /// The meetings, by number.
    meetings: Vec<Gathering>,
    /// How many more meetings there is room for.
    room: usize,
    /// Each member has begun to wait at so many barriers, and some member at no more.
    fewest_begun: u64,
    /// No member has passed more barriers, and some member that many.
    most_passed: u64,
}

impl Model for Team {
    ghost use Rattle.std.specs.Prelude.{map};
    ghost use Rattle.team_parts.specs.Team.{TeamView};
    ghost use Rattle.team_parts.specs.Gatherings.{meeting_of};
    ghost use Rattle.team_parts.specs.Sound.{IsSound};

    ghost Value = { TeamView };

    ghost view = { λ team. record {
      members = team.members.items;
      meetings = map meeting_of team.meetings.items;
      room = team.room;
    } };

    ghost use Rattle.std.specs.Prelude.{◌+◌, ◌≤◌, vec_len, vec_capacity};

    ghost invariant = { λ team. (vec_len team.meetings + team.room ≤ vec_capacity team.meetings)
        × IsSound team.members.items team.meetings.items team.fewest_begun team.most_passed };
}

impl Team {
    /// A team of so many members that have met nothing.
    pub fn new(alloc: Global, size: u32) -> Result<Team, Memory>
        requires some { 1 ≤ size }
        requires few { size ≤ 16 }
        ensures { IfOk result (λ team. team ≡ record { members = replicate size new_member; meetings = []; room = 0 }) }
    {
        let mut members = Vec::with_capacity(alloc, size as usize)?;
        members.resize(size as usize, new_member())?;
        Ok(Team {
            members,
            meetings: Vec::new(alloc),
            room: 0,
            fewest_begun: 0,
            most_passed: 0,
        })
    }

    /// How many members there are.
    pub fn size(&self) -> u32
        ensures { result ≡ length self.now.members }
    {
        self.members.len() as u32
    }

    /// Only the first members are left, so many. None has met anything.
    pub fn fit(&mut self, size: u32)
        requires some { 1 ≤ size }
        requires few { size ≤ length self.old.members }
        requires fresh { self.old.meetings ≡ [] }
        ensures { self.new ≡ record self.old { members = take size self.old.members } }
    {
        self.members.truncate(size as usize);
    }

    /// Makes room for one meeting, which stays until the next [`Team::meet`].
    pub fn reserve(&mut self) -> Result<(), Memory>
        ensures room { OnOk result (self.new ≡ record self.old { room = 1 }) }
        ensures memory { OnErr result (self.new ≡ self.old) }
    {
        self.meetings.reserve(1)?;
        self.room = 1;
        Ok(())
    }

    /// The member meets this next. Tells whether it is the first of the team here. Where another member has met
    /// something else in this place, nothing changes.
    pub fn meet(&mut self, member: u32, what: Meeting) -> Result<bool, Mismatch>
        requires member { member < length self.old.members }
        requires room { 0 < self.old.room }
        requires chunk { HasChunk what }
        ensures answer { result ≡ answer_to_meet self.old member what }
        ensures met { OnOk result (self.new ≡ after_meeting self.old member what) }
        ensures mismatch { OnErr result (self.new ≡ self.old) }
    {
        let is_first = self.meeting_answer(member, what)?;
        if is_first {
            self.meetings.push(fresh_gathering(what)).unwrap();
            self.room -= 1;
        }
        self.members[member as usize] = self.members[member as usize].with_meeting(what);
        Ok(is_first)
    }

    /// What [`Team::meet`] would answer where the member meets this next.
    pub fn meeting_answer(&self, member: u32, what: Meeting) -> Result<bool, Mismatch>
        requires { member < length self.now.members }
        ensures { result ≡ answer_to_meet self.now member what }
    {
        let number = self.members[member as usize].met as usize;
        is_first(&self.meetings, number, what)
    }

    /// The member takes the next chunk of the loop that it met last: its first iteration, counted from 0, and its
    /// length. There is none where no iteration is left for the member, or where what it met last is no loop. A member
    /// that has met nothing asks at the team's first meeting, and where there is none has no chunk.
    pub fn next_chunk(&mut self, member: u32) -> Option<(u64, u64)>
        requires { member < length self.old.members }
        ensures answer { result ≡ next_chunk self.old member }
        ensures taken { self.new ≡ after_chunk self.old member }
    {
        let size = self.members.len() as u64;
        let last = self.last_number(member);
        let gathering = self.meetings.get_mut(last)?;
        gathering.take_chunk(size, member)
    }

    /// The member takes the next section of the construct that it met last: its number, counted from 0. There is none
    /// where each was taken, or where what it met last has no sections. A member that has met nothing asks at the team's
    /// first meeting, and where there is none has no section.
    pub fn next_section(&mut self, member: u32) -> Option<u32>
        requires { member < length self.old.members }
        ensures answer { result ≡ next_section self.old member }
        ensures taken { self.new ≡ after_section self.old member }
    {
        let size = self.members.len() as u64;
        let last = self.last_number(member);
        let gathering = self.meetings.get_mut(last)?;
        gathering.take_section(size, member)
    }

    /// The member begins to wait at the barrier that it met last, if it met one.
    pub fn arrive(&mut self, member: u32)
        requires { member < length self.old.members }
        ensures { self.new ≡ with_begun self.old member }
    {
        let barriers = self.members[member as usize].barriers;
        self.members[member as usize].begun = barriers;
        self.fewest_begun = fewest_begun(&self.members);
    }

    /// Whether the member's wait at the barrier that it met last may end, while so many explicit tasks of the region
    /// are unfinished: where all members have begun to wait here and none is unfinished, or where the wait of some
    /// member has ended here (OpenMP 5.2, 15.3.1).
    pub fn may_pass(&self, member: u32, unfinished: u32) -> bool
        requires { member < length self.now.members }
        ensures { result ≡ may_pass self.now member unfinished }
    {
        let barriers = self.members[member as usize].barriers;
        barriers <= self.fewest_begun && unfinished == 0 || barriers <= self.most_passed
    }

    /// The member's wait at the barrier that it met last ends, if it met one.
    pub fn pass(&mut self, member: u32)
        requires { member < length self.old.members }
        ensures { self.new ≡ with_passed self.old member }
    {
        let barriers = self.members[member as usize].barriers;
        self.members[member as usize].passed = barriers;
        self.most_passed = self.most_passed.max(barriers);
    }

    /// The number of the meeting that the member had last, or 0 where it had none.
    fn last_number(&self, member: u32) -> usize
        requires { member < length self.now.members }
        ensures { result ≡ last_number self.now member }
    {
        (self.members[member as usize].met as usize).saturating_sub(1)
    }
}

/// Whether a member that meets this is the first at the meeting with this number.
fn is_first(meetings: &[Gathering], number: usize, what: Meeting) -> Result<bool, Mismatch>
    ensures { result ≡ meeting_answer (slice_get (map meeting_of meetings.now) number) what }
{
    match meetings.get(number) {
        None => Ok(true),
        Some(gathering) if gathering.what == what => Ok(false),
        Some(_) => Err(Mismatch),
    }
}

/// At how many barriers each member has begun to wait.
fn fewest_begun(members: &[Member]) -> u64
    requires { 1 ≤ length members.now }
    ensures { IsFewest members.now result }
{
    let mut fewest = members[0].begun;
    for member in members {
        fewest = fewest.min(member.begun);
    }
    fewest
}
