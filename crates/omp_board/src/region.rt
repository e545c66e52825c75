//! A region as it is kept.

ghost use Rattle.std.specs.Prelude.{◌≡◌, ◌&&◌, false, IsOk, IsTrue, None, Ok, OnErr, OnOk, if◌then◌else◌};
ghost use Rattle.team_parts.specs.Meetings.{HasChunk};
ghost use Rattle.team_parts.specs.Team.{after_chunk, after_meeting, after_section, answer_to_meet, may_pass, next_chunk, next_section, with_begun, with_passed};
ghost use Rattle.omp_board.specs.KeepingRegions.{HasRoom, has_member, room_of, seen_region, team_of};

use omp_model::RegionHead;
use std::alloc::AllocError;
use team_parts::{Meeting, Mismatch, Team};

/// A parallel region.
#[derive(Drop)]
pub struct Region {
    /// What is kept of it beside its team.
    pub head: RegionHead,
    /// What its members have met. A region without members has none.
    pub team: Option<Team>,
}

impl Region {
    /// Makes room for one meeting of its team, if it has one.
    pub fn reserve(&mut self) -> Result<(), AllocError>
        ensures kept { seen_region self.new ≡ seen_region self.old }
        ensures room { OnOk result (HasRoom self.new 1) }
        ensures memory { OnErr result (self.new ≡ self.old) }
    {
        match &mut self.team {
            Some(team) => team.reserve(),
            None => Ok(()),
        }
    }

    /// What the team answers where the member meets this next.
    #[inline(always)]
    pub fn meeting_answer(&self, member: u8, what: Meeting) -> Result<bool, Mismatch>
        ensures { result ≡ if has_member (team_of self.now) member then answer_to_meet (team_of self.now) member what
            else Ok false }
    {
        match &self.team {
            Some(team) if u32::from(member) < team.size() => team.meeting_answer(
                u32::from(member),
                what,
            ),
            _ => Ok(false),
        }
    }

    /// The member meets this next, as its team does. A thread that isn't a member meets nothing.
    pub fn meet(&mut self, member: u8, what: Meeting)
        requires room { HasRoom self.old 1 }
        requires chunk { HasChunk what }
        requires same { IsTrue (has_member (team_of self.old) member) →
            IsOk (answer_to_meet (team_of self.old) member what) }
        ensures { seen_region self.new ≡ record (seen_region self.old) {
          team = if has_member (team_of self.old) member then after_meeting (team_of self.old) member what
              else team_of self.old;
        } }
    {
        if let Some(team) = &mut self.team {
            if u32::from(member) < team.size() {
                let _ = team.meet(u32::from(member), what);
            }
        }
    }

    /// The member takes the next chunk of the loop that it met last: its first iteration, counted from 0, and its length. There is none where no
    /// iteration is left for the member.
    pub fn next_chunk(&mut self, member: u8) -> Option<(u64, u64)>
        ensures answer { result ≡ if has_member (team_of self.old) member then next_chunk (team_of self.old) member
            else None }
        ensures taken { seen_region self.new ≡ record (seen_region self.old) {
          team = if has_member (team_of self.old) member then after_chunk (team_of self.old) member
              else team_of self.old;
        } }
        ensures room { room_of self.new ≡ room_of self.old }
    {
        match &mut self.team {
            Some(team) if u32::from(member) < team.size() => team.next_chunk(u32::from(member)),
            _ => None,
        }
    }

    /// The member takes the next section of the construct that it met last: its number, counted from 0. There is none where each was taken.
    pub fn next_section(&mut self, member: u8) -> Option<u32>
        ensures answer { result ≡ if has_member (team_of self.old) member then next_section (team_of self.old) member
            else None }
        ensures taken { seen_region self.new ≡ record (seen_region self.old) {
          team = if has_member (team_of self.old) member then after_section (team_of self.old) member
              else team_of self.old;
        } }
        ensures room { room_of self.new ≡ room_of self.old }
    {
        match &mut self.team {
            Some(team) if u32::from(member) < team.size() => team.next_section(u32::from(member)),
            _ => None,
        }
    }

    /// The member begins to wait at the barrier that it met last.
    #[inline(always)]
    pub fn arrive(&mut self, member: u8)
        ensures begun { seen_region self.new ≡
            record (seen_region self.old) { team = with_begun (team_of self.old) member } }
        ensures room { room_of self.new ≡ room_of self.old }
    {
        if let Some(team) = &mut self.team {
            if u32::from(member) < team.size() {
                team.arrive(u32::from(member));
            }
        }
    }

    /// The member's wait at the barrier that it met last ends.
    pub fn pass(&mut self, member: u8)
        ensures passed { seen_region self.new ≡
            record (seen_region self.old) { team = with_passed (team_of self.old) member } }
        ensures room { room_of self.new ≡ room_of self.old }
    {
        if let Some(team) = &mut self.team {
            if u32::from(member) < team.size() {
                team.pass(u32::from(member));
            }
        }
    }

    /// Whether the member's wait at the barrier that it met last may end, while so many explicit tasks of the region are unfinished.
    pub fn may_pass(&self, member: u8, unfinished: u32) -> bool
        ensures { result ≡ (has_member (team_of self.now) member && may_pass (team_of self.now) member unfinished) }
    {
        match &self.team {
            Some(team) if u32::from(member) < team.size() => {
                team.may_pass(u32::from(member), unfinished)
            }
            _ => false,
        }
    }
}
