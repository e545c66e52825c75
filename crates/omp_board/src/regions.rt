//! The parallel regions of a run, with what their teams have met.

ghost use Rattle.std.specs.Prelude.{◌≡◌, ◌<◌, ◌≤◌, ◌&&◌, ◌++◌, ◌∷◌, [], IfOk, IfSome, IsOk, IsSome, OnErr, OnOk, length};
ghost use Rattle.team_parts.specs.Meetings.{HasChunk};
ghost use Rattle.team_parts.specs.Team.{may_pass, with_begun, with_passed};
ghost use Rattle.omp_model.specs.State.{fresh_region};
ghost use Rattle.omp_board.specs.Regions.{IsFreshTeam, after_chunk_in, after_meeting_in, after_section_in, first_regions, is_member_in, meeting_in, next_chunk_in, next_section_in, region_in, team_in, turn_room, with_head_in, with_team_in};

use crate::head::{NO_HEAD, fresh_head};
use crate::region::Region;
use omp_model::RegionHead;
use std::alloc::{AllocError, Global};
use std::marker::Model;
use team_parts::{Meeting, Mismatch, TEAM_LIMIT, Team};

/// Room for a turn: for so many meetings of the team of this region, and for so many more regions.
#[derive(Clone, Copy)]
pub struct RegionRoom {
    pub region: u32,
    pub meetings: usize,
    pub regions: usize,
}

/// No room, as before the first turn.
const NO_ROOM: RegionRoom = RegionRoom {
    region: 0,
    meetings: 0,
    regions: 0,
};

/// The parallel regions of a run. Contracts see them by identity, at 0 one without members, and room.
///
/// One that isn't there reads as one without members.
#[derive(Drop)]
pub struct Regions {
    /// Where its memory comes from.
    alloc: Global,
    /// The regions, by identity. At 0 stands none.
    list: Vec<Region>,
    /// The team of the next region, with room for a meeting.
    fresh: Option<Team>,
    /// What there is room for.
    room: RegionRoom,
}

impl Model for Regions {
    ghost use Rattle.std.specs.Prelude.{vec_capacity};
    ghost use Rattle.omp_board.specs.Regions.{RegionsView};
    ghost use Rattle.omp_board.specs.KeepingRegions.{IsKept, seen_regions};

    ghost Value = { RegionsView };

    ghost view = { λ all. record {
      regions = seen_regions all.list.items;
      room = all.room;
    } };

    ghost invariant = { λ all. IsKept all.list.items (vec_capacity all.list) all.fresh all.room };
}

impl Regions {
    /// The implicit region of the initial task, with one member.
    pub fn new(alloc: Global) -> Result<Regions, AllocError>
        ensures { IfOk result (λ all. all ≡ first_regions) }
    {
        let mut list = Vec::new(alloc);
        list.push(Region {
            head: NO_HEAD,
            team: None,
        })?;
        list.push(Region {
            head: fresh_head(0, 1),
            team: Some(Team::new(alloc, 1)?),
        })?;
        Ok(Regions {
            alloc,
            list,
            fresh: None,
            room: NO_ROOM,
        })
    }

    /// Makes room for a turn in this region: for one meeting of its team, and for one more region. That there are more regions than a `u32` counts
    /// is want of memory too.
    pub fn reserve(&mut self, region: u32) -> Result<(), AllocError>
        ensures kept { self.new ≡ record self.old { room = self.new.room } }
        ensures room { OnOk result (self.new.room ≡ turn_room region) }
        ensures memory { OnErr result (self.new ≡ self.old) }
    {
        if self.list.len() >= u32::MAX as usize {
            return Err(AllocError);
        }
        self.list.reserve(1)?;
        reserve_team(self.alloc, &mut self.fresh)?;
        if let Some(kept) = self.list.get_mut(region as usize) {
            kept.reserve()?;
        }
        self.room = RegionRoom {
            region,
            meetings: 1,
            regions: 1,
        };
        Ok(())
    }

    /// The identity of the next region.
    pub fn next(&self) -> u32
        ensures { result ≡ length self.now.regions }
    {
        self.list.len() as u32
    }

    /// What is kept of the region beside its team.
    #[inline(always)]
    pub fn head(&self, region: u32) -> &RegionHead
        ensures { result.now ≡ (region_in self.now region).head }
    {
        match self.list.get(region as usize) {
            Some(kept) => &kept.head,
            None => &NO_HEAD,
        }
    }

    /// One more region is made, which this task has encountered, for so many members.
    pub fn add(&mut self, task: u32, size: u8)
        requires room { 0 < self.old.room.regions }
        requires some { 1 ≤ size }
        requires few { size ≤ TEAM_LIMIT }
        ensures { self.new ≡ record self.old {
          regions = self.old.regions ++ fresh_region task size ∷ [];
          room = record self.old.room { regions = 0 };
        } }
    {
        self.room.regions = 0;
        let mut team = self.fresh.take().unwrap();
        team.fit(u32::from(size));
        self.list
            .push(Region {
                head: fresh_head(task, size),
                team: Some(team),
            })
            .unwrap();
    }

    /// This is kept of the region beside its team from now on.
    pub fn set_head(&mut self, region: u32, head: RegionHead)
        ensures { self.new ≡ with_head_in self.old region head }
    {
        let Some(kept) = self.list.get_mut(region as usize) else {
            return;
        };
        kept.head = head;
    }

    /// What the team answers where the member meets this next.
    #[inline(always)]
    pub fn meeting_answer(&self, region: u32, member: u8, what: Meeting) -> Result<bool, Mismatch>
        ensures { result ≡ meeting_in self.now region member what }
    {
        match self.list.get(region as usize) {
            Some(kept) => kept.meeting_answer(member, what),
            None => Ok(false),
        }
    }

    /// The member meets this next, as its team does. A thread that isn't a member meets nothing.
    pub fn meet(&mut self, region: u32, member: u8, what: Meeting)
        requires of_region { self.old.room.region ≡ region }
        requires room { 0 < self.old.room.meetings }
        requires chunk { HasChunk what }
        requires same { IsOk (meeting_in self.old region member what) }
        ensures { self.new ≡ record (after_meeting_in self.old region member what)
            { room = record self.old.room { meetings = 0 } } }
    {
        self.room.meetings = 0;
        let Some(kept) = self.list.get_mut(region as usize) else {
            return;
        };
        kept.meet(member, what);
    }

    /// The member takes the next chunk of the loop that it met last: its first iteration, counted from 0, and its length. There is none where no
    /// iteration is left for the member.
    pub fn next_chunk(&mut self, region: u32, member: u8) -> Option<(u64, u64)>
        ensures answer { result ≡ next_chunk_in self.old region member }
        ensures taken { self.new ≡ after_chunk_in self.old region member }
    {
        self.list.get_mut(region as usize)?.next_chunk(member)
    }

    /// The member takes the next section of the construct that it met last: its number, counted from 0. There is none where each was taken.
    pub fn next_section(&mut self, region: u32, member: u8) -> Option<u32>
        ensures answer { result ≡ next_section_in self.old region member }
        ensures taken { self.new ≡ after_section_in self.old region member }
    {
        self.list.get_mut(region as usize)?.next_section(member)
    }

    /// The member begins to wait at the barrier that it met last.
    #[inline(always)]
    pub fn arrive(&mut self, region: u32, member: u8)
        ensures { self.new ≡ with_team_in self.old region (with_begun (team_in self.old region) member) }
    {
        let Some(kept) = self.list.get_mut(region as usize) else {
            return;
        };
        kept.arrive(member);
    }

    /// The member's wait at the barrier that it met last ends.
    pub fn pass(&mut self, region: u32, member: u8)
        ensures { self.new ≡ with_team_in self.old region (with_passed (team_in self.old region) member) }
    {
        let Some(kept) = self.list.get_mut(region as usize) else {
            return;
        };
        kept.pass(member);
    }

    /// Whether the member's wait at the barrier that it met last may end, while so many explicit tasks of the region are unfinished.
    pub fn may_pass(&self, region: u32, member: u8, unfinished: u32) -> bool
        ensures { result ≡ (is_member_in self.now region member && may_pass
            (team_in self.now region) member unfinished) }
    {
        match self.list.get(region as usize) {
            Some(kept) => kept.may_pass(member, unfinished),
            None => false,
        }
    }
}

/// A team for a region to come, with room for a meeting.
fn new_team(alloc: Global) -> Result<Team, AllocError>
    ensures { IfOk result IsFreshTeam }
{
    let mut team = Team::new(alloc, TEAM_LIMIT as u32)?;
    team.reserve()?;
    Ok(team)
}

/// Makes a team for a region to come, where there is none.
fn reserve_team(alloc: Global, fresh: &mut Option<Team>) -> Result<(), AllocError>
    requires { IfSome fresh.old IsFreshTeam }
    ensures kept { IfSome fresh.new IsFreshTeam }
    ensures some { OnOk result (IsSome fresh.new) }
    ensures memory { OnErr result (fresh.new ≡ fresh.old) }
{
    if fresh.is_none() {
        *fresh = Some(new_team(alloc)?);
    }
    Ok(())
}
