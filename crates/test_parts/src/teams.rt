//! Chunks of each schedule, meetings, barriers and sections, and long lists of calls beside plain lists.

ghost use Rattle.std.specs.Prelude.{IsTrue};
ghost use Rattle.team_parts.specs.Meetings.{HasChunk};

use crate::draws::Draws;
use crate::plain_team::PlainTeam;
use std::alloc::{AllocError, Global};
use std::test::Fail;
use team_parts::{Meeting, Mismatch, Schedule, Team};

/// A loop of so many iterations.
fn loop_of(count: u64, schedule: Schedule) -> Meeting {
    Meeting::Loop {
        at: 131_073,
        start: -3,
        count,
        step: 2,
        schedule,
    }
}

/// What a member does or is asked, and where there is one, the answer.
#[derive(Clone, Copy)]
enum Step {
    /// The member meets this. Is it the first here?
    Meets(Meeting, Result<bool, Mismatch>),
    TakesChunk(Option<(u64, u64)>),
    TakesSection(Option<u32>),
    /// The member begins to wait.
    Arrives,
    /// May its wait end, while so many tasks are unfinished?
    MayPass(u32, bool),
    /// Its wait ends, as it may.
    Passes,
}

/// Whether the member does and is answered what the step has.
fn goes(team: &mut Team, member: u32, step: &Step) -> Result<bool, AllocError> {
    if member >= team.size() {
        return Ok(false);
    }
    Ok(match step {
        Step::Meets(what, answer) => meet(team, member, *what)? == Some(*answer),
        Step::TakesChunk(chunk) => team.next_chunk(member) == *chunk,
        Step::TakesSection(section) => team.next_section(member) == *section,
        Step::Arrives => {
            team.arrive(member);
            true
        }
        Step::MayPass(unfinished, may) => team.may_pass(member, *unfinished) == *may,
        Step::Passes => pass(team, member),
    })
}

/// Whether a chunk that goes to the member that asks has something in it.
fn has_chunk(what: Meeting) -> bool
    ensures { IsTrue result → HasChunk what }
{
    match what {
        Meeting::Loop {
            schedule: Schedule::Dynamic(chunk) | Schedule::Guided(chunk),
            ..
        } => chunk > 0,
        _ => true,
    }
}

/// The member meets this, with room for it. There is no answer where there is no such member or meeting.
fn meet(
    team: &mut Team,
    member: u32,
    what: Meeting,
) -> Result<Option<Result<bool, Mismatch>>, AllocError> {
    team.reserve()?;
    if member < team.size() && has_chunk(what) {
        return Ok(Some(team.meet(member, what)));
    }
    Ok(None)
}

/// The member's wait ends, where it may. Tells whether it may.
fn pass(team: &mut Team, member: u32) -> bool {
    if member < team.size() && team.may_pass(member, 0) {
        team.pass(member);
        return true;
    }
    false
}

/// Members of a team of three and the chunks of a loop that they get, one behind the other.
type Dealt = &'static [(u32, Option<(u64, u64)>)];

/// How many iterations a loop has, how they are dealt, and its chunks.
const LOOPS: &[(u64, Schedule, Dealt)] = &[
    (
        10,
        Schedule::Guided(1),
        &[
            (0, Some((0, 4))),
            (1, Some((4, 2))),
            (2, Some((6, 2))),
            (0, Some((8, 1))),
            (1, Some((9, 1))),
            (2, None),
        ],
    ),
    (
        7,
        Schedule::Static(0),
        &[
            (0, Some((0, 3))),
            (1, Some((3, 3))),
            (2, Some((6, 1))),
            (0, None),
            (1, None),
            (2, None),
        ],
    ),
    (
        7,
        Schedule::Static(2),
        &[
            (0, Some((0, 2))),
            (0, Some((6, 1))),
            (0, None),
            (1, Some((2, 2))),
            (1, None),
            (2, Some((4, 2))),
            (2, None),
        ],
    ),
    (
        9,
        Schedule::Dynamic(1),
        &[(0, Some((0, 1))), (1, Some((1, 1))), (1, Some((2, 1)))],
    ),
    (
        u64::MAX,
        Schedule::Static(0),
        &[
            (0, Some((0, u64::MAX / 3))),
            (2, Some((u64::MAX / 3 * 2, u64::MAX / 3))),
            (2, None),
        ],
    ),
];

#[test]
fn guided_chunks(rt: HostRuntime) -> Result<(), Fail> {
    for (row, (count, schedule, dealt)) in LOOPS.iter().enumerate() {
        let is_as_told = deals(rt.alloc(), loop_of(*count, *schedule), dealt)?;
        assert!(rt; is_as_told, "row {row}");
    }
    Ok(())
}

/// Whether a team of three deals the chunks of this loop so.
fn deals(alloc: Global, what: Meeting, dealt: Dealt) -> Result<bool, AllocError> {
    let mut team = team_at(alloc, what)?;
    for (member, chunk) in dealt {
        if !goes(&mut team, *member, &Step::TakesChunk(*chunk))? {
            return Ok(false);
        }
    }
    Ok(true)
}

/// A team of three whose members have all met this.
fn team_at(alloc: Global, what: Meeting) -> Result<Team, AllocError> {
    let mut team = Team::new(alloc, 3)?;
    for member in 0..3 {
        let _ = meet(&mut team, member, what)?;
    }
    Ok(team)
}

/// A construct with two sections.
const SECTIONS: Meeting = Meeting::Sections { at: 1, count: 2 };

/// One with three in its place.
const OTHER: Meeting = Meeting::Sections { at: 1, count: 3 };

/// What two members do there.
const AT_SECTIONS: &[(u32, Step)] = &[
    (1, Step::Meets(SECTIONS, Ok(true))),
    (0, Step::Meets(OTHER, Err(Mismatch))),
    (0, Step::Meets(SECTIONS, Ok(false))),
    (0, Step::TakesSection(Some(0))),
    (1, Step::TakesSection(Some(1))),
    (0, Step::TakesSection(None)),
    (1, Step::TakesSection(None)),
];

/// A barrier that stands in the text.
const BARRIER: Meeting = Meeting::Barrier {
    at: 196_609,
    kind: 3,
};

/// What two members do there.
const AT_A_BARRIER: &[(u32, Step)] = &[
    (0, Step::Meets(BARRIER, Ok(true))),
    // Nobody has arrived.
    (0, Step::MayPass(0, false)),
    (0, Step::Arrives),
    // One hasn't arrived.
    (0, Step::MayPass(0, false)),
    (1, Step::Meets(BARRIER, Ok(false))),
    (1, Step::Arrives),
    // A task is unfinished.
    (1, Step::MayPass(1, false)),
    (1, Step::MayPass(0, true)),
    (1, Step::Passes),
    // The other one has passed.
    (0, Step::MayPass(1, true)),
    (0, Step::Passes),
];

#[test]
fn meetings_barriers_and_sections(rt: HostRuntime) -> Result<(), Fail> {
    let mut team = Team::new(rt.alloc(), 4)?;
    team.fit(2);
    assert!(rt; team.size() == 2);
    for steps in [AT_SECTIONS, AT_A_BARRIER, AT_A_BARRIER, AT_A_BARRIER] {
        for (number, (member, step)) in steps.iter().enumerate() {
            let is_as_told = goes(&mut team, *member, step)?;
            assert!(rt; is_as_told, "at {number}");
        }
    }
    Ok(())
}

/// A team beside plain lists.
#[derive(Drop)]
struct Both {
    team: Team,
    plain: PlainTeam,
}

/// Each step is of a member: it waits at what it met last, or goes on taking there, or meets the next.
#[test]
fn agrees_with_plain_lists(rt: HostRuntime) -> Result<(), Fail> {
    let mut draws = Draws { state: 11 };
    let mut both = both_of(rt.alloc())?;
    for step in 0..6_000u32 {
        let agree = both.agree_at(rt.alloc(), &mut draws)?;
        assert!(rt; agree, "at {step}");
    }
    assert!(rt; both.plain.met(0) > 100, "few meetings");
    Ok(())
}

/// A team of three.
fn both_of(alloc: Global) -> Result<Both, AllocError> {
    let plain = PlainTeam::new(alloc, 3)?;
    let team = Team::new(alloc, 3)?;
    Ok(Both { team, plain })
}

impl Both {
    /// A member takes a step. Tells whether both answer the same.
    fn agree_at(&mut self, alloc: Global, draws: &mut Draws) -> Result<bool, AllocError> {
        let member = draws.below(3);
        if self.plain.is_waiting(member as usize) {
            return Ok(self.wait(member, draws.below(2)));
        }
        let last = self.plain.last(member as usize);
        let taken = next_piece(&mut self.team, member, last);
        if taken != self.plain.next_piece(member as usize, last) {
            return Ok(false);
        }
        match taken {
            Some(piece) => {
                self.plain.take(member as usize, piece)?;
                Ok(true)
            }
            None => self.meet(alloc, member, draws.below(10) / 9),
        }
    }

    /// The member's wait ends where it may, or else it begins.
    fn wait(&mut self, member: u32, unfinished: u32) -> bool {
        if member >= self.team.size() {
            return false;
        }
        let plainly = self.plain.may_pass(member as usize, unfinished);
        let may_end = self.team.may_pass(member, unfinished);
        if may_end {
            self.team.pass(member);
        } else {
            self.team.arrive(member);
        }
        self.plain.wait(member as usize, may_end);
        may_end == plainly
    }

    /// The member meets the next, or now and then something else.
    fn meet(&mut self, alloc: Global, member: u32, odd: u32) -> Result<bool, AllocError> {
        let what = meeting_in(self.plain.met(member as usize), odd);
        let plainly = self.plain.meet(alloc, member as usize, what)?;
        Ok(meet(&mut self.team, member, what)? == Some(plainly))
    }
}

/// What the member takes next of what it met last: the first of it and how many, for sections one.
fn next_piece(team: &mut Team, member: u32, last: Option<Meeting>) -> Option<(u64, u64)> {
    if member >= team.size() {
        return None;
    }
    match last? {
        Meeting::Loop { .. } => team.next_chunk(member),
        Meeting::Sections { .. } => Some((u64::from(team.next_section(member)?), 1)),
        Meeting::Single { .. } | Meeting::Barrier { .. } => None,
    }
}

/// What the team meets in this place, or now and then something else.
fn meeting_in(number: usize, odd: u32) -> Meeting {
    let count = 5 + number as u64 % 31;
    match number % 6 {
        0 => loop_of(count, Schedule::Static(0)),
        1 => loop_of(count, Schedule::Guided(1 + odd % 2)),
        2 => loop_of(count, Schedule::Static(3)),
        3 => Meeting::Sections {
            at: 7 + u64::from(odd),
            count: 5,
        },
        4 => loop_of(count, Schedule::Dynamic(4)),
        _ => Meeting::Barrier {
            at: 9 + u64::from(odd),
            kind: 3,
        },
    }
}
