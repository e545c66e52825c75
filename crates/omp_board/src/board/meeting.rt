//! The members of a team: that they begin, and what they meet at events of their code.

ghost use Rattle.std.specs.Prelude.{◌≡◌};
ghost use Rattle.team_parts.specs.Meetings.{HasChunk};
ghost use Rattle.omp_model.specs.Changes as changes;
ghost use Rattle.omp_model.specs.EventEffects as effects;

use crate::board::Board;
use crate::head::member_begun;
use c_model::{Schedule, SyncKind, Work};
use omp_codes::sync_kinds;
use team_parts::{Meeting, Mismatch, Schedule as Dealt};

impl Board {
    /// The member with this number has begun, with this implicit task.
    pub(super) fn begin_member(&mut self, region: u32, member: u8, task: u32)
        ensures { self.new ≡ record self.old { world = changes.member_begun self.old.world region member task } }
    {
        let head = member_begun(*self.regions.head(region), member, task);
        self.regions.set_head(region, head);
    }

    /// What the team of the thread's region answers where the thread meets this next.
    #[inline(always)]
    pub(super) fn meeting_answer(&self, thread: u8, what: Meeting) -> Result<bool, Mismatch>
        ensures { result ≡ effects.meeting_at self.now.world thread what }
    {
        let (region, member) = self.place_in_team(thread);
        self.regions.meeting_answer(region, member, what)
    }
}

/// How a loop is dealt. A chunk that goes to whoever asks has at least one iteration.
fn dealt_by(schedule: Schedule) -> Dealt
    ensures { result ≡ effects.dealt_by schedule }
{
    match schedule {
        Schedule::Static(size) => Dealt::Static(size),
        Schedule::Dynamic(size) => Dealt::Dynamic(size.max(1)),
        Schedule::Guided(size) => Dealt::Guided(size.max(1)),
    }
}

/// What is met at the begin of a worksharing construct at this place.
pub(super) fn work_met(codeptr: u64, work: Work) -> Meeting
    ensures met { result ≡ effects.work_met codeptr work }
    ensures chunk { HasChunk result }
{
    match work {
        Work::Loop {
            start,
            count,
            step,
            schedule,
        } => Meeting::Loop {
            at: codeptr,
            start,
            count,
            step,
            schedule: dealt_by(schedule),
        },
        Work::Sections(count) => Meeting::Sections { at: codeptr, count },
        Work::Single => Meeting::Single { at: codeptr },
    }
}

/// What is met at a barrier at this place.
pub(super) fn barrier_met(codeptr: u64, kind: SyncKind) -> Meeting
    ensures met { result ≡ effects.barrier_met codeptr kind }
    ensures chunk { HasChunk result }
{
    Meeting::Barrier {
        at: codeptr,
        kind: sync_number(kind),
    }
}

/// The number of a kind of synchronisation (`ompt_sync_region_t`, OpenMP 5.2, 19.4.4.14).
pub fn sync_number(kind: SyncKind) -> u32
    ensures { result ≡ effects.sync_number kind }
{
    match kind {
        SyncKind::Barrier => sync_kinds::BARRIER_EXPLICIT,
        SyncKind::Taskwait => sync_kinds::TASKWAIT,
        SyncKind::Worksharing => sync_kinds::BARRIER_IMPLICIT_WORKSHARE,
        SyncKind::Parallel => sync_kinds::BARRIER_IMPLICIT_PARALLEL,
    }
}
