//! What the end of a bracket takes from what is kept.

ghost use Rattle.std.specs.Prelude.{◌≡◌, ◌∷◌, List, None, Some, is_some, true};
ghost use Rattle.std.specs.Ordering.{nat_cmp};
ghost use Rattle.std.specs.BTreeMap.{get};
ghost use Rattle.ompt_calls.specs.declared.event.EventRecord.{EventRecord};
ghost use Rattle.trace_check.specs.Brackets.{change_of};
ghost use Rattle.trace_check.specs.Before.{left_task, region_ended, task_completed};
ghost use Rattle.trace_check.specs.Checking.{IsKnown, Learns, LearnsOf, Unbroken, is_closing, passes_barrier};
ghost use Rattle.trace_check.specs.Rules.{first_broken};

use crate::kept::Kept;
use crate::keys::{bracket_key, member_key};
use crate::putting::{put_member, put_region, put_thread};
use crate::teams::is_barrier;
use crate::things::{Current, Member, Region, Thread};
use ompt_calls::{Call, EventRecord};

impl Kept {
    /// Learns of an event that closes a bracket.
    pub fn close(&mut self, event: &EventRecord, thread: Thread)
        requires known { get nat_cmp self.old.threads event.now.thread ≡ Some thread }
        requires closes { is_closing (change_of event.now.call) ≡ true }
        ensures learned { (past : List EventRecord) → IsKnown self.old past → Unbroken past →
            first_broken past event.now ≡ None →
            IsKnown self.new (event.now ∷ past) }
    {
        let depth = thread.depth.saturating_sub(1);
        let opened = self.brackets.remove(&bracket_key(event.thread, depth));
        self.leave(event, thread.current);
        let next = Thread {
            current: match opened {
                Some(opened) => opened.before,
                None => None,
            },
            depth,
            ..thread.after(&event.call)
        };
        put_thread(&mut self.threads, event.thread, next);
    }

    /// Learns what the end of a bracket tells of regions and tasks.
    fn leave(&mut self, event: &EventRecord, current: Option<Current>)
        requires closes { is_closing (change_of event.now.call) ≡ true }
        ensures threads { self.new.threads ≡ self.old.threads }
        ensures brackets { self.new.brackets ≡ self.old.brackets }
        ensures learned { LearnsOf current self.old self.new event.now }
    {
        match &event.call {
            Call::ParallelEnd { region, .. } => self.end_region(region.identity),
            Call::ImplicitTask { .. } => self.leave_team(current),
            Call::TaskSchedule { prior, .. } => self.complete(prior.identity),
            Call::SyncRegionWait { kind, .. } => {
                if is_barrier(*kind) {
                    self.pass(current);
                }
            }
            _ => {}
        }
    }

    /// A region ends, and its implicit tasks are forgotten.
    fn end_region(&mut self, region: u32)
        ensures threads { self.new.threads ≡ self.old.threads }
        ensures brackets { self.new.brackets ≡ self.old.brackets }
        ensures learned { (event : EventRecord) → region_ended event.call ≡ Some region →
            Learns self.old self.new event }
    {
        let Some(ended) = self.regions.remove(&region) else {
            return;
        };
        let Some(actual) = ended.actual else {
            return;
        };
        for index in 0..actual {
            let _member = self.members.remove(&member_key(region, index));
        }
    }

    /// The implicit task that a thread runs ends.
    fn leave_team(&mut self, current: Option<Current>)
        ensures threads { self.new.threads ≡ self.old.threads }
        ensures brackets { self.new.brackets ≡ self.old.brackets }
        ensures learned { (event : EventRecord) → is_some (left_task event.call) ≡ true →
            LearnsOf current self.old self.new event }
    {
        let Some(current) = current else {
            return;
        };
        let Some(seat) = current.seat else {
            return;
        };
        let key = member_key(seat.region, seat.index);
        if let Some(member) = self.members.get(&key).copied() {
            put_member(
                &mut self.members,
                key,
                Member {
                    left: true,
                    ..member
                },
            );
        }
    }

    /// A created task is complete.
    fn complete(&mut self, task: u32)
        ensures threads { self.new.threads ≡ self.old.threads }
        ensures brackets { self.new.brackets ≡ self.old.brackets }
        ensures learned { (event : EventRecord) → task_completed event.call ≡ Some task →
            Learns self.old self.new event }
    {
        if let Some(created) = self.created.remove(&task) {
            let children = self.children_of(created.creator);
            self.put_children(created.creator, children.saturating_sub(1));
        }
    }

    /// The implicit task that a thread runs passes a barrier: each of its team has begun as many waits as it has.
    fn pass(&mut self, current: Option<Current>)
        ensures threads { self.new.threads ≡ self.old.threads }
        ensures brackets { self.new.brackets ≡ self.old.brackets }
        ensures learned { (event : EventRecord) → passes_barrier event.call ≡ true →
            LearnsOf current self.old self.new event }
    {
        let Some(
            Current {
                seat: Some(seat),
                ..
            },
        ) = current
        else {
            return;
        };
        let Some(member) = self
            .members
            .get(&member_key(seat.region, seat.index))
            .copied()
        else {
            return;
        };
        if let Some(open) = self.regions.get(&seat.region).copied() {
            put_region(
                &mut self.regions,
                seat.region,
                Region {
                    waited: member.waits,
                    ..open
                },
            );
        }
    }
}
