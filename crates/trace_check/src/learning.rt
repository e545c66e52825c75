//! What an event adds to what is kept.

ghost use Rattle.std.specs.Prelude.{◌≡◌, ◌∷◌, ◌||◌, ℕ, List, None, OnErr, OnOk, Some, is_some, true, false};
ghost use Rattle.std.specs.Ordering.{nat_cmp};
ghost use Rattle.std.specs.BTreeMap.{get};
ghost use Rattle.trace_check.specs.Brackets.{change_of};
ghost use Rattle.trace_check.specs.declared.change.Change.TheVariants.{Opens, Stays};
ghost use Rattle.ompt_calls.specs.declared.event.EventRecord.{EventRecord};
ghost use Rattle.trace_check.specs.Before.{creation_of, is_end, join_of, region_begun, task_started, waiter};
ghost use Rattle.trace_check.specs.Checking.{IsKnown, Learns, LearnsNothing, LearnsOf, PutsChildren, Unbroken, asked_in, current_after, is_opening};
ghost use Rattle.trace_check.specs.Rules.{first_broken};

use crate::bracket::Bracket;
use crate::change::{Change, change_of, is_end};
use crate::kept::Kept;
use crate::keys::{bracket_key, member_key};
use crate::putting::{put_created, put_member, put_region, put_thread};
use crate::teams::{INITIAL_TASK, is_barrier};
use crate::things::{Asked, Created, Current, Member, Opened, Region, Seat, Thread};
use omp_codes::task_flags::INITIAL;
use ompt_calls::{Call, EventRecord};
use std::alloc::AllocError;

impl Kept {
    /// Learns of an event that breaks no rule. Where it finds no memory, or a count would pass the greatest value, all is known as before.
    pub fn learn(&mut self, event: &EventRecord) -> Result<(), AllocError>
        ensures learned { OnOk result ((past : List EventRecord) → IsKnown self.old past → Unbroken past →
            first_broken past event.now ≡ None →
            IsKnown self.new (event.now ∷ past)) }
        ensures unchanged { OnErr result ((past : List EventRecord) → IsKnown self.old past → Unbroken past →
            IsKnown self.new past) }
    {
        let Some(thread) = self.threads.get(&event.thread).copied() else {
            self.threads.insert(event.thread, Thread::begun())?;
            return Ok(());
        };
        match change_of(&event.call) {
            Change::Opens(bracket) => self.open(event, thread, bracket),
            Change::Closes(_) => {
                self.close(event, thread);
                Ok(())
            }
            Change::Stays => self.stay(event, thread),
        }
    }

    /// Learns of an event that opens a bracket.
    fn open(
        &mut self,
        event: &EventRecord,
        thread: Thread,
        bracket: Bracket,
    ) -> Result<(), AllocError>
        requires known { get nat_cmp self.old.threads event.now.thread ≡ Some thread }
        requires opens { change_of event.now.call ≡ Opens bracket }
        ensures learned { OnOk result ((past : List EventRecord) → IsKnown self.old past → Unbroken past →
            first_broken past event.now ≡ None →
            IsKnown self.new (event.now ∷ past)) }
        ensures unchanged { OnErr result ((past : List EventRecord) → IsKnown self.old past → Unbroken past →
            IsKnown self.new past) }
    {
        let depth = thread.depth.checked_add(1).ok_or(AllocError)?;
        let key = bracket_key(event.thread, thread.depth);
        let opened = Opened {
            bracket,
            before: thread.current,
        };
        self.brackets.insert(key, opened)?;
        if let Err(error) = self.enter(event, thread.current) {
            let _opened = self.brackets.remove(&key);
            return Err(error);
        }
        let next = Thread {
            current: current_after(&event.call, thread.current),
            depth,
            ..thread.after(&event.call)
        };
        put_thread(&mut self.threads, event.thread, next);
        Ok(())
    }

    /// Learns of an event that leaves the brackets as they are.
    fn stay(&mut self, event: &EventRecord, thread: Thread) -> Result<(), AllocError>
        requires known { get nat_cmp self.old.threads event.now.thread ≡ Some thread }
        requires stays { change_of event.now.call ≡ Stays }
        ensures learned { OnOk result ((past : List EventRecord) → IsKnown self.old past → Unbroken past →
            first_broken past event.now ≡ None →
            IsKnown self.new (event.now ∷ past)) }
        ensures unchanged { OnErr result ((past : List EventRecord) → IsKnown self.old past → Unbroken past →
            IsKnown self.new past) }
    {
        self.note(event, thread.current)?;
        put_thread(&mut self.threads, event.thread, thread.after(&event.call));
        Ok(())
    }

    /// Learns what an event that leaves the brackets tells of tasks, and of what is held.
    fn note(&mut self, event: &EventRecord, current: Option<Current>) -> Result<(), AllocError>
        requires stays { change_of event.now.call ≡ Stays }
        ensures threads { self.new.threads ≡ self.old.threads }
        ensures brackets { self.new.brackets ≡ self.old.brackets }
        ensures learned { OnOk result (LearnsOf current self.old self.new event.now) }
        ensures unchanged { OnErr result (LearnsNothing self.old self.new) }
    {
        match &event.call {
            Call::TaskCreate { fresh, .. } => self.create(fresh.identity, current),
            Call::MutexAcquired { wait_id, .. } => {
                self.held.insert(*wait_id, event.thread)?;
                Ok(())
            }
            Call::MutexReleased { wait_id, .. } => {
                let _holder = self.held.remove(wait_id);
                Ok(())
            }
            _ => Ok(()),
        }
    }

    /// Learns what the begin of a bracket tells of regions and tasks.
    fn enter(&mut self, event: &EventRecord, current: Option<Current>) -> Result<(), AllocError>
        requires opens { is_opening (change_of event.now.call) ≡ true }
        ensures threads { self.new.threads ≡ self.old.threads }
        ensures brackets { self.new.brackets ≡ self.old.brackets }
        ensures learned { OnOk result (LearnsOf current self.old self.new event.now) }
        ensures unchanged { OnErr result (LearnsNothing self.old self.new) }
    {
        match &event.call {
            Call::ParallelBegin { region, .. } => self.begin_region(region.identity),
            Call::ImplicitTask {
                region,
                task,
                actual,
                index,
                flags,
                ..
            } => {
                if *flags == INITIAL {
                    return Ok(());
                }
                let seat = Seat {
                    region: region.identity,
                    index: *index,
                };
                self.join(seat, task.identity, *actual)
            }
            Call::TaskSchedule { next, .. } => {
                self.start(next.identity);
                Ok(())
            }
            Call::SyncRegionWait { kind, .. } => {
                if is_barrier(*kind) {
                    self.begin_wait(current)
                } else {
                    Ok(())
                }
            }
            _ => Ok(()),
        }
    }

    /// A region begins.
    fn begin_region(&mut self, region: u32) -> Result<(), AllocError>
        ensures threads { self.new.threads ≡ self.old.threads }
        ensures brackets { self.new.brackets ≡ self.old.brackets }
        ensures learned { OnOk result ((event : EventRecord) → region_begun event.call ≡ Some region →
            Learns self.old self.new event) }
        ensures unchanged { OnErr result (LearnsNothing self.old self.new) }
    {
        let begun = Region {
            actual: None,
            had: 0,
            waited: 0,
        };
        self.regions.insert(region, begun)?;
        self.greatest_region = region;
        Ok(())
    }

    /// An implicit task joins a region.
    fn join(&mut self, seat: Seat, task: u32, actual: u32) -> Result<(), AllocError>
        ensures threads { self.new.threads ≡ self.old.threads }
        ensures brackets { self.new.brackets ≡ self.old.brackets }
        ensures learned { OnOk result ((event : EventRecord) →
            join_of event.call ≡ Some (record {
              region = seat.region;
              task = task;
              actual = actual;
              index = seat.index;
            }) →
            Learns self.old self.new event) }
        ensures unchanged { OnErr result (LearnsNothing self.old self.new) }
    {
        let Some(open) = self.regions.get(&seat.region).copied() else {
            return Ok(());
        };
        let had = open.had.checked_add(1).ok_or(AllocError)?;
        let member = Member {
            task,
            left: false,
            waits: 0,
            children: 0,
        };
        self.members
            .insert(member_key(seat.region, seat.index), member)?;
        let joined = Region {
            actual: Some(actual),
            had,
            // The new one has begun none.
            waited: 0,
        };
        put_region(&mut self.regions, seat.region, joined);
        self.greatest_task = task;
        Ok(())
    }

    /// A thread goes to a created task.
    fn start(&mut self, task: u32)
        ensures threads { self.new.threads ≡ self.old.threads }
        ensures brackets { self.new.brackets ≡ self.old.brackets }
        ensures learned { (event : EventRecord) → task_started event.call ≡ Some task → Learns self.old self.new event }
    {
        if let Some(created) = self.created.get(&task).copied() {
            let started = Created {
                started: true,
                ..created
            };
            put_created(&mut self.created, task, started);
        }
    }

    /// The task that a thread runs begins a wait at a barrier.
    fn begin_wait(&mut self, current: Option<Current>) -> Result<(), AllocError>
        ensures threads { self.new.threads ≡ self.old.threads }
        ensures brackets { self.new.brackets ≡ self.old.brackets }
        ensures learned { OnOk result ((event : EventRecord) → is_some (waiter event.call) ≡ true →
            LearnsOf current self.old self.new event) }
        ensures unchanged { OnErr result (LearnsNothing self.old self.new) }
    {
        let Some(current) = current else {
            return Ok(());
        };
        let Some(seat) = current.seat else {
            return Ok(());
        };
        let key = member_key(seat.region, seat.index);
        let Some(member) = self.members.get(&key).copied() else {
            return Ok(());
        };
        let waits = member.waits.checked_add(1).ok_or(AllocError)?;
        put_member(&mut self.members, key, Member { waits, ..member });
        Ok(())
    }

    /// The task that a thread runs creates a task.
    fn create(&mut self, task: u32, creator: Option<Current>) -> Result<(), AllocError>
        ensures threads { self.new.threads ≡ self.old.threads }
        ensures brackets { self.new.brackets ≡ self.old.brackets }
        ensures learned { OnOk result ((event : EventRecord) → (before : ℕ) →
            creation_of event.call ≡ Some (record { creator = before; task = task }) →
            LearnsOf creator self.old self.new event) }
        ensures unchanged { OnErr result (LearnsNothing self.old self.new) }
    {
        let Some(creator) = creator else {
            return Ok(());
        };
        let children = self.children_of(creator).checked_add(1).ok_or(AllocError)?;
        let created = Created {
            creator,
            started: false,
            children: 0,
        };
        self.created.insert(task, created)?;
        self.put_children(creator, children);
        self.greatest_task = task;
        Ok(())
    }

    /// So many of the tasks that this one created aren't complete.
    pub fn put_children(&mut self, creator: Current, children: u64)
        ensures threads { self.new.threads ≡ self.old.threads }
        ensures brackets { self.new.brackets ≡ self.old.brackets }
        ensures puts { PutsChildren self.old self.new creator children }
    {
        if creator.task == INITIAL_TASK {
            self.children = children;
            return;
        }
        match creator.seat {
            Some(seat) => {
                let key = member_key(seat.region, seat.index);
                if let Some(member) = self.members.get(&key).copied() {
                    put_member(&mut self.members, key, Member { children, ..member });
                }
            }
            None => {
                if let Some(created) = self.created.get(&creator.task).copied() {
                    put_created(
                        &mut self.created,
                        creator.task,
                        Created {
                            children,
                            ..created
                        },
                    );
                }
            }
        }
    }
}

/// The task that a thread runs after the begin of a bracket, with the one that it ran before.
fn current_after(call: &Call, before: Option<Current>) -> Option<Current>
    ensures { result ≡ current_after call.now before }
{
    match call {
        Call::ImplicitTask {
            region,
            task,
            index,
            flags,
            ..
        } => {
            let seat = if *flags == INITIAL {
                None
            } else {
                Some(Seat {
                    region: region.identity,
                    index: *index,
                })
            };
            Some(Current {
                task: task.identity,
                seat,
            })
        }
        Call::TaskSchedule { next, .. } => Some(Current {
            task: next.identity,
            seat: None,
        }),
        _ => before,
    }
}

impl Thread {
    /// A thread that had its begin.
    fn begun() -> Thread
        ensures { result ≡ record { ended = false; later = false; asked = None; current = None; depth = 0 } }
    {
        Thread {
            ended: false,
            later: false,
            asked: None,
            current: None,
            depth: 0,
        }
    }

    /// The thread after a later event, which leaves its brackets as they are.
    pub fn after(self, call: &Call) -> Thread
        ensures ended { result.ended ≡ self.ended || is_end call.now }
        ensures later { result.later ≡ true }
        ensures asked { result.asked ≡ asked_in (Some call.now) }
        ensures current { result.current ≡ self.current }
        ensures depth { result.depth ≡ self.depth }
    {
        let asked = match call {
            Call::MutexAcquire { kind, wait_id, .. } => Some(Asked {
                kind: *kind,
                wait_id: *wait_id,
            }),
            _ => None,
        };
        Thread {
            ended: self.ended || is_end(call),
            later: true,
            asked,
            ..self
        }
    }
}
