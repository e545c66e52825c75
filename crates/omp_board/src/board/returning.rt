//! What takes hold at the Back of an event's callback.

ghost use Rattle.std.specs.Prelude.{◌≡◌};
ghost use Rattle.omp_model.specs.Returning as returning;

use crate::board::Board;
use crate::board::arrival::is_barrier;
use crate::head::member_left;
use c_model::SyncStage;
use omp_model::{Event, ThreadStage};
use task_pool::Condition;

impl Board {
    /// The callback of the thread's event has returned, and what comes of the event takes hold.
    #[tactic(auto, unfolding(omp_model::specs::Returning::at_back))]
    pub fn back(&mut self, thread: u8, event: Event)
        ensures { self.new ≡ record self.old { world = returning.at_back self.old.world thread event } }
    {
        match event {
            Event::ThreadEnd => self.set_stage(thread, ThreadStage::Ended),
            Event::ParallelBegin { region, .. } => self.open(thread, region),
            Event::ParallelEnd { .. } => {
                let task = self.current(thread);
                self.tasks.set_forked(task, 0);
            }
            Event::MemberEnd { region, .. } => {
                let member = self.member_index(thread, region);
                let head = member_left(*self.regions.head(region), member);
                self.regions.set_head(region, head);
            }
            Event::TaskCreate {
                task,
                undeferred: true,
                ..
            } => {
                if let Some(thread) = self.threads.get_mut(thread as usize) {
                    thread.undeferred = task;
                }
            }
            Event::TaskCreate { task, .. } => {
                if let Condition::Made = self.pool.task(task).condition {
                    self.pool.ready(task);
                }
            }
            Event::TaskEnd { task } => self.finish(task),
            Event::Sync {
                kind,
                stage: SyncStage::WaitBegin,
                ..
            } => {
                if is_barrier(kind) {
                    let (region, member) = self.place_in_team(thread);
                    self.regions.arrive(region, member);
                }
            }
            _ => {}
        }
    }
}
