//! The data words of threads, regions and tasks, and what is told of a run.

ghost use Rattle.std.specs.Prelude.{◌≡◌};
ghost use Rattle.omp_model.specs.Cause as cause;
ghost use Rattle.omp_model.specs.Words as words;

use crate::board::Board;
use crate::board::arrival::is_out;
use omp_model::{INITIAL_TASK, ThreadStage};
use ompt_calls::{Target, Word};

impl Board {
    /// The data word of the thread, with what was last stored into it.
    pub fn thread_word(&self, thread: u8) -> Word
        ensures { result ≡ words.thread_word self.now.world thread }
    {
        let value = match self.threads.get(thread as usize) {
            Some(thread) => thread.word,
            None => 0,
        };
        Word {
            identity: u32::from(thread) + 1,
            value,
        }
    }

    /// The data word of the region, with what was last stored into it.
    pub fn region_word(&self, region: u32) -> Word
        ensures { result ≡ words.region_word self.now.world region }
    {
        Word {
            identity: region,
            value: self.regions.head(region).word,
        }
    }

    /// The data word of the task, with what was last stored into it.
    pub fn task_word(&self, task: u32) -> Word
        ensures { result ≡ words.task_word self.now.world task }
    {
        Word {
            identity: task,
            value: self.tasks.word(task),
        }
    }

    /// Whether the thread, region or task was made whose data word this is.
    pub fn is_made(&self, target: Target) -> bool
        ensures { result ≡ words.is_made self.now.world target }
    {
        match target {
            Target::Thread(thread) => match self.threads.get(thread as usize) {
                Some(thread) => !matches!(thread.stage, ThreadStage::Unmade),
                None => false,
            },
            Target::Parallel(region) => 0 < region && region < self.regions.next(),
            Target::Task(task) => 0 < task && task < self.tasks.next(),
        }
    }

    /// This is stored into the data word of the thread, region or task.
    pub fn store(&mut self, target: Target, word: u64)
        ensures { self.new ≡ record self.old { world = words.stored self.old.world target word } }
    {
        match target {
            Target::Thread(thread) => {
                if let Some(thread) = self.threads.get_mut(thread as usize) {
                    thread.word = word;
                }
            }
            Target::Parallel(region) => {
                let mut head = *self.regions.head(region);
                head.word = word;
                self.regions.set_head(region, head);
            }
            Target::Task(task) => self.tasks.store_word(task, word),
        }
    }

    /// Main's value, where every thread that was made has ended and main returned.
    pub fn whole_value(&self) -> Option<i32>
        ensures { result ≡ cause.whole_value self.now.world }
    {
        if self.threads_over() && self.main_returned() {
            let (_, control) = self.tasks.code_of(INITIAL_TASK);
            Some(control.returned().unwrap_or(0))
        } else {
            None
        }
    }

    /// Whether every thread that was made has ended.
    fn threads_over(&self) -> bool
        ensures { result ≡ cause.threads_over self.now.world }
    {
        self.threads.iter().all(|thread| is_out(thread.stage))
    }

    /// The bytes that were printed.
    pub fn text(&self) -> &[u8]
        ensures { result.now ≡ self.now.world.store.text }
    {
        self.tasks.text()
    }

    /// The bytes that were printed, and nothing else is kept.
    pub fn into_text(self) -> Vec<u8>
        ensures { result.items ≡ self.world.store.text }
    {
        self.tasks.into_text()
    }
}
