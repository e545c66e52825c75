//! What a team of one thread gives to its code: chunks, sections, and whether a lock is free.

ghost use Rattle.std.specs.Prelude.{◌≡◌};
ghost use Rattle.c_syntax.specs.language.Tree.{Tree};
ghost use Rattle.c_model.specs.declared.question.Answer.TheVariants as of_answer;
ghost use Rattle.c_model.specs.Answers.{AnswersFirst, IsChunkAnswer, IsSectionAnswer};
ghost use Rattle.c_model.specs.Occurring.{IsAskOfNext};
ghost use Rattle.c_steps.specs.ControlView.{task_at};
ghost use Rattle.c_steps.specs.OfProgram.{IsMadeFor};

use c_model::{Answer, Ask, Point};
use c_steps::{Code, Control};
use std::alloc::{AllocError, Global};

/// The shared work and the locks of a run of one thread.
#[derive(Drop)]
pub(crate) struct Team {
    /// How often each shared work was asked for that has begun and hasn't ended.
    works: Vec<u32>,
    /// The wait identifiers of the locks that are owned, and the numbers of criticals.
    owned: Vec<u32>,
}

impl Team {
    /// No work has begun, and no lock is owned.
    pub fn new(alloc: Global) -> Team {
        Team {
            works: Vec::new(alloc),
            owned: Vec::new(alloc),
        }
    }

    /// The answer to what the code asks.
    #[tactic(auto, using(crate::proofs::Answered::first_answers_cases), unfolding(c_model::specs::Answers::IsLockAnswer))]
    pub fn answer(&mut self, code: &Code, control: &Control, ask: Ask) -> Answer
        requires { IsMadeFor code.now control.now }
        ensures { (tree : Tree) → IsAskOfNext ask tree (task_at code.now control.now).todo →
            AnswersFirst (task_at code.now control.now).todo result }
    {
        match ask {
            Ask::Chunk => Answer::Chunk(self.next_chunk(control.asked_count(code))),
            Ask::Section => Answer::Section(self.next_section(control.asked_sections(code))),
            Ask::LockFree(id) => Answer::Free(!self.owned.contains(&id)),
        }
    }

    /// All iterations of a loop of so many, once.
    #[tactic(auto, unfolding(c_model::specs::Answers::IsChunkAnswer))]
    fn next_chunk(&mut self, count: u64) -> Option<(u64, u64)>
        ensures { IsChunkAnswer count (of_answer.Chunk result) }
    {
        if self.take() == 0 && count > 0 {
            Some((0, count))
        } else {
            None
        }
    }

    /// The next of so many sections.
    #[tactic(auto, unfolding(c_model::specs::Answers::IsSectionAnswer))]
    fn next_section(&mut self, count: u32) -> Option<u32>
        ensures { IsSectionAnswer count (of_answer.Section result) }
    {
        let number = self.take();
        if number < count { Some(number) } else { None }
    }

    /// The work that began last is asked for. Says how often it was before.
    fn take(&mut self) -> u32 {
        let Some(asked) = self.works.last_mut() else {
            return 0;
        };
        let before = *asked;
        *asked = before.saturating_add(1);
        before
    }

    /// What an event says of shared work and locks.
    pub fn follow(&mut self, point: Point) -> Result<(), AllocError> {
        match point {
            Point::WorkBegin { .. } => self.works.push(0)?,
            Point::WorkEnd { .. } => {
                let _ended = self.works.pop();
            }
            Point::MutexAcquired { wait_id, .. } => self.owned.push(wait_id)?,
            Point::MutexReleased { wait_id, .. } => self.give_back(wait_id),
            _ => {}
        }
        Ok(())
    }

    /// A lock or critical is given back.
    fn give_back(&mut self, wait_id: u32) {
        if let Some(place) = self.owned.iter().position(|id| *id == wait_id) {
            let _given_back = self.owned.swap_remove(place);
        }
    }
}
