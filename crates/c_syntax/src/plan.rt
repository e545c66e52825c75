//! The steps that are left.

ghost use Rattle.std.specs.Prelude.{◌≡◌, [], ◌∷◌, ◌++◌, IfOk, OnOk, MatchOption};

use crate::grammar::Step;
use std::alloc::{AllocError, Global};
use std::marker::Model;

/// The steps that are left, which contracts see in order, the next one first.
#[derive(Drop)]
pub struct Plan {
    /// The steps, the next one last.
    steps: Vec<Step>,
}

impl Model for Plan {
    ghost use Rattle.std.specs.Prelude.{List, reverse};
    ghost use Rattle.c_syntax.specs.declared.grammar.Step.{Step};

    ghost Value = { List Step };

    ghost view = { λ plan. reverse plan.steps.items };
}

impl Plan {
    /// One step.
    pub fn of(alloc: Global, step: Step) -> Result<Plan, AllocError>
        ensures { IfOk result (λ plan. plan ≡ step ∷ []) }
    {
        let mut steps = Vec::new(alloc);
        steps.push(step)?;
        Ok(Plan { steps })
    }

    /// Takes the next step off.
    pub fn next(&mut self) -> Option<Step>
        ensures { MatchOption result ((self.old ≡ []) × (self.new ≡ [])) (λ step. self.old ≡ step ∷ self.new) }
    {
        self.steps.pop()
    }

    /// Puts steps before those that are left.
    pub fn begin(&mut self, steps: &[Step]) -> Result<(), AllocError>
        ensures { OnOk result (self.new ≡ steps.now ++ self.old) }
    {
        let mut rest = steps;
        while let Some((step, front)) = rest.split_last() {
            self.steps.push(*step)?;
            rest = front;
        }
        Ok(())
    }
}
