//! What follows from the definitions alone: each law is the contract of a function with an empty body.

ghost use Rattle.std.specs.Prelude.{ℕ, ◌≤◌, List, length, IsTrue, ◌↔◌};
ghost use Rattle.task_pool.specs.declared.task.Task.{Task};
ghost use Rattle.task_pool.specs.Allowed.{descends, Descends, ParentsComeFirst};

/// Where each task was made after its parent, the test that computes says which task descends from which other one.
pub fn descending_is_reachability()
    ensures { (tasks : List Task) (task from : ℕ) → ParentsComeFirst tasks → 1 ≤ task → task ≤ length tasks →
        (IsTrue (descends tasks task from) ↔ Descends tasks task from) }
{}
