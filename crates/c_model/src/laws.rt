//! What follows from the definitions alone: each law is the contract of a function with an empty body.

ghost use Rattle.std.specs.Prelude.{◌≡◌, ◌<◌, ◌≤◌, ◌++◌, ℕ, ℤ, Bool, List, [], length, Ok, pos, unwrap_or};
ghost use Rattle.std.specs.List.{All, Contains};
ghost use Rattle.c_syntax.specs.language.Productions.{IsProgram, depth_limit};
ghost use Rattle.c_syntax.specs.language.Numbered.{TreeView, root_tree};
ghost use Rattle.c_syntax.specs.language.Words.{Word};
ghost use Rattle.c_syntax.specs.language.Tree.{Tree as Part, name_of};
ghost use Rattle.c_model.specs.declared.view.View.{View as Seen};
ghost use Rattle.c_model.specs.declared.entry.Entry.{Entry};
ghost use Rattle.c_model.specs.declared.point.Point.{Point as Event};
ghost use Rattle.c_model.specs.declared.point.Point.TheVariants.{TaskCreate};
ghost use Rattle.c_model.specs.declared.question.Answer.{Answer as Given};
ghost use Rattle.c_model.specs.declared.question.Ask.{Ask as Asked};
ghost use Rattle.c_check.specs.Checked.{Checked};
ghost use Rattle.c_model.specs.Answers.{Answers, AsksFor};
ghost use Rattle.c_model.specs.Begin.{explicit_task, first_store, main_task, member_task};
ghost use Rattle.c_model.specs.AfterEvents.{after_answer, after_event};
ghost use Rattle.c_model.specs.Task.{Moment, Task};
ghost use Rattle.c_model.specs.Task.Outcome.{Asks, Ends, Occurs, StepsTo};
ghost use Rattle.c_model.specs.NextIsEvent.{FitsTask};
ghost use Rattle.c_model.specs.TrapsAndLimits.{IsKnown};
ghost use Rattle.c_model.specs.Occurring.{IsAskOfNext, IsOfNext, IsTreeOfNext};
ghost use Rattle.c_model.specs.Step.{settled_moment, settled_task, silent, stands};
ghost use Rattle.c_model.specs.Width.{IsWithin};
ghost use Rattle.c_model.specs.Cells.{entry_of, first_named};
ghost use Rattle.c_model.specs.Parts.{parts};
ghost use Rattle.c_model.specs.Program.{function_named};
ghost use Rattle.c_model.specs.Value.{Scope, cell_of, value};
ghost use Rattle.c_model.specs.Formed.{IsProgramFormed};
ghost use Rattle.c_model.specs.UsedCells.{AreCopiesInScope, IsMade, IsTaskMade};
ghost use Rattle.c_model.specs.Scoped.{IsCallable, IsScoped, IsWellScoped, Knows, Sees, names_of};

/// What stands next tells by its form alone, without cells, whether an event or the end comes: then nothing is a silent step and
/// nothing is asked, and else no event occurs and the code doesn't end. A trap or a limit may come in both cases.
#[tactic(auto, using(crate::proofs::Standing::stands_fits))]
pub fn standing_is_told_by_form()
    ensures { (program : TreeView) (view : Seen) (now : Moment) →
        FitsTask (silent program view now) (stands view now.task) }
{}

/// A task comes to the same whether or not it has left out what it goes past, goes on the same behind an answer and behind an event, and
/// creates the same task.
#[tactic(auto, using(crate::proofs::Settled::settled_cases))]
pub fn settling_changes_nothing()
    ensures same_step { (program : TreeView) (view : Seen) (now : Moment) →
        silent program view (settled_moment view now) ≡ silent program view now }
    ensures same_after_answer { (view : Seen) (given : Given) (now : Moment) →
        after_answer view given (settled_moment view now) ≡ after_answer view given now }
    ensures same_after_event { (view : Seen) (point : Event) (executes : Bool) (task : Task) →
        after_event view point executes (settled_task view task) ≡ after_event view point executes task }
    ensures same_task { (program : TreeView) (view : Seen) (now : Moment) →
        explicit_task program view (settled_moment view now) ≡ explicit_task program view now }
{}

/// A task for which nothing is left has ended, with the value of its last call, or 0, and no other task has.
#[tactic(auto, using(crate::proofs::Settled::ended_silent, crate::proofs::Standing::end_is_of_nothing))]
pub fn ended_code_has_no_step()
    ensures ended { (program : TreeView) (view : Seen) (now : Moment) → now.task.todo ≡ [] →
        silent program view now ≡ Ends (unwrap_or now.task.returned (pos 0)) }
    ensures none_left { (program : TreeView) (view : Seen) (now : Moment) (number : ℤ) →
        silent program view now ≡ Ends number →
        (settled_task view now.task).todo ≡ [] }
{}

/// What a task's code traps with is one of the three traps of expressions, and the limits that it meets are those of cells, of open calls
/// and of printed text.
#[tactic(auto, using(crate::proofs::KnownOutcomes::known_silent))]
pub fn traps_and_limits_are_known()
    ensures { (program : TreeView) (view : Seen) (now : Moment) → IsKnown (silent program view now) }
{}

/// What is answered was asked, with an answer of that kind.
#[tactic(auto, using(crate::proofs::Answers::answered_asks))]
pub fn answers_are_asked_for()
    ensures { (program : TreeView) (view : Seen) (given : Given) (now : Moment) → Answers view now.task given →
        AsksFor (silent program view now) given }
{}

/// An event is of what stands next: which events an item may have is told by its form, and by the stage of a barrier or the kind of a lock.
/// It stands at the construct or directive of that item, or at the call in it.
#[tactic(auto, using(crate::proofs::Occurring::event_is_of_next, crate::proofs::Occurring::event_is_at_next))]
pub fn events_are_of_what_stands_next()
    ensures of_next { (program : TreeView) (view : Seen) (now : Moment) (point : Event) (tree : Part) →
        silent program view now ≡ Occurs point tree → IsOfNext point (settled_task view now.task).todo }
    ensures tree { (program : TreeView) (view : Seen) (now : Moment) (point : Event) (tree : Part) →
        silent program view now ≡ Occurs point tree → IsTreeOfNext tree (settled_task view now.task).todo }
{}

/// A question is asked by what stands next: a loop's next chunk in that loop, the next section in that construct, and whether a lock is free
/// in the call that tests it.
#[tactic(auto, using(crate::proofs::Asking::question_is_of_next))]
pub fn questions_are_of_what_stands_next()
    ensures { (program : TreeView) (view : Seen) (now : Moment) (ask : Asked) (tree : Part) →
        silent program view now ≡ Asks ask tree → IsAskOfNext ask tree (settled_task view now.task).todo }
{}

/// No task ever has more names in scope than the program's width, neither now nor in a function that goes on behind a call: main begins so, and
/// it stays so in each silent step, behind each answer and behind each event of what stands next. The code of a member of a team and of an
/// explicit task begins so, where the task that forks the region or creates the task is so.
pub fn no_environment_grows_past_the_width()
    ensures main { (program : TreeView) → IsWithin program (main_task program) }
    ensures step { (program : TreeView) (view : Seen) (now next : Moment) → IsWithin program now.task →
        silent program view now ≡ StepsTo next → IsWithin program next.task }
    ensures answer { (program : TreeView) (view : Seen) (given : Given) (now : Moment) → IsWithin program now.task →
        IsWithin program (after_answer view given now).task }
    ensures event { (program : TreeView) (view : Seen) (point : Event) (executes : Bool) (task : Task) →
        IsWithin program task →
        IsOfNext point (settled_task view task).todo → IsWithin program (after_event view point executes task) }
    ensures member { (program : TreeView) (task : Task) → IsWithin program task → IsWithin program (member_task task) }
    ensures explicit { (program : TreeView) (view : Seen) (now : Moment) → IsWithin program now.task →
        IsWithin program (explicit_task program view now).task }
    ensures settled { (program : TreeView) (view : Seen) (task : Task) → IsWithin program task →
        IsWithin program (settled_task view task) }
{}

/// The nodes of the tree that words spell have the forms of a program's nodes: what stands below which, and what of it may be missing. Statements and
/// expressions are taken together, and what a construct executes may be missing.
pub fn spelled_trees_are_formed()
    ensures { (words : List Word) (program : TreeView) → IsProgram depth_limit words (root_tree program) →
        IsProgramFormed program }
{}

/// No task of a program that breaks no rule uses a name that isn't in scope, or calls what is no function of the file with so many parameters, neither
/// now nor in a function that goes on behind a call. Such a program's functions don't. Main begins so, and it stays so in each silent step, behind
/// each answer and behind each event that a step comes to. The code of a member of a team begins so, where that of the task is so that forks the
/// region, and the code of an explicit task, where the creating task has come to its creation.
pub fn no_task_uses_an_unknown_name()
    ensures checked { (words : List Word) (program : TreeView) → IsProgram depth_limit words (root_tree program) →
        Checked program → IsWellScoped program }
    ensures main { (program : TreeView) → IsWellScoped program → IsScoped program (main_task program) }
    ensures step { (program : TreeView) (view : Seen) (now next : Moment) → IsWellScoped program →
        IsScoped program now.task →
        silent program view now ≡ StepsTo next → IsScoped program next.task }
    ensures answer { (program : TreeView) (view : Seen) (given : Given) (now : Moment) → IsScoped program now.task →
        IsScoped program (after_answer view given now).task }
    ensures event { (program : TreeView) (view : Seen) (point : Event) (executes : Bool) (now : Moment) (tree : Part) →
        IsWellScoped program →
        IsScoped program now.task → silent program view now ≡ Occurs point tree →
        IsScoped program (after_event view point executes now.task) }
    ensures member { (program : TreeView) (task : Task) → IsScoped program task → IsScoped program (member_task task) }
    ensures explicit { (program : TreeView) (view : Seen) (now : Moment) (codeptr : ℕ) (undeferred : Bool)
        (tree : Part) → IsWellScoped program →
        IsScoped program now.task → silent program view now ≡ Occurs (TaskCreate codeptr undeferred) tree →
        IsScoped program (explicit_task program view now).task }
    ensures settled { (program : TreeView) (view : Seen) (task : Task) → IsScoped program task →
        IsScoped program (settled_task view task) }
{}

/// A name in scope has its entry there, under that name, and what is called is a function of the file. The value of an expression whose names
/// are in scope depends on nothing around the scope, so it comes from no name that isn't declared. A statement that knows its names has such
/// expressions.
pub fn names_in_scope_are_found()
    ensures entry { (env : List Entry) (name : ℕ) → Contains (names_of env) name → Contains env (entry_of env name) }
    ensures named { (env : List Entry) (name : ℕ) → Contains (names_of env) name → (entry_of env name).name ≡ name }
    ensures first { (env : List Entry) (name : ℕ) → Contains (names_of env) name → Contains env (first_named name env) }
    ensures value { (around : List Entry) (scope : Scope) (tree : Part) → Sees (names_of scope.env) tree →
        value (record scope { env = around ++ scope.env }) tree ≡ value scope tree }
    ensures called { (program : TreeView) (name arguments : ℕ) → IsCallable program name arguments →
        Contains (parts (root_tree program)) (function_named program name) }
    ensures sees { (program : TreeView) (names : List ℕ) (tree : Part) → Knows program names tree → Sees names tree }
{}

/// Each cell that a task uses was made: those of the names in scope, those of functions that go on behind a call, and those that the values of calls
/// go to. Main begins so, and it stays so in each silent step, behind each answer and behind each event; what others do makes more cells at most. An
/// explicit task begins so where the variables that it copies by rule are in scope.
pub fn each_cell_that_a_task_uses_was_made()
    ensures main { (program : TreeView) → IsWellScoped program →
        IsTaskMade program (length (first_store program).cells) (main_task program) }
    ensures step { (program : TreeView) (view : Seen) (now next : Moment) → IsWellScoped program →
        IsScoped program now.task →
        IsTaskMade program (length now.store.cells) now.task → silent program view now ≡ StepsTo next →
        (IsTaskMade program (length next.store.cells) next.task) × (length now.store.cells ≤ length next.store.cells) }
    ensures answer { (program : TreeView) (view : Seen) (given : Given) (now : Moment) →
        IsTaskMade program (length now.store.cells) now.task →
        (IsTaskMade program (length (after_answer view given now).store.cells) (after_answer view given now).task) ×
        (length (after_answer view given now).store.cells ≡ length now.store.cells) }
    ensures event { (program : TreeView) (view : Seen) (point : Event) (executes : Bool) (now : Moment) (tree : Part) →
        IsWellScoped program →
        IsScoped program now.task → IsTaskMade program (length now.store.cells) now.task →
        silent program view now ≡ Occurs point tree →
        IsTaskMade program (length now.store.cells) (after_event view point executes now.task) }
    ensures member { (program : TreeView) (count : ℕ) (task : Task) → IsTaskMade program count task →
        IsTaskMade program count (member_task task) }
    ensures explicit { (program : TreeView) (view : Seen) (now : Moment) (codeptr : ℕ) (undeferred : Bool)
        (tree : Part) → IsWellScoped program →
        IsScoped program now.task → IsTaskMade program (length now.store.cells) now.task →
        silent program view now ≡ Occurs (TaskCreate codeptr undeferred) tree →
        AreCopiesInScope program (settled_task view now.task) →
        (IsTaskMade program (length (explicit_task program view now).store.cells)
        (explicit_task program view now).task) ×
        (length now.store.cells ≤ length (explicit_task program view now).store.cells) }
    ensures settled { (program : TreeView) (view : Seen) (count : ℕ) (task : Task) → IsTaskMade program count task →
        IsTaskMade program count (settled_task view task) }
    ensures others { (program : TreeView) (count more : ℕ) (task : Task) → count ≤ more →
        IsTaskMade program count task → IsTaskMade program more task }
{}

/// The cells of a name in scope are among those that were made, and so is the cell that is assigned. The value of an expression whose names are in
/// scope depends on no cell behind them.
pub fn cells_in_scope_are_made()
    ensures name { (count : ℕ) (env : List Entry) (name : ℕ) → All (IsMade count) env → Contains (names_of env) name →
        IsMade count (entry_of env name) }
    ensures assigned { (scope : Scope) (place : Part) (cell : ℕ) → All (IsMade (length scope.cells)) scope.env →
        Contains (names_of scope.env) (name_of place) → cell_of scope place ≡ Ok cell → cell < length scope.cells }
    ensures value { (more : List ℤ) (scope : Scope) (tree : Part) → All (IsMade (length scope.cells)) scope.env →
        Sees (names_of scope.env) tree →
        value (record scope { cells = scope.cells ++ more }) tree ≡ value scope tree }
{}
