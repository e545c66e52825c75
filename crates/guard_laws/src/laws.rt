//! What follows from the definitions alone: each law is the contract of a function with an empty body.

ghost use Rattle.std.specs.Prelude.{ℕ, ◌≡◌, ◌≤◌, List, true};
ghost use Rattle.c_syntax.specs.language.Tree.{Tree as Part};
ghost use Rattle.c_check.specs.Checked.{Checked};
ghost use Rattle.c_model.specs.declared.question.Answer.TheVariants as answer;
ghost use Rattle.c_model.specs.declared.question.Ask.TheVariants as ask;
ghost use Rattle.c_model.specs.Begin.{member_task};
ghost use Rattle.c_model.specs.Formed.{IsProgramFormed};
ghost use Rattle.c_model.specs.Step.{silent};
ghost use Rattle.c_model.specs.Task.Outcome.{Asks};
ghost use Rattle.team_parts.specs.Team.{next_chunk, next_section};
ghost use Rattle.omp_model.specs.declared.event.Event.TheVariants.{MemberBegin, ParallelEnd};
ghost use Rattle.omp_model.specs.declared.event.Outcome.TheVariants.{Happens};
ghost use Rattle.omp_model.specs.declared.history.Entry.{Entry};
ghost use Rattle.omp_model.specs.EventEffects.{has_forked};
ghost use Rattle.omp_model.specs.Legal.{Legal, after};
ghost use Rattle.omp_model.specs.MadeWorld.{IsForkedRegion};
ghost use Rattle.omp_model.specs.Members.{current, current_index, current_team, moment_of, view_of};
ghost use Rattle.omp_model.specs.Silent.{answer_to};
ghost use Rattle.omp_model.specs.State.{Run, region_at, task_at};
ghost use Rattle.omp_model.specs.Turn.{enabled, turn, walk};

/// Where the end of a parallel region has just occurred after a legal history, it names a region that was forked, and the thread's current task is the one
/// that has forked it. So no region ends that is none. The run has 1 to 16 threads, its program breaks no rule, and its tree has the
/// shape of one that a text spells.
pub fn region_ends_name_regions()
    ensures { (run : Run) (history : List Entry) (t r codeptr : ℕ) → 1 ≤ run.threads → run.threads ≤ 16 →
        Checked run.program → IsProgramFormed run.program → Legal run history → enabled (after run history) t ≡ true →
        (turn run (after run history) t).outcome ≡ Happens (ParallelEnd r codeptr) →
        let W = (turn run (after run history) t).state.world in IsForkedRegion W r ×
        ((region_at W r).head.task ≡ current W t) }
{}

/// This is of a member of a team that has just begun after a legal history. The end of its region stands next in the code of the task that has forked the
/// region, and its own code is what this code has for a member. So no member begins without its region's code. The run has 1 to 16 threads, its program breaks no rule, and its tree
/// has the shape of one that a text spells.
pub fn members_have_code()
    ensures stands { (run : Run) (history : List Entry) (t r k : ℕ) → 1 ≤ run.threads → run.threads ≤ 16 →
        Checked run.program → IsProgramFormed run.program → Legal run history → enabled (after run history) t ≡ true →
        (turn run (after run history) t).outcome ≡ Happens (MemberBegin r k) →
        let W = (turn run (after run history) t).state.world in
        has_forked (task_at W (region_at W r).head.task).code.todo ≡ true }
    ensures code { (run : Run) (history : List Entry) (t r k : ℕ) → 1 ≤ run.threads → run.threads ≤ 16 →
        Checked run.program → IsProgramFormed run.program → Legal run history → enabled (after run history) t ≡ true →
        (turn run (after run history) t).outcome ≡ Happens (MemberBegin r k) →
        let W = (turn run (after run history) t).state.world in
        (task_at W k).code ≡ member_task (task_at W (region_at W r).head.task).code }
{}

/// Where the next silent step of a thread asks for a chunk or a section, after a legal history and any number of silent steps that the thread makes then, it
/// is answered what its team deals to it next. So what is dealt fits the loop or the sections that ask, and nothing that the team counts as taken is kept
/// from the code. The run has 1 to 16 threads, its program breaks no rule, and its tree has the
/// shape of one that a text spells.
pub fn deals_fit_the_asker()
    ensures chunk { (run : Run) (history : List Entry) (t steps : ℕ) (construct : Part) → 1 ≤ run.threads →
        run.threads ≤ 16 → Checked run.program → IsProgramFormed run.program → Legal run history →
        let W = (walk run steps 0 (after run history) t).state.world in
        silent run.program (view_of W t) (moment_of W t) ≡ Asks ask.Chunk construct →
        answer_to W t ask.Chunk ≡ answer.Chunk (next_chunk (current_team W t) (current_index W t)) }
    ensures section { (run : Run) (history : List Entry) (t steps : ℕ) (construct : Part) → 1 ≤ run.threads →
        run.threads ≤ 16 → Checked run.program → IsProgramFormed run.program → Legal run history →
        let W = (walk run steps 0 (after run history) t).state.world in
        silent run.program (view_of W t) (moment_of W t) ≡ Asks ask.Section construct →
        answer_to W t ask.Section ≡ answer.Section (next_section (current_team W t) (current_index W t)) }
{}
