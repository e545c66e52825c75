//! What follows from the definitions alone: each law is the contract of a function with an empty body.

ghost use Rattle.std.specs.Prelude.{◌≡◌, ◌≤◌, ℕ, ◌<◌, IsTrue, List, ◌∷◌, true};
ghost use Rattle.c_syntax.specs.language.Tree.{Tree as Part};
ghost use Rattle.c_check.specs.Checked.{Checked};
ghost use Rattle.c_model.specs.declared.point.SyncKind.{SyncKind};
ghost use Rattle.c_model.specs.declared.point.SyncStage.TheVariants.{WaitEnd};
ghost use Rattle.c_model.specs.Formed.{IsProgramFormed};
ghost use Rattle.c_model.specs.Task.{Item};
ghost use Rattle.c_model.specs.Task.Item.{Sync};
ghost use Rattle.task_pool.specs.Tasks.{unfinished};
ghost use Rattle.team_words.specs.Calls.{AreMade, all_end_in_time, counters_after_calls, fresh_counters};
ghost use Rattle.team_words.specs.Counted.{IsCounted};
ghost use Rattle.team_words.specs.Team.{fresh_team, has_arrived, has_met, has_passed, may_pass, met_at, met_by};
ghost use Rattle.omp_model.specs.declared.event.Event.TheVariants.{Sync as SyncEvent};
ghost use Rattle.omp_model.specs.declared.event.Outcome.TheVariants.{Happens};
ghost use Rattle.omp_model.specs.declared.history.Entry.{Entry};
ghost use Rattle.omp_model.specs.Gates.{is_barrier, may_end};
ghost use Rattle.omp_model.specs.Legal.{Legal, after};
ghost use Rattle.omp_model.specs.Members.{code_of, current, current_index, current_region};
ghost use Rattle.omp_model.specs.State.{Run, region_at};
ghost use Rattle.omp_model.specs.Turn.{enabled, turn};
ghost use Rattle.team_calls.specs.Agreed.{all_agree};
ghost use Rattle.team_calls.specs.Called.{calls_of, size_of, team_of};

/// In a legal history the calls that the members of a region make on its team are calls in the members' order. A member passes a
/// barrier only where all have arrived or another has passed it; of tasks `waits_end_in_a_run` tells. After the history the team's counters
/// are what these calls leave, and so those of what each member has met, in the standard's words. The run has 1 to 16 threads. Its
/// program breaks no rule and has the form of a tree of a text.
pub fn members_call_in_order()
    ensures made { (run : Run) (history : List Entry) (r : ℕ) → 1 ≤ run.threads → run.threads ≤ 16 →
        Checked run.program →
        IsProgramFormed run.program → Legal run history → AreMade (size_of run history r) (calls_of run history r) }
    ensures in_time { (run : Run) (history : List Entry) (r : ℕ) → 1 ≤ run.threads → run.threads ≤ 16 →
        Checked run.program →
        IsProgramFormed run.program → Legal run history →
        IsTrue (all_end_in_time (fresh_team (size_of run history r)) (calls_of run history r)) }
    ensures counters { (run : Run) (history : List Entry) (r : ℕ) → 1 ≤ run.threads → run.threads ≤ 16 →
        Checked run.program →
        IsProgramFormed run.program → Legal run history →
        (region_at (after run history).world r).team ≡ counters_after_calls (fresh_counters (size_of run history r) 0)
        (calls_of run history r) }
    ensures counted { (run : Run) (history : List Entry) (r : ℕ) → 1 ≤ run.threads → run.threads ≤ 16 →
        Checked run.program →
        IsProgramFormed run.program → Legal run history →
        IsCounted (team_of run history r) (region_at (after run history).world r).team }
{}

/// In a legal history the members of a region meet the same in the same order. Where a member meets something as its n-th, no other has
/// met something else as its n-th, so each such call is taken. The n-th that two members have met is the same. The run has 1 to 16
/// threads. Its program breaks no rule and has the form of a tree of a text.
pub fn members_meet_the_same()
    ensures agree { (run : Run) (history : List Entry) (r : ℕ) → 1 ≤ run.threads → run.threads ≤ 16 →
        Checked run.program →
        IsProgramFormed run.program → Legal run history →
        IsTrue (all_agree (fresh_team (size_of run history r)) (calls_of run history r)) }
    ensures same { (run : Run) (history : List Entry) (r number member other : ℕ) → 1 ≤ run.threads → run.threads ≤ 16 →
        Checked run.program → IsProgramFormed run.program → Legal run history →
        let team = team_of run history r in
        IsTrue (has_met number (met_by team member)) → IsTrue (has_met number (met_by team other)) →
        (met_at number (met_by team member)).what ≡ (met_at number (met_by team other)).what }
{}

/// This is of a thread, after a legal history, in whose current task the end of a wait at a barrier stands next. The machine lets the
/// wait end in just two cases, in the standard's words. Each member of the team has arrived at the barrier and no explicit task of the
/// region is unfinished, or some member has passed it. So the event in which such a wait ends occurs in these cases alone. The run has
/// 1 to 16 threads. Its program breaks no rule and has the form of a tree of a text.
pub fn waits_end_in_a_run()
    ensures may { (run : Run) (history : List Entry) (t : ℕ) (tree : Part) (which : SyncKind) (items : List Item) →
        1 ≤ run.threads →
        run.threads ≤ 16 → Checked run.program → IsProgramFormed run.program → Legal run history →
        let W = (after run history).world in
        1 ≤ current W t → (code_of W t).todo ≡ Sync tree which WaitEnd ∷ items → IsTrue (is_barrier which) →
        let r = current_region W t in
        may_end W t which ≡ may_pass (team_of run history r) (current_index W t) (unfinished W.pool.tasks r) }
    ensures ends { (run : Run) (history : List Entry) (t codeptr : ℕ) (which : SyncKind) → 1 ≤ run.threads →
        run.threads ≤ 16 →
        Checked run.program → IsProgramFormed run.program → Legal run history → enabled (after run history) t ≡ true →
        (turn run (after run history) t).outcome ≡ Happens (SyncEvent which WaitEnd codeptr) →
        IsTrue (is_barrier which) →
        let W = (after run history).world in let r = current_region W t in
        IsTrue (may_pass (team_of run history r) (current_index W t) (unfinished W.pool.tasks r)) }
{}

/// Where a member of a region has passed a barrier after a legal history, each member of its team has arrived at it. The run has 1 to
/// 16 threads. Its program breaks no rule and has the form of a tree of a text.
pub fn all_arrive_in_a_run()
    ensures { (run : Run) (history : List Entry) (r number member other : ℕ) → 1 ≤ run.threads → run.threads ≤ 16 →
        Checked run.program → IsProgramFormed run.program → Legal run history → other < size_of run history r →
        IsTrue (has_passed number (met_by (team_of run history r) member)) →
        IsTrue (has_arrived number (met_by (team_of run history r) other)) }
{}
