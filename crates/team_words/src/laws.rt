//! What follows from the definitions alone: each law is the contract of a function with an empty body.

ghost use Rattle.std.specs.Prelude.{◌≡◌, ℕ, ℤ, ◌<◌, nat_lt, List, IsTrue};
ghost use Rattle.team_parts.specs.declared.meeting.Schedule.{Schedule};
ghost use Rattle.team_parts.specs.declared.meeting.Meeting.TheVariants.{Loop, Sections};
ghost use Rattle.team_parts.specs.Dealing.{one_if, times_dealt};
ghost use Rattle.team_parts.specs.Meetings.{HasChunk};
ghost use Rattle.team_parts.specs.Team as counters;
ghost use Rattle.team_words.specs.Calls.{AreMade, TeamCall, after_calls, all_end_in_time, answers_of, counters_after_calls, counters_answers, fresh_counters};
ghost use Rattle.team_words.specs.Counted.{IsCounted};
ghost use Rattle.team_words.specs.Dealt.{AreSectionsOver, IsLoopOver};
ghost use Rattle.team_words.specs.Example as example;
ghost use Rattle.team_words.specs.Shares.{taken_by_all};
ghost use Rattle.team_words.specs.Team.{fresh_team, has_arrived, has_passed, is_at_barrier, may_pass, met_by};

/// Whichever calls members make in their order, the counters answer each one as the standard's words do. Behind them the
/// counters are those of what each member has met.
pub fn counters_tell_the_team()
    ensures answers { (size room : ℕ) (calls : List TeamCall) → AreMade size calls →
        counters_answers (fresh_counters size room) calls ≡ answers_of (fresh_team size) calls }
    ensures counted { (size room : ℕ) (calls : List TeamCall) → AreMade size calls →
        IsCounted (after_calls (fresh_team size) calls) (counters_after_calls (fresh_counters size room) calls) }
{}

/// This is of the wait of a member at the barrier that it met last, its n-th meeting. By the counters it may end in just
/// two cases. Each member has arrived at its n-th meeting and no explicit task is unfinished, or some member has passed
/// its n-th.
pub fn waits_end_once_all_have_arrived()
    ensures { (size room : ℕ) (calls : List TeamCall) (member unfinished : ℕ) → AreMade size calls →
        let team = after_calls (fresh_team size) calls in IsTrue (is_at_barrier (met_by team member)) →
        counters.may_pass (counters_after_calls (fresh_counters size room) calls) member unfinished
        ≡ may_pass team member unfinished }
{}

/// Where members pass only when their waits may end, each member has arrived at a barrier before one passes it.
pub fn all_arrive_before_one_passes()
    ensures { (size : ℕ) (calls : List TeamCall) (number member other : ℕ) →
        IsTrue (all_end_in_time (fresh_team size) calls) → let team = after_calls (fresh_team size) calls in
        other < size → IsTrue (has_passed number (met_by team member)) →
        IsTrue (has_arrived number (met_by team other)) }
{}

/// Where no chunk of a loop is left for any member, they took each iteration once, and no chunk has anything else. The size
/// of a dynamic or guided schedule is at least 1.
pub fn each_iteration_taken_once()
    ensures { (size : ℕ) (calls : List TeamCall) (number at : ℕ) (start : ℤ) (count : ℕ) (step : ℤ)
        (schedule : Schedule) → AreMade size calls → let team = after_calls (fresh_team size) calls in
        let loop_met = Loop at start count step schedule in
        HasChunk loop_met → IsLoopOver team number loop_met → (iteration : ℕ) →
        times_dealt (taken_by_all team number) iteration ≡ one_if (nat_lt iteration count) }
{}

/// Where no section is left, the members took each one once, and nothing else.
pub fn each_section_taken_once()
    ensures { (size : ℕ) (calls : List TeamCall) (number at count : ℕ) →
        AreMade size calls → let team = after_calls (fresh_team size) calls in
        AreSectionsOver team number (Sections at count) → (section : ℕ) →
        times_dealt (taken_by_all team number) section ≡ one_if (nat_lt section count) }
{}

/// Two members share a loop, wait at a barrier and share sections, by calls that are as the laws want them, and are
/// answered so. Nothing is left behind them.
pub fn two_members_share_work()
    ensures made { AreMade 2 example.calls }
    ensures in_time { IsTrue (all_end_in_time (fresh_team 2) example.calls) }
    ensures answers { answers_of (fresh_team 2) example.calls ≡ example.answers }
    ensures loop_over { IsLoopOver (after_calls (fresh_team 2) example.calls) 0 example.loop_met }
    ensures sections_over { AreSectionsOver (after_calls (fresh_team 2) example.calls) 2 example.sections_met }
{}
