//! What follows from the definitions alone: each law is the contract of a function with an empty body.

ghost use Rattle.std.specs.Prelude.{◌≡◌, ◌≤◌, ◌&&◌, ℕ, List, Some, is_none, true};
ghost use Rattle.omp_model.specs.declared.history.Entry.{Entry};
ghost use Rattle.omp_model.specs.Calls.{call_of, callback_of};
ghost use Rattle.omp_model.specs.Cause.{cause_of};
ghost use Rattle.omp_model.specs.Conditions.{BackActs, GoActs, IsOrderly};
ghost use Rattle.omp_model.specs.Empty.{empty_history, empty_records, empty_run};
ghost use Rattle.omp_model.specs.Gates.{arrival};
ghost use Rattle.omp_model.specs.Legal.{Legal, after};
ghost use Rattle.omp_model.specs.MadeWorld.{IsMadeState, IsRegion, IsTeam};
ghost use Rattle.omp_model.specs.Members.{current, is_member};
ghost use Rattle.omp_model.specs.Named.{IsMade, IsMadeCall, IsMadeSnapshot};
ghost use Rattle.omp_model.specs.Records.{records_of};
ghost use Rattle.omp_model.specs.Serial.{StoresNothing, WholeSerial, serial};
ghost use Rattle.omp_model.specs.Snapshots.{snap_of};
ghost use Rattle.omp_model.specs.State.{Run, State, World, pending_at, region_at};
ghost use Rattle.omp_model.specs.Turn.{enabled, has_outcome, turn, unlimited, walk};
ghost use Rattle.omp_model.specs.declared.event.Arrival.TheVariants.{RuntimeEvent};
ghost use Rattle.omp_model.specs.declared.event.Callback.{Callback};
ghost use Rattle.omp_model.specs.declared.event.Event.{Event};
ghost use Rattle.omp_model.specs.declared.event.Outcome.TheVariants.{Happens};
ghost use Rattle.omp_model.specs.Storing.{MayStore};
ghost use Rattle.ompt_calls.specs.Number.{is_registered, number_of};
ghost use Rattle.ompt_calls.specs.Snapshot.{stores_of, target_of};
ghost use Rattle.ompt_calls.specs.declared.reply.Reply.{Reply};
ghost use Rattle.ompt_calls.specs.declared.reply.WordAt.{WordAt};
ghost use Rattle.ompt_calls.specs.declared.snapshot.Target.{Target};
ghost use Rattle.team_parts.specs.declared.meeting.TheConstants.{TEAM_LIMIT};

use crate::cause::Cause;

/// A thread is enabled exactly where it is inside no callback, the run isn't halted, and its turn is one: a silent step, an event, a trap or a
/// limit. So no enabled thread has a turn that comes to nothing, though no expression is evaluated to tell.
#[tactic(auto, using(crate::proofs::Turns::enabled_turn))]
pub fn enabled_threads_have_turns()
    ensures { (run : Run) (S : State) (t : ℕ) →
        enabled S t ≡ (is_none (pending_at S t) && is_none S.halt && has_outcome (unlimited run S t).outcome) }
{}

/// The callback of an event, which a tool registers to hear of it, is that of the event's call, whatever the world.
#[tactic(auto, using(crate::proofs::Callbacks::number_of_call))]
pub fn calls_are_of_their_callbacks()
    ensures { (W : World) (t : ℕ) (event : Event) → number_of (call_of W t event) ≡ callback_of event }
{}

/// Two serial histories to the end in which nothing is stored are the same, and they are `serial`. It doesn't say of a run that there is one.
pub fn serial_history_is_one()
    ensures one { (run : Run) (history other : List Entry) → WholeSerial run history → WholeSerial run other →
        StoresNothing history → StoresNothing other → history ≡ other }
    ensures named { (run : Run) (history : List Entry) → WholeSerial run history → StoresNothing history →
        serial run ≡ history }
{}

/// With the callbacks of the profile registered, a million silent steps and 1 to 16 threads, the serial run of the smallest program, whose main returns
/// 0 at once, has eight entries and four records, and ends because all is done.
pub fn empty_program_ends()
    ensures entries { (n : ℕ) → 1 ≤ n → n ≤ 16 → serial (empty_run n) ≡ empty_history }
    ensures records { (n : ℕ) → 1 ≤ n → n ≤ 16 → records_of (empty_run n) (serial (empty_run n)) ≡ empty_records }
    ensures cause { (n : ℕ) → 1 ≤ n → n ≤ 16 → cause_of (empty_run n) (serial (empty_run n)) ≡ Some Cause.Done }
{}

/// After each legal history of a run that has a thread these were made, where they aren't 0 for none: the tasks on stacks, in the ready order and those
/// that threads are to start; the regions that tasks are in or have forked and those that threads are to join, each of which was forked; the tasks that
/// have encountered a region; and what the events of pending callbacks name. There are as many threads as the run has, and the pool has each task.
pub fn what_a_run_names_was_made()
    ensures { (run : Run) (history : List Entry) → 1 ≤ run.threads → Legal run history →
        IsMadeState run (after run history) }
{}

/// Where an event has just occurred after a legal history, each word of its call is of a thread, region or task that was made, or of none. The words
/// of its snapshot are all of what was made. So whichever word a tool stores into during the event's callback, it was made.
pub fn what_a_tool_hears_was_made()
    ensures called { (run : Run) (history : List Entry) (t : ℕ) (event : Event) → 1 ≤ run.threads → Legal run history →
        (turn run (after run history) t).outcome ≡ Happens event →
        let W = (turn run (after run history) t).state.world in IsMadeCall W (call_of W t event) }
    ensures inquired { (run : Run) (history : List Entry) (t : ℕ) (event : Event) → 1 ≤ run.threads →
        Legal run history →
        (turn run (after run history) t).outcome ≡ Happens event →
        let W = (turn run (after run history) t).state.world in IsMadeSnapshot W (snap_of W t event) }
    ensures stored { (run : Run) (history : List Entry) (t : ℕ) (event : Event) (place : WordAt) (found : Target) →
        1 ≤ run.threads →
        Legal run history → (turn run (after run history) t).outcome ≡ Happens event →
        let W = (turn run (after run history) t).state.world in target_of (snap_of W t event) place ≡ Some found →
        IsMade W found }
{}

/// Where an event of which a tool hears has just occurred after a legal history, the stores of its reply may stand next, in turn, whatever the reply.
pub fn stores_of_replies_may_stand()
    ensures { (run : Run) (history : List Entry) (t : ℕ) (event : Event) (reply : Reply) → 1 ≤ run.threads →
        Legal run history →
        (turn run (after run history) t).outcome ≡ Happens event → is_registered run.mask (callback_of event) ≡ true →
        let S = (turn run (after run history) t).state in MayStore run S t (stores_of reply (snap_of S.world t event)) }
{}

/// After each legal history of a run that has a thread, each thread with a task is a member of its region's team, and so it is after each of the
/// silent steps that the thread makes next. So no thread with a task is passed over as one that isn't a member. In a run of at most sixteen threads a
/// team has from one member to sixteen, as many as its region says.
pub fn threads_with_tasks_are_members()
    ensures after_entries { (run : Run) (history : List Entry) (t : ℕ) → 1 ≤ run.threads → Legal run history →
        1 ≤ current (after run history).world t → is_member (after run history).world t ≡ true }
    ensures after_steps { (run : Run) (history : List Entry) (t count : ℕ) → 1 ≤ run.threads → Legal run history →
        let W = (walk run count 0 (after run history) t).state.world in 1 ≤ current W t → is_member W t ≡ true }
    ensures teams { (run : Run) (history : List Entry) (r : ℕ) → 1 ≤ run.threads → run.threads ≤ TEAM_LIMIT →
        Legal run history →
        IsRegion (after run history).world r → IsTeam (region_at (after run history).world r) }
{}

/// After each legal history of a run that has a thread, each task on a stack is under way and stands on no other stack and not twice on its own; each
/// one in the ready order is ready; each undeferred one that a thread is to start, and each one whose creation is pending, was made and has come no
/// further. So whatever is to start or to finish at the Go of an event beside all code does so, and so does whatever is to become ready or to finish at
/// a Back: its condition is never one in which the definitions leave it as it is.
pub fn tasks_are_orderly()
    ensures after_entries { (run : Run) (history : List Entry) → 1 ≤ run.threads → Legal run history →
        IsOrderly (after run history) }
    ensures at_gos { (run : Run) (history : List Entry) (t count : ℕ) (event : Event) → 1 ≤ run.threads →
        Legal run history →
        let W = (walk run count 0 (after run history) t).state.world in arrival W t ≡ RuntimeEvent event → GoActs W t event }
    ensures at_backs { (run : Run) (history : List Entry) (t : ℕ) (callback : Callback) → 1 ≤ run.threads →
        Legal run history →
        pending_at (after run history) t ≡ Some callback → BackActs (after run history).world callback.event }
{}
