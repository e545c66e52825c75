//! What follows from the definitions alone: each law is the contract of a function with an empty body.

ghost use Rattle.std.specs.Prelude.{ℕ, ◌≡◌, ◌<◌, ◌≤◌, IsSome, List, None, length};
ghost use Rattle.ompt_calls.specs.declared.snapshot.Target.{Target};
ghost use Rattle.omp_model.specs.declared.history.Entry.{Entry};
ghost use Rattle.omp_model.specs.Cause.{cause_of};
ghost use Rattle.omp_model.specs.Legal.{Legal, after};
ghost use Rattle.omp_model.specs.Serial.{Serial, WholeSerial};
ghost use Rattle.omp_model.specs.State.{Run, pending_at};
ghost use Rattle.omp_model.specs.Turn.{turn};
ghost use Rattle.run_laws.specs.Answers.{AnsweredRun, Answering, Answers, MayAnswer, Replying, stores_told};
ghost use Rattle.run_laws.specs.LastStored.{last_stored, word_of};
ghost use Rattle.run_laws.specs.Replies.{replies_of};
ghost use Rattle.run_laws.specs.Turns.{turns_of};

/// A legal history has at most 524,288 turns, and 2,621,440 entries: five for each turn.
pub fn histories_are_bounded()
    ensures turns { (run : Run) (history : List Entry) → Legal run history → turns_of history ≤ 524288 }
    ensures entries { (run : Run) (history : List Entry) → Legal run history → length history ≤ 2621440 }
{}

/// A serial run is a function of what its tools store: two serial histories to the end in which the same is stored after each turn, and so within each callback,
/// are the same.
pub fn replies_fix_a_serial_run()
    ensures { (run : Run) (history other : List Entry) → WholeSerial run history → WholeSerial run other →
        replies_of history ≡ replies_of other →
        history ≡ other }
{}

/// After a legal history the data word of each thread, region and task is the last one that was put there, or 0 where none was. It is so too after the turn
/// that comes next, whose event a tool may be told of: no turn and no return of a callback changes a word.
pub fn words_are_last_stored()
    ensures kept { (run : Run) (history : List Entry) (target : Target) → Legal run history →
        word_of (after run history).world target ≡ last_stored target history }
    ensures told { (run : Run) (history : List Entry) (t : ℕ) (target : Target) → Legal run history →
        word_of (turn run (after run history) t).state.world target ≡ last_stored target history }
{}

/// For given stores after each event there is one serial history to the end. They are given as answers: to each event, by the history before its turn and
/// by its thread, a list of stores that may stand there in turn. So an answer has at most three stores, each of a thread, region or task that was made, and
/// none where no tool is told of the event. Such are the stores of any replies of the tools. And each serial history to the end ends in a cause. For there to be
/// a history the run has to have a thread.
pub fn answers_make_one_serial_run()
    ensures there_is { (run : Run) (answer : Answering) → 1 ≤ run.threads → MayAnswer run answer →
        AnsweredRun run answer }
    ensures one { (run : Run) (answer : Answering) (history other : List Entry) → WholeSerial run history →
        WholeSerial run other →
        Answers run answer history → Answers run answer other → history ≡ other }
    ensures of_replies { (run : Run) (reply : Replying) → 1 ≤ run.threads → MayAnswer run (stores_told run reply) }
    ensures ended { (run : Run) (history : List Entry) → WholeSerial run history → IsSome (cause_of run history) }
{}

/// A serial history that ends in a cause, with no thread inside a callback, is one to the end: nothing may stand next.
pub fn ended_serial_runs_are_whole()
    ensures { (run : Run) (history : List Entry) → Serial run history → IsSome (cause_of run history) →
        ((k : ℕ) → k < run.threads → pending_at (after run history) k ≡ None) → WholeSerial run history }
{}
