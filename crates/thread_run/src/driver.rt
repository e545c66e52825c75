//! The driver of a thread: its pass to the book, and the part that is called for its events.

ghost use Rattle.std.specs.Prelude.{◌≡◌, true, false, IfOk};
ghost use Rattle.team_run.specs.Names.{Owes, OwesStep, entries_of, KeepsStep, book_after};
ghost use Rattle.thread_run.specs.Driving.{GoesOn, HasCome, IsDriven, IsInside, is_over};
ghost use Rattle.thread_run.specs.declared.driver.Visited.{Visited};

use ompt_calls::{Call, Snapshot};
use std::sync::Wait;
use step_book::{BookName, Pass, SharedBook, Step};
use tool_api::{Memory, ToolPart};

/// What a visit of a driver came to.
#[derive(Clone, Copy, PartialEq, Eq)]
pub(crate) enum Visited {
    /// The driver goes on.
    On,
    /// The run is over.
    Over,
}

/// Visits the book until the run is over. An answer and the visit that follows it take the lock once.
///
/// Where a visit or the part finds no memory, the pass ends the run.
pub(crate) fn drive<R: Wait, K: BookName, P: ToolPart>(
    rt: &R,
    book: &SharedBook<K>,
    pass: &mut Pass<K>,
    part: &mut P,
)
    ensures goes { GoesOn P.stands_for P.same K.run pass.old part.old pass.new part.new }
    ensures over { is_over pass.new ≡ true }
{
    pass.legal();
    let mut came = book.go(rt, pass);
    for _ in rt.forever() {
        came = match came {
            Ok(Step::Told(seq, call, snapshot)) => {
                serve_and_go(rt, book, pass, part, seq, &call, snapshot)
            }
            Ok(Step::Quiet) => book.go(rt, pass),
            Ok(Step::NotYet) => {
                book.sleep(rt, pass);
                book.go(rt, pass)
            }
            Ok(Step::Ended(_)) => return,
            Err(_) => {
                book.end_memory(rt, pass);
                return;
            }
        };
    }
    unreachable!()
}

/// Calls the part for the event of the pass's thread, answers, and visits the book again. No lock is held while the part is called.
fn serve_and_go<R: Wait, K: BookName, P: ToolPart>(
    rt: &R,
    book: &SharedBook<K>,
    pass: &mut Pass<K>,
    part: &mut P,
    seq: u32,
    call: &Call,
    snapshot: Snapshot,
) -> Result<Step, Memory>
    requires owes { Owes K.run (entries_of pass.old.seen) pass.old.thread seq call.now snapshot }
    ensures thread { pass.new.thread ≡ pass.old.thread }
    ensures owes { IfOk result (λ step. OwesStep (book_after K.run pass.new.seen pass.new.ended) pass.new.thread step) }
    ensures told { IfOk result (λ step. KeepsStep pass.new step) }
    ensures comes { (first : P) → pass.old.ended ≡ false → IsInside P.stands_for P.same K.run first pass.old part.old →
        HasCome P.stands_for P.same K.run first pass.new part.new result }
{
    pass.legal();
    let reply = part.callback(seq, pass.thread(), call, &snapshot)?;
    book.answer_and_go(rt, pass, &reply, snapshot)
}

/// One visit of the pass's thread, which never sleeps, and the call of its part where an event is told, with its answer.
///
/// Where the visit or the part finds no memory, the pass ends the run.
pub(crate) fn visit<R: Wait, K: BookName, P: ToolPart>(
    rt: &R,
    book: &SharedBook<K>,
    pass: &mut Pass<K>,
    part: &mut P,
) -> Visited
    ensures goes { GoesOn P.stands_for P.same K.run pass.old part.old pass.new part.new }
    ensures over { result ≡ Visited.Over → is_over pass.new ≡ true }
{
    if pass.ended() {
        return Visited::Over;
    }
    book.poll(pass);
    pass.legal();
    match book.go(rt, pass) {
        Ok(Step::Told(seq, call, snapshot)) => serve(rt, book, pass, part, seq, &call, &snapshot),
        Ok(Step::Quiet) => Visited::On,
        Ok(Step::NotYet) => Visited::On,
        Ok(Step::Ended(_)) => Visited::Over,
        Err(_) => {
            book.end_memory(rt, pass);
            Visited::Over
        }
    }
}

/// Calls the part for the event of the pass's thread, and answers. No lock is held while the part is called.
fn serve<R: Wait, K: BookName, P: ToolPart>(
    rt: &R,
    book: &SharedBook<K>,
    pass: &mut Pass<K>,
    part: &mut P,
    seq: u32,
    call: &Call,
    snapshot: &Snapshot,
) -> Visited
    requires owes { Owes K.run (entries_of pass.old.seen) pass.old.thread seq call.now snapshot.now }
    ensures thread { pass.new.thread ≡ pass.old.thread }
    ensures driven { (first : P) → IsInside P.stands_for P.same K.run first pass.old part.old →
        IsDriven P.stands_for P.same K.run first pass.new part.new }
    ensures over { result ≡ Visited.Over → is_over pass.new ≡ true }
{
    pass.legal();
    match part.callback(seq, pass.thread(), call, snapshot) {
        Ok(reply) => {
            book.answer(rt, pass, &reply, snapshot);
            Visited::On
        }
        Err(_) => {
            book.end_memory(rt, pass);
            Visited::Over
        }
    }
}
