//! Two passes whose visits stand in one order.

ghost use Rattle.std.specs.Prelude.{◌≡◌};
ghost use Rattle.step_book.specs.Owing.{OwesStep};
ghost use Rattle.step_book.specs.Sharing.{book_after};

use crate::fixture::{STEPS, are_in_order, program_of};
use omp_codes::callbacks::PARALLEL_BEGIN;
use omp_machine::{Limits, Memory};
use omp_model::{Entry, What};
use ompt_calls::{Call, Frame, Reply, Word};
use std::alloc::Global;
use std::marker::Brand;
use std::process::Abort;
use std::sync::Wait;
use std::test::Fail;
use step_book::{Blank, BookName, Closed, Pass, SharedBook, Step};

/// A region of two, in line 2.
const REGION_OF_TWO: &[u8] = b"int main(void) {
#pragma omp parallel num_threads(2)
;
return 0; }
";

/// The region begins.
const REGION_BEGINS: Call = Call::ParallelBegin {
    task: Word {
        identity: 1,
        value: 0,
    },
    frame: Frame {
        exit: 0,
        enter: 32_769,
    },
    region: Word {
        identity: 2,
        value: 0,
    },
    requested: 2,
    flags: 0x8000_0001,
    codeptr: 131_073,
};

/// What the entries are: whose they are, and what happened.
const ENTRIES: [(u8, What); 8] = [
    (0, What::Go),
    (0, What::Back),
    (0, What::Go),
    (0, What::Back),
    (0, What::Go),
    (0, What::Back),
    (1, What::Go),
    (1, What::Back),
];

/// The worker of a region waits until the callback of the region's begin has returned. Then it begins.
#[test]
fn passes_in_turn(rt: HostRuntime) -> Result<(), Fail> {
    let program = program_of(&rt, rt.alloc(), REGION_OF_TWO)?;
    let limits = Limits {
        threads: 2,
        steps: STEPS,
    };
    let blank = Blank::new(rt.alloc(), program, 1 << PARALLEL_BEGIN, limits)?;
    let closed = closed_in_turn::<HostRuntime, Brand>(&rt, rt.alloc(), blank)?;
    assert!(rt; closed.cause.is_none());
    are_in_turn(&rt, closed.history.as_slice());
    Ok(())
}

/// The entries are those that are wanted.
fn are_in_turn(rt: &impl Abort, entries: &[Entry]) {
    assert!(rt; entries.len() == ENTRIES.len());
    for (entry, &(thread, what)) in entries.iter().zip(&ENTRIES) {
        assert!(rt; *entry == Entry { thread, what });
    }
}

/// The book of two passes, after their visits.
fn closed_in_turn<R: Wait + Abort, K: BookName>(
    rt: &R,
    alloc: Global,
    blank: Blank,
) -> Result<Closed, Memory>
    requires table { blank.table ≡ K.table }
    requires run { blank.run ≡ K.run }
    requires threads { K.run.threads ≡ 2 }
{
    let (book, passes) = SharedBook::<K>::start(alloc, blank, 1)?;
    let passes = visited(rt, &book, passes)?;
    assert!(rt; are_in_order(&passes, 2));
    Ok(book.close(passes))
}

/// The two passes after their visits.
fn visited<R: Wait + Abort, K: BookName>(
    rt: &R,
    book: &SharedBook<K>,
    mut passes: Vec<Pass<K>>,
) -> Result<Vec<Pass<K>>, Memory> {
    let Some(mut second) = passes.pop() else {
        panic!(rt; "there are two passes");
    };
    let Some(mut first) = passes.pop() else {
        panic!(rt; "there are two passes");
    };
    visit_in_turn(rt, book, &mut first, &mut second);
    passes.push(first)?;
    passes.push(second)?;
    Ok(passes)
}

/// The visits: thread 1 has to wait, thread 0 comes to the region's begin, and thread 1 has to wait up to the answer to it.
fn visit_in_turn<R: Wait + Abort, K: BookName>(
    rt: &R,
    book: &SharedBook<K>,
    first: &mut Pass<K>,
    second: &mut Pass<K>,
) {
    has_to_wait(rt, book, second);
    goes_on(rt, book, first);
    goes_on(rt, book, first);
    begin_the_region(rt, book, first, second);
    goes_on(rt, book, second);
}

/// The first pass is told the region's begin. Until it has answered, the second one has to wait.
fn begin_the_region<R: Wait + Abort, K: BookName>(
    rt: &R,
    book: &SharedBook<K>,
    first: &mut Pass<K>,
    second: &mut Pass<K>,
) {
    let Step::Told(seq, call, snapshot) = step_of(rt, book, first) else {
        panic!(rt; "the region's begin is told");
    };
    assert!(rt; seq == 4);
    assert!(rt; call == REGION_BEGINS);
    has_to_wait(rt, book, second);
    book.answer(rt, first, &Reply::none(), &snapshot);
}

/// A visit that can't be made yet.
fn has_to_wait<R: Wait + Abort, K: BookName>(rt: &R, book: &SharedBook<K>, pass: &mut Pass<K>) {
    assert!(rt; matches!(step_of(rt, book, pass), Step::NotYet));
}

/// A visit in which nothing is told.
fn goes_on<R: Wait + Abort, K: BookName>(rt: &R, book: &SharedBook<K>, pass: &mut Pass<K>) {
    assert!(rt; matches!(step_of(rt, book, pass), Step::Quiet));
}

/// A visit, which finds memory.
fn step_of<R: Wait + Abort, K: BookName>(rt: &R, book: &SharedBook<K>, pass: &mut Pass<K>) -> Step
    ensures owes { OwesStep (book_after K.run pass.new.seen pass.new.ended) pass.new.thread result }
{
    match book.go(rt, pass) {
        Ok(step) => step,
        Err(_) => panic!(rt; "there is memory"),
    }
}
