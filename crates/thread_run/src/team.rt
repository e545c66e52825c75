//! The drivers of a run, each on a thread of its own.

ghost use Rattle.std.specs.Prelude.{◌≡◌, ◌≤◌, ℕ, List, length};
ghost use Rattle.thread_run.specs.Driving.{GoesOn};
ghost use Rattle.thread_run.specs.Drivers.{AreDrivers, AreFor, AreKept, HasRoom, IsDriver, IsSlot};

use crate::driver::{Visited, drive, visit};
use std::snapshot::Snapshot;
use std::sync::Wait;
use std::sync::atomic::{AtomicBool, Ordering};
use std::thread;
use std::thread::{Promise, PromisedHandle, Scope, Threads};
use step_book::{BookName, Pass, SharedBook};
use tool_api::ToolPart;

/// The most threads of a run.
const THREADS: usize = 16;

/// For each thread whether its driver is to be handed back as it is.
pub(crate) type Stays = [AtomicBool; THREADS];

/// That a driver goes on from this pass and this part.
#[derive(Drop)]
struct Drives<K: BookName, P: ToolPart>(Snapshot<Pass<K>>, Snapshot<P>);

impl<K: BookName, P: ToolPart> Promise<(Pass<K>, P)> for Drives<K, P> {
    ghost kept_by = { λ promise r. GoesOn P.stands_for P.same K.run promise.0.value promise.1.value r.0 r.1 };
}

/// A driver that runs on a thread of its own, or that the caller has.
#[derive(Drop)]
pub(crate) struct Slot<K: BookName, P: ToolPart> {
    /// Its thread, or its pass and part where it has none.
    driver: Result<PromisedHandle<(Pass<K>, P), Drives<K, P>>, (Pass<K>, P)>,
}

/// Starts the driver on a thread of its own. Where the start is refused the caller has it, as it was.
fn start<'s, E: 's, R: Wait + Sync, K: BookName + 's, P: ToolPart + 's>(
    scope: &Scope<'s, E>,
    rt: &'s R,
    book: &'s SharedBook<K>,
    stays: &'s AtomicBool,
    pass: Pass<K>,
    part: P,
) -> Slot<K, P>
    ensures { (t : ℕ) (first : P) → IsDriver P.stands_for P.same K.run t first pass part →
        IsSlot P.stands_for P.same K.run t first result }
{
    let promise = Drives(Snapshot::of(&pass), Snapshot::of(&part));
    match scope.spawn_with(
        promise,
        move || -> (Pass<K>, P)
            ensures { GoesOn P.stands_for P.same K.run pass part result.0 result.1 }
        {
            if stays.load(Ordering::SeqCst) {
                return (pass, part);
            }
            let mut pass = pass;
            let mut part = part;
            drive(rt, book, &mut pass, &mut part);
            (pass, part)
        },
    ) {
        Ok(child) => Slot { driver: Ok(child) },
        Err(refused) => {
            stays.store(true, Ordering::SeqCst);
            Slot {
                driver: Err((refused.value)()),
            }
        }
    }
}

/// The driver as it has come back from its thread, if it has one.
fn finish<R: Threads, K: BookName, P: ToolPart>(rt: &R, slot: Slot<K, P>) -> (Pass<K>, P)
    ensures { (t : ℕ) (first : P) → IsSlot P.stands_for P.same K.run t first slot →
        IsDriver P.stands_for P.same K.run t first result.0 result.1 }
{
    match slot.driver {
        Ok(child) => child.join(rt),
        Err(here) => here,
    }
}

/// Drives the drivers that the caller has, until the run is over. One alone is driven to its end. None of two may wait for
/// the other, so they take turns, one visit of each.
pub(crate) fn drive_here<R: Wait, K: BookName, P: ToolPart>(
    rt: &R,
    book: &SharedBook<K>,
    slots: &mut [Slot<K, P>],
)
    ensures { AreKept (IsSlot P.stands_for P.same K.run) slots.old slots.new }
{
    let here = slots.iter().filter(|slot| slot.driver.is_err()).count();
    for _ in rt.forever() {
        let mut goes_on = false;
        for place in 0..slots.len() {
            if visit_here(rt, book, &mut slots[place], here) != Visited::Over {
                goes_on = true;
            }
        }
        if !goes_on {
            return;
        }
        thread::yield_now();
    }
}

/// Visits the driver, if the caller has it: once where it has more, and else until the run is over. None of them goes on
/// while another one's part is called.
fn visit_here<R: Wait, K: BookName, P: ToolPart>(
    rt: &R,
    book: &SharedBook<K>,
    slot: &mut Slot<K, P>,
    here: usize,
) -> Visited
    ensures { (t : ℕ) (first : P) → IsSlot P.stands_for P.same K.run t first slot.old →
        IsSlot P.stands_for P.same K.run t first slot.new }
{
    let Err((pass, part)) = &mut slot.driver else {
        return Visited::Over;
    };
    if here > 1 {
        return visit(rt, book, pass, part);
    }
    drive(rt, book, pass, part);
    Visited::Over
}

/// Starts the driver of each pass and part but the first, which the caller has.
pub(crate) fn start_all<'s, E: 's, R: Wait + Sync, K: BookName + 's, P: ToolPart + 's>(
    scope: &Scope<'s, E>,
    rt: &'s R,
    book: &'s SharedBook<K>,
    stays: &'s Stays,
    passes: Vec<Pass<K>>,
    parts: Vec<P>,
    mut slots: Vec<Slot<K, P>>,
) -> Vec<Slot<K, P>>
    requires few { length passes.items ≤ 16 }
    requires each { length passes.items ≡ length parts.items }
    requires room { HasRoom (length passes.items) slots }
    ensures as_many { length result.items ≡ length passes.items }
    ensures slots { AreDrivers P.stands_for P.same K.run parts.items passes.items parts.items →
        AreFor (IsSlot P.stands_for P.same K.run) parts.items result.items }
{
    let mut parts = parts.into_iter();
    for pass in passes {
        let Some(part) = parts.next() else {
            unreachable!();
        };
        let place = slots.len();
        let slot = if place == 0 {
            Slot {
                driver: Err((pass, part)),
            }
        } else {
            start(scope, rt, book, &stays[place], pass, part)
        };
        slots.push_reserved(slot);
    }
    slots
}

/// The passes and parts of all drivers, in order, once each has come back from its thread.
pub(crate) fn finish_all<R: Threads, K: BookName, P: ToolPart>(
    rt: &R,
    slots: Vec<Slot<K, P>>,
    mut passes: Vec<Pass<K>>,
    mut parts: Vec<P>,
) -> (Vec<Pass<K>>, Vec<P>)
    requires passes { HasRoom (length slots.items) passes }
    requires parts { HasRoom (length slots.items) parts }
    ensures passes { length result.0.items ≡ length slots.items }
    ensures parts { length result.1.items ≡ length slots.items }
    ensures drivers { (first : List P) → AreFor (IsSlot P.stands_for P.same K.run) first slots.items →
        AreDrivers P.stands_for P.same K.run first result.0.items result.1.items }
{
    for slot in slots {
        let (pass, part) = finish(rt, slot);
        passes.push_reserved(pass);
        parts.push_reserved(part);
    }
    (passes, parts)
}
