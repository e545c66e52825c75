//! Which threads sleep that share a book.

ghost use Rattle.std.specs.Prelude.{◌≡◌, ◌≢◌, ℕ, ◌<◌, true};
ghost use Rattle.thread_wakes.specs.declared.sleepers.Then.{Then};
ghost use Rattle.thread_wakes.specs.ThreadSets.{IsInEither, KeepsOthers, has_thread};

use crate::thread_set::ThreadSet;
use std::marker::Model;

/// The most threads of a run.
const THREADS: u8 = 16;

/// On so many processors or fewer, threads that are near take too many turns from those that go on.
const FEW_PROCESSORS: usize = 2;

/// Where no more threads than these sleep, one that begins to sleep stays near.
const FEW: u32 = 3;

/// What is done at the end of a hold, once the lock is given back. Contracts see the threads that wake.
#[derive(Drop)]
pub struct Woken {
    /// Whether the thread of the hold stays near, if it sleeps.
    pub(crate) stays_near: bool,
    /// The threads that wake.
    pub(crate) rung: ThreadSet,
    /// The threads that are called near.
    pub(crate) called: ThreadSet,
}

impl Model for Woken {
    ghost use Rattle.std.specs.Prelude.{ℕ};

    ghost Value = { ℕ };

    ghost view = { λ woken. woken.rung.0 };
}

impl Woken {
    /// No thread wakes or is near.
    fn nobody() -> Woken
        ensures { result ≡ 0 }
    {
        Woken {
            stays_near: false,
            rung: ThreadSet::EMPTY,
            called: ThreadSet::EMPTY,
        }
    }
}

/// What a thread does after a hold.
#[derive(Clone, Copy, PartialEq, Eq)]
pub enum Then {
    /// It calls its tool or visits the book again, or it ends the run.
    GoesOn,
    /// It sleeps: it was told not yet.
    Sleeps,
    /// It visits the book again and again though it was told not yet, and never sleeps.
    Polls,
    /// It was told that the run is over, or has ended it.
    IsOver,
}

/// The threads that sleep, or are about to. Contracts see their set. A thread that polls is none of them.
///
/// A thread that sleeps is near or parked. One that is near looks for itself soon, and to wake it earlier costs little. But it takes turns of a
/// processor meanwhile. On few processors there is room for one near beside the thread that was woken; on more there is room for all.
///
/// While a thread goes on it wakes no other: it only sees to it that one that may go on is near, where none is near yet and none was woken. One
/// that is near or was woken has a hold soon, whatever the callbacks of others do, and sees to the others in turn: at once, or once it is told not
/// yet. So what comes in quick succession on one thread isn't held up by others that come for the lock, and a callback that takes long still keeps
/// none of them from going on.
#[derive(Drop)]
pub struct Sleepers {
    /// The threads that were told not yet at their last hold and weren't woken since.
    asleep: ThreadSet,
    /// Those of them that are near.
    near: ThreadSet,
    /// So many have room near, beside the thread that was woken.
    room: u32,
    /// The thread that was woken and has had no hold since, if there is one.
    woken: ThreadSet,
    /// Whether something has changed since one was last looked for that may wake.
    has_changed: bool,
}

impl Model for Sleepers {
    ghost use Rattle.std.specs.Prelude.{ℕ};

    ghost Value = { ℕ };

    ghost view = { λ sleepers. sleepers.asleep.0 };
}

impl Sleepers {
    /// No thread sleeps of those that run on so many processors.
    pub fn new(processors: usize) -> Sleepers
        ensures { result ≡ 0 }
    {
        Sleepers {
            asleep: ThreadSet::EMPTY,
            near: ThreadSet::EMPTY,
            room: room_near(processors),
            woken: ThreadSet::EMPTY,
            has_changed: false,
        }
    }

    /// An answer was added. Its thread visits the book next, and only then others are looked for.
    pub fn answered(&mut self)
        ensures { self.new ≡ self.old }
    {
        self.has_changed = true;
    }

    /// The end of a hold of the thread, where `has_turn` says which threads may go on. It answers which threads wake, all where the run is over and
    /// else at most one, and which are called near.
    ///
    /// Where then a thread is asleep that may go on, one was woken or is near. No clause says so.
    pub fn wake<F: Fn(u8) -> bool>(&mut self, thread: u8, next: Then, has_turn: F) -> Woken
        requires { F.IsAlwaysCallable has_turn }
        ensures others { KeepsOthers thread self.old self.new result }
        ensures sleeps { next ≡ Then.Sleeps → thread < 16 → IsInEither self.new result thread }
        ensures over { next ≡ Then.IsOver → self.new ≡ 0 }
    {
        let has_looked = self.asleep.has(thread);
        self.note(thread, next);
        match next {
            Then::IsOver => self.wake_all(),
            Then::GoesOn => self.call_one(thread, &has_turn),
            Then::Polls => self.wake_one(thread, &has_turn),
            Then::Sleeps => {
                let woken = self.wake_one(thread, &has_turn);
                // One that has looked for itself parks.
                let stays_near = !has_looked && self.has_room_near();
                if stays_near {
                    self.near = self.near.with(thread);
                }
                Woken {
                    stays_near,
                    ..woken
                }
            }
        }
    }

    /// Notes what the thread does after its hold.
    fn note(&mut self, thread: u8, next: Then)
        ensures this { next ≡ Then.Sleeps → thread < 16 → has_thread self.new thread ≡ true }
        ensures others { (t : ℕ) → t ≢ thread → has_thread self.new t ≡ has_thread self.old t }
    {
        self.asleep = match next {
            Then::Sleeps => self.asleep.with(thread),
            Then::GoesOn | Then::Polls | Then::IsOver => self.asleep.without(thread),
        };
        self.near = self.near.without(thread);
        self.woken = self.woken.without(thread);
        self.has_changed = self.has_changed || next == Then::GoesOn;
    }

    /// All threads wake that sleep.
    fn wake_all(&mut self) -> Woken
        ensures woken { result ≡ self.old }
        ensures none { self.new ≡ 0 }
    {
        let rung = self.asleep;
        self.asleep = ThreadSet::EMPTY;
        self.near = ThreadSet::EMPTY;
        Woken {
            rung,
            ..Woken::nobody()
        }
    }

    /// A thread that is asleep and may go on now is called near, if there is one, unless another one is near or was woken.
    fn call_one<F: Fn(u8) -> bool>(&mut self, thread: u8, has_turn: &F) -> Woken
        requires { F.IsAlwaysCallable has_turn.now }
        ensures woken { result ≡ 0 }
        ensures asleep { self.new ≡ self.old }
    {
        if !self.woken.is_empty() || !self.near.is_empty() {
            return Woken::nobody();
        }
        Woken {
            called: self.call(thread, 1, has_turn),
            ..Woken::nobody()
        }
    }

    /// A thread that is asleep and may go on now wakes, if there is one, unless one that was woken is still on its way. Those that are next after it
    /// are called near. Where nothing has changed since the last look there is none.
    fn wake_one<F: Fn(u8) -> bool>(&mut self, thread: u8, has_turn: &F) -> Woken
        requires { F.IsAlwaysCallable has_turn.now }
        ensures { (t : ℕ) → has_thread self.old t ≡ true → IsInEither self.new result t }
    {
        if !self.has_changed {
            return Woken::nobody();
        }
        let mut rung = ThreadSet::EMPTY;
        if self.woken.is_empty() {
            self.has_changed = false;
            rung = self.look(thread, ThreadSet::EMPTY, 1, has_turn);
            if rung.is_empty() {
                return Woken::nobody();
            }
            self.asleep = self.asleep.minus(rung);
            self.near = self.near.minus(rung);
            self.woken = rung;
        }
        Woken {
            stays_near: false,
            rung,
            called: self.call(thread, self.room, has_turn),
        }
    }

    /// The next threads are called near that are asleep and may go on now, so many with those that are near already. It answers those that weren't.
    fn call<F: Fn(u8) -> bool>(&mut self, thread: u8, wanted: u32, has_turn: &F) -> ThreadSet
        requires { F.IsAlwaysCallable has_turn.now }
        ensures { self.new ≡ self.old }
    {
        let called = self
            .look(thread, self.near, wanted, has_turn)
            .minus(self.near);
        self.near = self.near.union(called);
        called
    }

    /// So many of the threads that are asleep and may go on now, downwards from the thread of the hold and round, but thread 0 last. The next one
    /// mostly may go on, since threads meet at barriers. Thread 0 then waits for all others at the end of a region. Those of the set count though
    /// they aren't looked at.
    fn look<F: Fn(u8) -> bool>(
        &self,
        thread: u8,
        counted: ThreadSet,
        wanted: u32,
        has_turn: &F,
    ) -> ThreadSet
        requires { F.IsAlwaysCallable has_turn.now }
    {
        let mut found = ThreadSet::EMPTY;
        let round = (1..thread).rev().chain((thread.max(1)..THREADS).rev());
        for other in round.chain(0..1) {
            if found.len() >= wanted {
                break;
            }
            if counted.has(other) || self.asleep.has(other) && has_turn(other) {
                found = found.with(other);
            }
        }
        found
    }

    /// Whether a thread that sleeps may stay near.
    fn has_room_near(&self) -> bool {
        self.near.len() < self.room || self.asleep.len() <= FEW
    }
}

/// So many threads have room near on so many processors.
fn room_near(processors: usize) -> u32 {
    if processors <= FEW_PROCESSORS {
        1
    } else {
        u32::from(THREADS)
    }
}
