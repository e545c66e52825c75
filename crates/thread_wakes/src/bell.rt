//! What a thread sleeps on that can't go on yet.

use std::sync::Wait;
use std::sync::atomic::{AtomicBool, Ordering};
use std::thread;
use std::thread::Parker;

/// How often a thread that is near lets others have its processor before it looks for itself. Most waits are over by then, and to park a thread and
/// to wake it again costs more than most of them.
const YIELDS: u32 = 200;

/// The bell of a thread. It may be rung before the thread sleeps, which then goes on at once. No clause says that a sleep ends.
///
/// A sleep ends by a ring, or after the yields where the thread is near. Who rings sets `rung` before the unpark, and the thread looks at it before
/// each park and after it. So a ring isn't lost, whether it comes before the sleep, among the yields, or before or during a park. Nor is a call,
/// which sets `is_near` in the same way: the thread takes it back only where it wakes, and then it visits the book.
#[derive(Drop)]
pub struct Bell {
    /// Whether the bell was rung, and the thread hasn't taken the ring yet.
    rung: AtomicBool,
    /// Whether the thread is near, where it sleeps.
    is_near: AtomicBool,
    /// Whether the thread never sleeps.
    polls: AtomicBool,
    /// Where the thread parks.
    parker: Parker,
}

impl Bell {
    /// A bell that wasn't rung.
    pub fn new() -> Bell {
        Bell {
            rung: AtomicBool::new(false),
            is_near: AtomicBool::new(false),
            polls: AtomicBool::new(false),
            parker: Parker::new(),
        }
    }

    /// Wakes the thread, or keeps it from its next sleep.
    pub fn ring(&self) {
        self.rung.store(true, Ordering::SeqCst);
        self.parker.unpark();
    }

    /// Calls the thread near: it looks for itself soon.
    pub fn call(&self) {
        self.is_near.store(true, Ordering::SeqCst);
        self.parker.unpark();
    }

    /// The thread stays near in its next sleep. It says so itself.
    pub fn stay(&self) {
        self.is_near.store(true, Ordering::SeqCst);
    }

    /// The thread never sleeps from now on. It says so itself.
    pub fn poll(&self) {
        self.polls.store(true, Ordering::Relaxed);
    }

    /// Whether the thread never sleeps. It asks itself.
    pub fn polls(&self) -> bool {
        self.polls.load(Ordering::Relaxed)
    }

    /// Sleeps until the bell is rung, and where the thread is near no longer than the yields.
    pub fn sleep(&self, rt: &impl Wait) {
        for _ in rt.forever() {
            if self.is_near.load(Ordering::SeqCst) {
                self.wait_near();
                self.is_near.store(false, Ordering::SeqCst);
                return;
            }
            if self.take_ring() {
                return;
            }
            self.parker.park(rt);
        }
    }

    /// Waits until the bell is rung, and no longer than the yields.
    fn wait_near(&self) {
        for _ in 0..YIELDS {
            if self.take_ring() {
                return;
            }
            thread::yield_now();
        }
    }

    /// Whether the bell was rung. The ring is taken, and isn't there any more. To look first leaves the word with whoever rings.
    fn take_ring(&self) -> bool {
        self.rung.load(Ordering::Relaxed) && self.rung.swap(false, Ordering::SeqCst)
    }
}
