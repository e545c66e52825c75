//! The bells of all threads of a run.

use crate::bell::Bell;
use crate::sleepers::Woken;
use crate::thread_set::ThreadSet;
use std::alloc::{AllocError, Global};
use std::sync::Wait;

/// For each thread the bell that wakes it. They stand beside the lock, so nobody needs the lock to ring one or to sleep.
#[derive(Drop)]
pub struct Bells {
    /// A bell for each thread, in order.
    bells: Vec<Bell>,
}

impl Bells {
    /// Makes a bell for each of so many threads.
    pub fn new(alloc: Global, threads: u8) -> Result<Bells, AllocError> {
        let mut bells = Vec::new(alloc);
        for _thread in 0..threads {
            bells.push(Bell::new())?;
        }
        Ok(Bells { bells })
    }

    /// The end of a hold of the thread, once the lock is given back: others wake, it is told whether it stays near, and others are called near.
    pub fn ring(&self, thread: u8, woken: &Woken) {
        self.each(woken.rung, |bell| bell.ring());
        if woken.stays_near {
            if let Some(bell) = self.bell(thread) {
                bell.stay();
            }
        }
        self.each(woken.called, |bell| bell.call());
    }

    /// The thread sleeps until it is woken. It may wake earlier, to look for itself. No clause says that it wakes.
    pub fn sleep(&self, rt: &impl Wait, thread: u8) {
        if let Some(bell) = self.bell(thread) {
            bell.sleep(rt);
        }
    }

    /// The thread never sleeps from now on. It says so itself.
    pub fn poll(&self, thread: u8) {
        if let Some(bell) = self.bell(thread) {
            bell.poll();
        }
    }

    /// Whether the thread never sleeps. It asks itself.
    pub fn polls(&self, thread: u8) -> bool {
        match self.bell(thread) {
            Some(bell) => bell.polls(),
            None => false,
        }
    }

    /// The thread's bell, if there is such a thread.
    fn bell(&self, thread: u8) -> Option<&Bell> {
        self.bells.get(thread as usize)
    }

    /// Does this to the bell of each of the threads.
    fn each<A: Fn(&Bell)>(&self, threads: ThreadSet, act: A)
        requires { A.IsAlwaysCallable act }
    {
        if threads.is_empty() {
            return;
        }
        for (thread, bell) in (0u8..).zip(self.bells.iter()) {
            if threads.has(thread) {
                act(bell);
            }
        }
    }
}
