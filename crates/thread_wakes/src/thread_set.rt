//! Sets of threads.

ghost use Rattle.std.specs.Prelude.{◌≡◌, ◌≢◌, ℕ, ◌<◌, ◌≤◌, ◌^◌, ◌&&◌, ◌||◌, not, true, false};
ghost use Rattle.thread_wakes.specs.ThreadSets.{has_thread};

/// A set of threads of a run, which has 16 at most.
#[derive(Clone, Copy)]
pub struct ThreadSet(pub u16);

impl ThreadSet {
    /// No thread.
    pub const EMPTY: ThreadSet = ThreadSet(0);

    /// Whether it has no thread.
    pub fn is_empty(self) -> bool {
        self.0 == 0
    }

    /// How many threads it has.
    pub fn len(self) -> u32 {
        self.0.count_ones()
    }

    /// Whether it has the thread.
    pub fn has(self, thread: u8) -> bool
        ensures { result ≡ has_thread self.0 thread }
    {
        self.0 & bit(thread) != 0
    }

    /// The set with the thread, where a run may have it.
    pub fn with(self, thread: u8) -> ThreadSet
        ensures this { thread < 16 → has_thread result.0 thread ≡ true }
        ensures others { (t : ℕ) → t ≢ thread → has_thread result.0 t ≡ has_thread self.0 t }
    {
        ThreadSet(self.0 | bit(thread))
    }

    /// The set without the thread.
    pub fn without(self, thread: u8) -> ThreadSet
        ensures this { has_thread result.0 thread ≡ false }
        ensures others { (t : ℕ) → t ≢ thread → has_thread result.0 t ≡ has_thread self.0 t }
    {
        ThreadSet(self.0 & !bit(thread))
    }

    /// The threads of either set.
    pub fn union(self, other: ThreadSet) -> ThreadSet
        ensures { (t : ℕ) → has_thread result.0 t ≡ (has_thread self.0 t || has_thread other.0 t) }
    {
        ThreadSet(self.0 | other.0)
    }

    /// The threads of this set that aren't in the other one.
    pub fn minus(self, other: ThreadSet) -> ThreadSet
        ensures { (t : ℕ) → has_thread result.0 t ≡ (has_thread self.0 t && not (has_thread other.0 t)) }
    {
        ThreadSet(self.0 & !other.0)
    }
}

/// The thread's bit, if it has one.
fn bit(thread: u8) -> u16
    ensures one { thread < 16 → result ≡ 2 ^ thread }
    ensures none { 16 ≤ thread → result ≡ 0 }
{
    1u16.checked_shl(u32::from(thread)).unwrap_or(0)
}
