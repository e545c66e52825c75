//! A guest that keeps what it hears, and tells it when it is asked.
//!
//! A guest that comes back from a run is a `Box<dyn GuestTool>`, of which nothing but its calls is there. So it is asked by
//! a call at a position that no run has here, and answers in the words of its stores.

use omp_codes::{PROFILE, PROFILE_MASK, endpoints};
use ompt_calls::{
    Call, Frame, RegionLevel, Reply, Sequence, Snapshot, Store, TaskLevel, Word, WordAt,
    is_registered,
};
use std::alloc::{AllocError, Global};
use tool_api::{GuestTool, Memory, Registrar, Response};

/// From this position on a call is a question, whether it was heard at the position that is so much less.
const QUESTIONS: u32 = 1_000_000;

/// From this position on a call is a question, how many calls were heard of the callback whose number is so much less.
const CALLBACKS: u32 = 2_000_000;

/// The question for the counts.
const COUNTS: u32 = u32::MAX;

/// How a guest behaves.
#[derive(Clone, Copy)]
pub(crate) struct Habits {
    /// The callbacks that it registers.
    pub mask: u64,
    /// What it answers to its start.
    pub answer: u32,
    /// What it stores at the begin of a region, into the word of that region; 0 for nothing.
    pub stores: u64,
    /// What it stores at the begin of work, into the word of the current task; 0 for nothing.
    pub stores_at_work: u64,
    /// The call that finds no memory, counted from 1; 0 for none.
    pub fails: usize,
}

/// It registers the callbacks of the profile and hears them, stores nothing and finds memory.
pub(crate) const ACTIVE: Habits = Habits {
    mask: PROFILE_MASK,
    answer: 1,
    stores: 0,
    stores_at_work: 0,
    fails: 0,
};

/// A guest that keeps what it hears.
#[derive(Drop)]
pub(crate) struct Listening {
    habits: Habits,
    /// What it looks for at each call.
    inside: Snapshot,
    heard: Vec<Heard>,
    initialized: u32,
    finalized: u32,
}

/// A guest that has heard nothing.
pub(crate) fn listener(alloc: Global, habits: Habits) -> Result<Box<Listening>, Memory> {
    let guest = Listening {
        habits,
        inside: inside(alloc)?,
        heard: Vec::new(alloc),
        initialized: 0,
        finalized: 0,
    };
    Ok(Box::new(alloc, guest)?)
}

/// What a guest heard at a call, and whether it could inquire there what it can inside.
#[derive(Clone, Copy)]
struct Heard {
    seq: u32,
    thread: u8,
    call: Call,
    is_inside: bool,
}

impl Heard {
    /// Whether this call was heard on this thread at this position.
    fn is_of(&self, seq: u32, thread: u8, call: &Call) -> bool {
        self.seq == seq && self.thread == thread && self.call == *call
    }
}

impl Listening {
    /// At which of its calls, counted from 1, it heard this; 0 where it did at none. Then 1 where it could inquire there
    /// what it can inside, and else 0.
    fn told(&self, seq: u32, thread: u8, call: &Call) -> [u64; 2] {
        let mut number = 0_u64;
        for heard in &self.heard {
            number = number.saturating_add(1);
            if heard.is_of(seq, thread, call) {
                return [number, u64::from(heard.is_inside)];
            }
        }
        [0, 0]
    }

    /// How many calls it heard of the callback with this number.
    fn count_of(&self, number: u32) -> u64 {
        let mut count = 0_u64;
        for heard in &self.heard {
            if heard.call.number() == number {
                count = count.saturating_add(1);
            }
        }
        count
    }

    /// Keeps a call, or answers a question.
    fn hear(&mut self, seq: u32, thread: u8, call: &Call, snapshot: &Snapshot) -> Response {
        if seq >= QUESTIONS {
            return Ok(reply_of(self.answer_to(seq, thread, call)));
        }
        if self.heard.len().saturating_add(1) == self.habits.fails {
            return Err(AllocError);
        }
        self.heard.push(Heard {
            seq,
            thread,
            call: *call,
            is_inside: is_same(snapshot, &self.inside),
        })?;
        Ok(self.reply_to(call))
    }

    /// What it answers to a question.
    fn answer_to(&self, seq: u32, thread: u8, call: &Call) -> [u64; 3] {
        if seq == COUNTS {
            let heard = self.heard.len() as u64;
            return [
                heard,
                u64::from(self.initialized),
                u64::from(self.finalized),
            ];
        }
        if seq >= CALLBACKS {
            return [self.count_of(seq - CALLBACKS), 0, 0];
        }
        let [number, same] = self.told(seq.saturating_sub(QUESTIONS), thread, call);
        [number, same, 0]
    }

    /// What it answers to this call.
    fn reply_to(&self, call: &Call) -> Reply {
        if self.habits.stores != 0 && matches!(call, Call::ParallelBegin { .. }) {
            return Reply::store(WordAt::Fresh, self.habits.stores);
        }
        if self.habits.stores_at_work != 0
            && matches!(
                call,
                Call::Work {
                    endpoint: endpoints::BEGIN,
                    ..
                }
            )
        {
            return Reply::store(WordAt::Task(0), self.habits.stores_at_work);
        }
        Reply::none()
    }
}

impl GuestTool for Listening {
    ghost use Rattle.std.specs.Prelude.{⊤};

    ghost stands_for = { λ guest h. ⊤ };

    fn initialize(&mut self, registrar: &mut Registrar) -> u32 {
        self.initialized = self.initialized.saturating_add(1);
        for number in 0..64_u32 {
            if is_registered(self.habits.mask, number) {
                registrar.set(number);
            }
        }
        self.habits.answer
    }

    fn callback(&mut self, seq: u32, thread: u8, call: &Call, snapshot: &Snapshot) -> Response {
        self.hear(seq, thread, call, snapshot)
    }

    fn finalize(&mut self) {
        self.finalized = self.finalized.saturating_add(1);
    }
}

/// What a guest answers.
#[derive(Drop)]
pub(crate) struct Answers {
    /// How many calls it got, how often it was started, and how often it was finished.
    pub counts: [u64; 3],
    /// How many calls it got of each callback of the profile, in their order.
    pub by_callback: Vec<u64>,
    /// For each call that it is asked for, at which of its calls, counted from 1, it heard this; 0 where it did at none. And
    /// whether it could inquire there what it can inside.
    pub heard: Vec<(u64, bool)>,
}

/// Asks a guest for its counts, for those of each callback, and for these calls of thread 0.
pub(crate) fn answers_of(
    alloc: Global,
    guest: &mut Box<dyn GuestTool>,
    asked: &[(u32, Call)],
) -> Result<Answers, Memory> {
    let snapshot = inside(alloc)?;
    let counts = words_of(guest.callback(COUNTS, 0, &QUESTION, &snapshot)?);
    answers_with(alloc, guest, &snapshot, counts, asked)
}

/// The answers of a guest with these counts.
fn answers_with(
    alloc: Global,
    guest: &mut Box<dyn GuestTool>,
    snapshot: &Snapshot,
    counts: [u64; 3],
    asked: &[(u32, Call)],
) -> Result<Answers, Memory> {
    let by_callback = counts_by_callback(alloc, guest, snapshot)?;
    let heard = heard_of(alloc, guest, snapshot, asked)?;
    Ok(Answers {
        counts,
        by_callback,
        heard,
    })
}

/// How many calls the guest got of each callback of the profile.
fn counts_by_callback(
    alloc: Global,
    guest: &mut Box<dyn GuestTool>,
    snapshot: &Snapshot,
) -> Result<Vec<u64>, Memory> {
    let mut counts = Vec::new(alloc);
    for number in PROFILE {
        let asked = CALLBACKS.saturating_add(number);
        let [count, _, _] = words_of(guest.callback(asked, 0, &QUESTION, snapshot)?);
        counts.push(count)?;
    }
    Ok(counts)
}

/// At which of its calls the guest heard each of these, and whether it could inquire there what it can inside.
fn heard_of(
    alloc: Global,
    guest: &mut Box<dyn GuestTool>,
    snapshot: &Snapshot,
    asked: &[(u32, Call)],
) -> Result<Vec<(u64, bool)>, Memory> {
    let mut heard = Vec::new(alloc);
    for (seq, call) in asked {
        let reply = guest.callback(QUESTIONS.saturating_add(*seq), 0, call, snapshot)?;
        let [number, same, _] = words_of(reply);
        heard.push((number, same == 1))?;
    }
    Ok(heard)
}

/// The call by which a guest is asked for its counts, which tells nothing.
const QUESTION: Call = Call::ThreadEnd {
    thread: Word {
        identity: 0,
        value: 0,
    },
};

pub(crate) const NULL: Word = Word {
    identity: 0,
    value: 0,
};

pub(crate) const ONE: Word = Word {
    identity: 1,
    value: 0,
};

pub(crate) const TWO: Word = Word {
    identity: 2,
    value: 0,
};

/// The word of region 2, into which 77 was stored.
pub(crate) const STORED: Word = Word {
    identity: 2,
    value: 77,
};

/// The level of the member's task in a region of two, on one thread.
const MEMBER: TaskLevel = TaskLevel {
    flags: 2,
    word: TWO,
    frame: Frame { exit: 2, enter: 0 },
    region: STORED,
    index: 0,
};

/// The level of the initial task there.
const INITIAL: TaskLevel = TaskLevel {
    flags: 1,
    word: ONE,
    frame: Frame {
        exit: 0,
        enter: 32_769,
    },
    region: ONE,
    index: 0,
};

/// What can be inquired on one thread at the begin of the member's task in a region of two. What the event makes is left out:
/// no inquiry tells it.
fn inside(alloc: Global) -> Result<Snapshot, Memory> {
    Ok(Snapshot {
        thread: ONE,
        state: 0x001,
        wait_id: 0,
        tasks: Sequence(Vec::from_array(alloc, [MEMBER, INITIAL])?),
        regions: Sequence(Vec::from_array(alloc, [region_of(STORED), region_of(ONE)])?),
        fresh: None,
    })
}

/// The level of a region of one with this word.
fn region_of(word: Word) -> RegionLevel {
    RegionLevel { word, team: 1 }
}

/// Whether the same can be inquired of both.
fn is_same(snapshot: &Snapshot, other: &Snapshot) -> bool {
    snapshot.get_thread_data() == other.get_thread_data()
        && snapshot.get_state() == other.get_state()
        && snapshot.tasks.0.as_slice() == other.tasks.0.as_slice()
        && snapshot.regions.0.as_slice() == other.regions.0.as_slice()
}

/// An answer of three words.
fn reply_of([first, second, third]: [u64; 3]) -> Reply {
    Reply {
        first: answered(first),
        second: answered(second),
        third: answered(third),
    }
}

/// A word of an answer.
fn answered(word: u64) -> Option<Store> {
    Some(Store {
        place: WordAt::Thread,
        word,
    })
}

/// The words of an answer; 0 for one that is not there.
fn words_of(reply: Reply) -> [u64; 3] {
    [
        word_of(reply.first),
        word_of(reply.second),
        word_of(reply.third),
    ]
}

/// The word of a store; 0 for none.
fn word_of(store: Option<Store>) -> u64 {
    match store {
        Some(store) => store.word,
        None => 0,
    }
}
