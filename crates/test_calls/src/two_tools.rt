//! Two tools in one, against what each is to hear and what is to be stored, written out by hand. The constants are tables, a row a case.

ghost use Rattle.std.specs.Prelude.{⊤};

use crate::calls::snapshot_of_two;
use ompt_calls::{Call, Reply, Snapshot, Store, Target, Word, WordAt};
use std::alloc::{AllocError, Global};
use tool_api::{Memory, Registrar, Response, ToolPart};
use tool_both::{Both, Masks};

/// How a tool behaves.
#[derive(Clone, Copy)]
struct Habits {
    /// The callbacks that it registers.
    numbers: &'static [u32],
    /// What it answers to `initialize`.
    answer: u32,
    /// What it replies to each call.
    reply: Reply,
    /// The position of an event for which it finds no memory.
    lost: Option<u32>,
}

/// A tool that keeps the positions of what it hears.
#[derive(Drop)]
struct Hearer {
    habits: Habits,
    heard: Vec<u32>,
    ends: u32,
}

impl ToolPart for Hearer {
    ghost stands_for = { λ hearer h. ⊤ };

    ghost same = { λ hearer other. ⊤ };

    ghost same_itself = { λ hearer. tt };

    ghost same_onward = { λ first second third one other. tt };

    fn initialize(&mut self, registrar: &mut Registrar) -> u32 {
        for number in self.habits.numbers {
            registrar.set(*number);
        }
        self.habits.answer
    }

    fn callback(&mut self, seq: u32, _thread: u8, _call: &Call, _snapshot: &Snapshot) -> Response {
        if self.habits.lost == Some(seq) {
            return Err(AllocError);
        }
        self.heard.push(seq)?;
        Ok(self.habits.reply)
    }

    fn finalize(&mut self) {
        self.ends = self.ends.saturating_add(1);
    }
}

/// Two tools, and what is to come of them.
struct Row {
    first: Habits,
    second: Habits,
    /// What both register and answer together.
    mask: u64,
    answer: u32,
    /// The reply to each event, or none where no memory was found.
    replies: [Option<Reply>; 4],
    whole: bool,
    /// What each heard, and how often it was finished.
    first_heard: (&'static [u32], u32),
    second_heard: (&'static [u32], u32),
}

const THREAD: Word = Word {
    identity: 1,
    value: 0,
};

const BEGIN: Call = Call::ThreadBegin {
    kind: 1,
    thread: THREAD,
};

const END: Call = Call::ThreadEnd { thread: THREAD };

/// The events, by position. The numbers of their callbacks are 1 and 2.
const EVENTS: [Call; 4] = [BEGIN, END, BEGIN, END];

/// Stores, named by their places and words.
const THREAD_1: Option<Store> = Some(Store {
    place: WordAt::Thread,
    word: 1,
});

const OUTER_2: Option<Store> = Some(Store {
    place: WordAt::Parallel(0),
    word: 2,
});

const OUTER_3: Option<Store> = Some(Store {
    place: WordAt::Parallel(1),
    word: 3,
});

const TASK_1: Option<Store> = Some(Store {
    place: WordAt::Task(0),
    word: 1,
});

const TASK_2: Option<Store> = Some(Store {
    place: WordAt::Task(0),
    word: 2,
});

const TASK_3: Option<Store> = Some(Store {
    place: WordAt::Task(0),
    word: 3,
});

const TASK_4: Option<Store> = Some(Store {
    place: WordAt::Task(0),
    word: 4,
});

const TASK_5: Option<Store> = Some(Store {
    place: WordAt::Task(0),
    word: 5,
});

const TASK_9: Option<Store> = Some(Store {
    place: WordAt::Task(0),
    word: 9,
});

const PARENT_5: Option<Store> = Some(Store {
    place: WordAt::Task(1),
    word: 5,
});

const PARENT_4: Option<Store> = Some(Store {
    place: WordAt::Task(1),
    word: 4,
});

const FRESH_6: Option<Store> = Some(Store {
    place: WordAt::Fresh,
    word: 6,
});

const NOWHERE_8: Option<Store> = Some(Store {
    place: WordAt::Parallel(2),
    word: 8,
});

const NOTHING: Reply = Reply {
    first: None,
    second: None,
    third: None,
};

const FIVE: Reply = Reply {
    first: TASK_5,
    second: None,
    third: None,
};

const NINE: Reply = Reply {
    first: TASK_9,
    second: None,
    third: None,
};

const OUTER: Reply = Reply {
    first: THREAD_1,
    second: OUTER_2,
    third: OUTER_3,
};

const INNER: Reply = Reply {
    first: TASK_4,
    second: PARENT_5,
    third: FRESH_6,
};

/// Three stores into one word.
const THRICE: Reply = Reply {
    first: TASK_1,
    second: TASK_2,
    third: TASK_3,
};

const LAST_OF_THRICE: Reply = Reply {
    first: TASK_3,
    second: None,
    third: None,
};

/// Two of its three stores go to one word.
const TWICE: Reply = Reply {
    first: THREAD_1,
    second: TASK_2,
    third: TASK_3,
};

const TWICE_ALONE: Reply = Reply {
    first: THREAD_1,
    second: TASK_3,
    third: None,
};

const TWICE_AND_PARENT: Reply = Reply {
    first: THREAD_1,
    second: TASK_3,
    third: PARENT_4,
};

/// A store at a place that isn't there, and one that is.
const PARENT: Reply = Reply {
    first: NOWHERE_8,
    second: PARENT_4,
    third: None,
};

/// It hears of begins and ends, and stores nothing.
const ACTIVE: Habits = Habits {
    numbers: &[1, 2],
    answer: 1,
    reply: NOTHING,
    lost: None,
};

const STORES_FIVE: Habits = Habits {
    reply: FIVE,
    ..ACTIVE
};

const STORES_NINE: Habits = Habits {
    reply: NINE,
    ..ACTIVE
};

const ALL: (&[u32], u32) = (&[0, 1, 2, 3], 1);

const ROWS: &[Row] = &[
    // both store into one word: the second's counts
    Row {
        first: STORES_FIVE,
        second: STORES_NINE,
        mask: 6,
        answer: 1,
        replies: [Some(NINE); 4],
        whole: true,
        first_heard: ALL,
        second_heard: ALL,
    },
    // six words: the second's three
    Row {
        first: Habits {
            reply: OUTER,
            ..ACTIVE
        },
        second: Habits {
            reply: INNER,
            ..ACTIVE
        },
        mask: 6,
        answer: 1,
        replies: [Some(INNER); 4],
        whole: true,
        first_heard: ALL,
        second_heard: ALL,
    },
    // each hears of its own, in events of its own
    Row {
        first: Habits {
            numbers: &[1],
            answer: 7,
            reply: OUTER,
            ..ACTIVE
        },
        second: Habits {
            numbers: &[2, 31],
            reply: THRICE,
            ..ACTIVE
        },
        mask: 6,
        answer: 1,
        replies: [
            Some(OUTER),
            Some(LAST_OF_THRICE),
            Some(OUTER),
            Some(LAST_OF_THRICE),
        ],
        whole: true,
        first_heard: (&[0, 2], 1),
        second_heard: (&[1, 3], 1),
    },
    // four stores, of which two go to one word
    Row {
        first: Habits {
            reply: TWICE,
            ..ACTIVE
        },
        second: Habits {
            numbers: &[2],
            reply: PARENT,
            ..ACTIVE
        },
        mask: 6,
        answer: 1,
        replies: [
            Some(TWICE_ALONE),
            Some(TWICE_AND_PARENT),
            Some(TWICE_ALONE),
            Some(TWICE_AND_PARENT),
        ],
        whole: true,
        first_heard: ALL,
        second_heard: (&[1, 3], 1),
    },
    // the first is inactive, whatever it registers
    Row {
        first: Habits {
            answer: 0,
            ..STORES_FIVE
        },
        second: Habits {
            numbers: &[2],
            ..STORES_NINE
        },
        mask: 4,
        answer: 1,
        replies: [Some(NOTHING), Some(NINE), Some(NOTHING), Some(NINE)],
        whole: true,
        first_heard: (&[], 0),
        second_heard: (&[1, 3], 1),
    },
    // both are inactive
    Row {
        first: Habits {
            answer: 0,
            ..STORES_FIVE
        },
        second: Habits {
            answer: 0,
            ..STORES_NINE
        },
        mask: 0,
        answer: 0,
        replies: [Some(NOTHING); 4],
        whole: true,
        first_heard: (&[], 0),
        second_heard: (&[], 0),
    },
    // the second registers nothing, and is finished nevertheless
    Row {
        first: STORES_FIVE,
        second: Habits {
            numbers: &[],
            ..STORES_NINE
        },
        mask: 6,
        answer: 1,
        replies: [Some(FIVE); 4],
        whole: true,
        first_heard: ALL,
        second_heard: (&[], 1),
    },
    // the second finds no memory in its second call, of which the first heard
    Row {
        first: STORES_FIVE,
        second: Habits {
            lost: Some(1),
            ..STORES_NINE
        },
        mask: 6,
        answer: 1,
        replies: [Some(NINE), None, None, None],
        whole: false,
        first_heard: (&[0, 1], 1),
        second_heard: (&[0], 1),
    },
    // the same, where the first didn't hear of it
    Row {
        first: Habits {
            numbers: &[1],
            ..STORES_FIVE
        },
        second: Habits {
            lost: Some(1),
            ..STORES_NINE
        },
        mask: 6,
        answer: 1,
        replies: [Some(NINE), None, Some(NINE), Some(NINE)],
        whole: true,
        first_heard: (&[0, 2], 1),
        second_heard: (&[0, 2, 3], 1),
    },
    // the first finds no memory, and the second isn't told
    Row {
        first: Habits {
            lost: Some(1),
            ..STORES_FIVE
        },
        second: STORES_NINE,
        mask: 6,
        answer: 1,
        replies: [Some(NINE), None, Some(NINE), Some(NINE)],
        whole: true,
        first_heard: (&[0, 2, 3], 1),
        second_heard: (&[0, 2, 3], 1),
    },
];

#[test]
fn each_of_two_tools_hears_its_own(rt: HostRuntime) -> Result<(), Memory> {
    let mut snapshot = snapshot_of_two(rt.alloc())?;
    snapshot.fresh = Some(Target::Task(3));
    let mut number = 0_u32;
    for row in ROWS {
        number = number.saturating_add(1);
        assert!(rt; comes_so(rt.alloc(), row, &snapshot), "row {number}");
    }
    assert!(rt; number == 10);
    Ok(())
}

/// Whether all of the row comes so.
fn comes_so(alloc: Global, row: &Row, snapshot: &Snapshot) -> bool {
    let mut first = hearer_of(alloc, row.first);
    let mut second = hearer_of(alloc, row.second);
    let masks = Masks::ask(&mut first, &mut second);
    let mut both = Both::new(first, second, masks);
    let mut registrar = Registrar::new();
    let answer = both.initialize(&mut registrar);
    let replies = replies_of(&mut both, snapshot);
    both.finalize();
    let whole = both.whole();
    let (first, second) = both.split();
    answer == row.answer
        && registrar.mask() == row.mask
        && replies == row.replies
        && whole == row.whole
        && has_heard(&first, row.first_heard)
        && has_heard(&second, row.second_heard)
}

/// A tool that has heard nothing yet.
fn hearer_of(alloc: Global, habits: Habits) -> Hearer {
    Hearer {
        habits,
        heard: Vec::new(alloc),
        ends: 0,
    }
}

/// The reply to each event.
fn replies_of<P: ToolPart>(part: &mut P, snapshot: &Snapshot) -> [Option<Reply>; 4] {
    let mut replies = [None; 4];
    for (seq, call) in EVENTS.iter().enumerate() {
        replies[seq] = part.callback(seq as u32, 0, call, snapshot).ok();
    }
    replies
}

/// Whether the tool heard of these positions, and was finished so often.
fn has_heard(tool: &Hearer, wanted: (&'static [u32], u32)) -> bool {
    tool.heard.as_slice() == wanted.0 && tool.ends == wanted.1
}
