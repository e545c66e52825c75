//! Serial runs with parts of a tool that no guest is: what each part hears, and replies with several stores.

use crate::fixture::{ONE, REGION_OF_TWO, TWO, run_with};
use omp_model::{Cause, Entry, What};
use ompt_calls::{Call, RegionLevel, Reply, Snapshot, Store, Target, TaskLevel, Word, WordAt};
use std::alloc::Global;
use std::process::Abort;
use team_run::{Memory, Ran};
use tool_api::{ACTIVE, Registrar, ToolPart};

/// A part that registers the callbacks of the profile, keeps what it hears, and stores at its positions.
#[derive(Drop)]
pub(crate) struct Keeping {
    replies: Vec<(u32, Reply)>,
    pub heard: Vec<Heard>,
}

/// What a part hears at a call: the position, the thread, the number of the callback, and what it could inquire there.
#[derive(Clone, Copy)]
pub(crate) struct Heard {
    pub seq: u32,
    pub thread: u8,
    pub number: u32,
    pub inquired: Inquired,
}

/// What can be inquired.
#[derive(Clone, Copy)]
pub(crate) struct Inquired {
    pub word: Word,
    pub state: (u16, u32),
    pub tasks: [Option<TaskLevel>; 3],
    pub regions: [Option<RegionLevel>; 3],
}

impl Keeping {
    /// What it replies at this position.
    fn reply_at(&self, seq: u32) -> Reply {
        for &(at, reply) in &self.replies {
            if at == seq {
                return reply;
            }
        }
        Reply::none()
    }
}

impl ToolPart for Keeping {
    ghost use Rattle.std.specs.Prelude.{⊤};

    ghost stands_for = { λ part h. ⊤ };

    ghost same = { λ part other. ⊤ };

    ghost same_itself = { λ part. tt };

    ghost same_onward = { λ first second third one other. tt };

    fn initialize(&mut self, registrar: &mut Registrar) -> u32 {
        registrar.set_profile();
        ACTIVE
    }

    fn callback(
        &mut self,
        seq: u32,
        thread: u8,
        call: &Call,
        snapshot: &Snapshot,
    ) -> Result<Reply, tool_api::Memory> {
        self.heard.push(Heard {
            seq,
            thread,
            number: call.number(),
            inquired: inquired_of(snapshot),
        })?;
        Ok(self.reply_at(seq))
    }

    fn finalize(&mut self) {}
}

/// What can be inquired of a snapshot.
fn inquired_of(snapshot: &Snapshot) -> Inquired {
    Inquired {
        word: snapshot.get_thread_data(),
        state: snapshot.get_state(),
        tasks: [
            snapshot.get_task_info(0),
            snapshot.get_task_info(1),
            snapshot.get_task_info(2),
        ],
        regions: [
            snapshot.get_parallel_info(0),
            snapshot.get_parallel_info(1),
            snapshot.get_parallel_info(2),
        ],
    }
}

/// Each of two parts hears what its own thread comes to.
#[test]
fn two_parts_hear_their_own(rt: HostRuntime) -> Result<(), Memory> {
    let ran = run_on_two(rt.alloc(), REGION_OF_TWO)?;
    assert!(rt; ran.cause == Cause::Done);
    let [first, second] = ran.parts.as_slice() else {
        panic!(rt; "there are two parts");
    };
    heard_at(&rt, first, 0, &[0, 2, 4, 8, 12, 16, 20, 24, 28, 32, 37, 39]);
    heard_at(&rt, second, 1, &[6, 10, 14, 18, 22, 26, 30, 35]);
    Ok(())
}

/// What the entries of thread 0 are from position 6 on, in a run with stores.
const STORED: [What; 8] = [
    What::Go,
    What::Put(Target::Thread(0), 11),
    What::Put(Target::Task(2), 22),
    What::Put(Target::Parallel(2), 33),
    What::Back,
    What::Go,
    What::Put(Target::Thread(0), 66),
    What::Back,
];

/// The word of region 2, into which 33 was stored.
const STORED_REGION: Word = Word {
    identity: 2,
    value: 33,
};

/// The word of task 2, into which 22 was stored.
const STORED_TASK: Word = Word {
    identity: 2,
    value: 22,
};

/// What a part hears of the member's task, from its fourth call on: the position, and the words of the thread, the region and the task.
const MEMBER_WORDS: [(u32, Word, Word, Word); 3] = [
    (6, ONE, TWO, TWO),
    (
        11,
        Word {
            identity: 1,
            value: 11,
        },
        STORED_REGION,
        STORED_TASK,
    ),
    (
        14,
        Word {
            identity: 1,
            value: 66,
        },
        STORED_REGION,
        STORED_TASK,
    ),
];

/// Three stores of one reply take effect in their order, and of three others the one whose place is there.
#[test]
fn a_reply_stores_thrice(rt: HostRuntime) -> Result<(), Memory> {
    let ran = run_with_stores(rt.alloc())?;
    assert!(rt; ran.cause == Cause::Done);
    let stored = STORED.map(|what| Entry { thread: 0, what });
    assert!(rt; ran.history.as_slice().get(6..14) == Some(stored.as_slice()));
    let [part] = ran.parts.as_slice() else {
        panic!(rt; "there is one part");
    };
    hears_the_words(&rt, &part.heard);
    Ok(())
}

/// There are twelve calls, of which those from the fourth one on have the words of the member's task.
fn hears_the_words(rt: &impl Abort, heard: &[Heard]) {
    assert!(rt; heard.len() == 12);
    for (heard, words) in heard.iter().skip(3).zip(&MEMBER_WORDS) {
        has_words(rt, heard, words);
    }
}

/// What was heard has this position, and these words of the thread, the region and the task.
fn has_words(
    rt: &impl Abort,
    heard: &Heard,
    (seq, thread, region, task): &(u32, Word, Word, Word),
) {
    assert!(rt; heard.seq == *seq);
    assert!(rt; heard.inquired.word == *thread);
    let innermost = heard.inquired.tasks[0].map(|level| (level.region, level.word));
    assert!(rt; innermost == Some((*region, *task)), "at {seq}");
}

/// Three stores where the member's task begins.
const THRICE: Reply = Reply {
    first: Some(Store {
        place: WordAt::Thread,
        word: 11,
    }),
    second: Some(Store {
        place: WordAt::Task(0),
        word: 22,
    }),
    third: Some(Store {
        place: WordAt::Parallel(0),
        word: 33,
    }),
};

/// Three more where its barrier begins: that event makes nothing, and there are two levels of tasks.
const ONCE: Reply = Reply {
    first: Some(Store {
        place: WordAt::Fresh,
        word: 44,
    }),
    second: Some(Store {
        place: WordAt::Task(2),
        word: 55,
    }),
    third: Some(Store {
        place: WordAt::Thread,
        word: 66,
    }),
};

/// A run on one thread, whose part stores.
fn run_with_stores(alloc: Global) -> Result<Ran<Keeping>, Memory> {
    let mut part = new_part(alloc);
    part.replies.extend_from_slice(&[(6, THRICE), (11, ONCE)])?;
    let parts = Vec::from_array(alloc, [part])?;
    run_with(alloc, REGION_OF_TWO, parts)
}

/// A part that has heard nothing, and stores nothing.
fn new_part(alloc: Global) -> Keeping {
    Keeping {
        replies: Vec::new(alloc),
        heard: Vec::new(alloc),
    }
}

/// A run of the text's program on one thread, whose part stores nothing.
pub(crate) fn run_on_one(alloc: Global, text: &[u8]) -> Result<Ran<Keeping>, Memory> {
    let parts = Vec::from_array(alloc, [new_part(alloc)])?;
    run_with(alloc, text, parts)
}

/// The same on two threads, each with its part.
pub(crate) fn run_on_two(alloc: Global, text: &[u8]) -> Result<Ran<Keeping>, Memory> {
    let parts = Vec::from_array(alloc, [new_part(alloc), new_part(alloc)])?;
    run_with(alloc, text, parts)
}

/// The part heard of this thread alone, at these positions.
fn heard_at(rt: &impl Abort, part: &Keeping, thread: u8, positions: &[u32]) {
    assert!(rt; part.heard.len() == positions.len());
    for (heard, position) in part.heard.iter().zip(positions) {
        assert!(rt; (heard.seq, heard.thread) == (*position, thread));
    }
}
