//! A line and the inquiries, against values written out by hand. The listing of a region of two has the other lines.

use ompt_calls::{
    Argument, Call, CodePlace, Frame, Memory, RegionLevel, Reply, Sequence, Snapshot, Store,
    Target, TaskLevel, Word, WordAt, line_of,
};
use std::alloc::Global;

#[test]
fn the_longest_numbers_are_written(rt: HostRuntime) -> Result<(), Memory> {
    let thread = Word {
        identity: u32::MAX,
        value: u64::MAX,
    };
    let line = line_of(rt.alloc(), u32::MAX, u8::MAX, &Call::ThreadEnd { thread })?;
    let want = b"4294967295 255 thread_end 4294967295:18446744073709551615\n";
    assert!(rt; line.as_slice() == want.as_slice());
    Ok(())
}

#[test]
fn arguments_stand_in_their_order(rt: HostRuntime) {
    let call = Call::ParallelBegin {
        task: ONE,
        frame: Frame { exit: 3, enter: 4 },
        region: TWO,
        requested: 5,
        flags: 6,
        codeptr: 7,
    };
    let want = [
        Argument::Word(ONE),
        Argument::Frame(Frame { exit: 3, enter: 4 }),
        Argument::Word(TWO),
        Argument::Short(5),
        Argument::Short(6),
        Argument::Long(7),
    ];
    assert!(rt; call.arguments().as_slice() == want.as_slice());
    assert!(rt; call.name() == "parallel_begin");
}

#[test]
fn places_have_a_line_and_a_column(rt: HostRuntime) -> Result<(), Memory> {
    let place = CodePlace(131_077);
    assert!(rt; place.line() == 2);
    assert!(rt; place.column() == 5);
    let text = format!(in rt.alloc(); "{place}")?;
    assert!(rt; text.as_str() == "2:5");
    Ok(())
}

#[test]
fn replies_store_one_word_or_none(rt: HostRuntime) {
    let none = Reply {
        first: None,
        second: None,
        third: None,
    };
    let store = Store {
        place: WordAt::Fresh,
        word: 9,
    };
    assert!(rt; Reply::none() == none);
    assert!(rt;
        Reply::store(WordAt::Fresh, 9)
            == Reply {
                first: Some(store),
                ..none
            }
    );
}

const ONE: Word = Word {
    identity: 1,
    value: 0,
};

const TWO: Word = Word {
    identity: 2,
    value: 0,
};

/// The word of region 2, into which 77 was stored.
const STORED: Word = Word {
    identity: 2,
    value: 77,
};

/// What the inquiries at a level of tasks and at one of regions give as words.
const WORDS: &[(u32, Option<Word>, Option<Word>)] = &[
    (0, Some(TWO), Some(STORED)),
    (1, Some(ONE), Some(ONE)),
    (2, None, None),
    (u32::MAX, None, None),
];

/// Places of words, and the targets that they are.
const TARGETS: &[(WordAt, Option<Target>)] = &[
    (WordAt::Thread, Some(Target::Thread(0))),
    (WordAt::Parallel(0), Some(Target::Parallel(2))),
    (WordAt::Parallel(2), None),
    (WordAt::Task(1), Some(Target::Task(1))),
    (WordAt::Task(2), None),
    (WordAt::Fresh, None),
];

#[test]
fn inquiries_read_the_snapshot(rt: HostRuntime) -> Result<(), Memory> {
    let snapshot = snapshot_of_two(rt.alloc())?;
    assert!(rt; snapshot.get_state() == (0x001, 0));
    assert!(rt; snapshot.get_thread_data() == ONE);
    assert!(rt; (snapshot.tasks.len(), snapshot.regions.len()) == (2, 2));
    for (level, task, region) in WORDS {
        let found = words_at(&snapshot, *level);
        assert!(rt; found == (*task, *region), "at {level}");
    }
    for (place, target) in TARGETS {
        assert!(rt; snapshot.target(*place) == *target);
    }
    Ok(())
}

/// Two levels of tasks and two of regions, where the event makes nothing.
pub(crate) fn snapshot_of_two(alloc: Global) -> Result<Snapshot, Memory> {
    let tasks = Vec::from_array(alloc, [task_of(TWO, STORED), task_of(ONE, ONE)])?;
    let regions = Vec::from_array(alloc, [region_of(STORED), region_of(ONE)])?;
    Ok(Snapshot {
        thread: ONE,
        state: 0x001,
        wait_id: 0,
        tasks: Sequence(tasks),
        regions: Sequence(regions),
        fresh: None,
    })
}

/// The level of a task with this word in a region with that one.
fn task_of(word: Word, region: Word) -> TaskLevel {
    TaskLevel {
        flags: 2,
        word,
        frame: Frame { exit: 2, enter: 0 },
        region,
        index: 0,
    }
}

/// The level of a region with this word.
fn region_of(word: Word) -> RegionLevel {
    RegionLevel { word, team: 1 }
}

/// The words of the task and of the region at a level.
fn words_at(snapshot: &Snapshot, level: u32) -> (Option<Word>, Option<Word>) {
    let task = snapshot.get_task_info(level).map(|task| task.word);
    let region = snapshot.get_parallel_info(level).map(|region| region.word);
    (task, region)
}
