//! What a timeline keeps, and its text, against moments and texts written out by hand.

use crate::hearing::{BEGIN, BEGIN_AND_END, hear, hear_many};
use std::process::Abort;
use tool_report::{Memory, Moment, Timeline, timeline_text};

#[test]
fn a_timeline_keeps_positions_and_states(rt: HostRuntime) -> Result<(), Memory> {
    let mut timeline = Timeline::new(rt.alloc());
    hear(&rt, &mut timeline, 1, &BEGIN_AND_END)?;
    let kept = BEGIN_AND_END.map(|(seq, state, _)| Moment { seq, state });
    assert!(rt; timeline.moments() == kept.as_slice());
    Ok(())
}

/// A timeline that heard a call at these positions, in these states.
fn timeline_with<R: Abort + AllocGlobal>(
    rt: &R,
    moments: &[(u32, u16)],
) -> Result<Timeline, Memory> {
    let mut timeline = Timeline::new(rt.alloc());
    for (seq, state) in moments {
        hear(rt, &mut timeline, 0, &[(*seq, *state, BEGIN)])?;
    }
    Ok(timeline)
}

/// What a thread heard, in how many columns it is written, and the text.
type Written = (&'static [(u32, u16)], u8, &'static [u8]);

const WRITTEN: &[Written] = &[
    // The ten states in the order of their numbers, and one that is none.
    (
        &[
            (0, 0x000),
            (1, 0x001),
            (2, 0x011),
            (3, 0x012),
            (4, 0x014),
            (5, 0x020),
            (6, 0x041),
            (7, 0x042),
            (8, 0x100),
            (9, 0x101),
            (10, 0x102),
        ],
        11,
        b" 0 spbbbwlcio?\n",
    ),
    // Positions without an event keep the state before them, and there is none before the first event.
    (&[(5, 0x101), (19, 0x041)], 10, b" 0 ..oooooool\n"),
    // Fewer positions than columns: each one is several columns.
    (&[(0, 0x101), (3, 0x000)], 12, b" 0 ooooooooosss\n"),
    // Of the events that share a column the last one counts.
    (
        &[(0, 0x000), (1, 0x041), (2, 0x000), (3, 0x042), (19, 0x101)],
        10,
        b" 0 lcccccccco\n",
    ),
    // The greatest position.
    (&[(0, 0x101), (u32::MAX, 0x000)], 10, b" 0 ooooooooos\n"),
    (&[], 10, b""),
];

#[test]
fn a_timeline_has_a_text(rt: HostRuntime) -> Result<(), Memory> {
    for (moments, columns, want) in WRITTEN {
        let timelines = Vec::from_array(rt.alloc(), [timeline_with(&rt, *moments)?])?;
        let text = timeline_text(rt.alloc(), &timelines, *columns)?;
        assert!(rt; text.as_slice() == *want, "in {columns} columns");
    }
    Ok(())
}

/// Timelines of threads that heard a call at these positions, in these states.
fn timelines_with<R: Abort + AllocGlobal>(
    rt: &R,
    heard: &[&[(u32, u16)]],
) -> Result<Vec<Timeline>, Memory> {
    let mut timelines = Vec::new(rt.alloc());
    for moments in heard {
        timelines.push(timeline_with(rt, *moments)?)?;
    }
    Ok(timelines)
}

/// What three threads heard, of which the second one heard nothing.
const THREE_THREADS: [&[(u32, u16)]; 3] = [
    &[(0, 0x101), (3, 0x000), (19, 0x041)],
    &[],
    &[(4, 0x012), (8, 0x001)],
];

/// A thread without an event has no line, and the columns of all threads are those of the greatest position.
#[test]
fn timelines_share_their_columns(rt: HostRuntime) -> Result<(), Memory> {
    let timelines = timelines_with(&rt, &THREE_THREADS)?;
    let text = timeline_text(rt.alloc(), &timelines, 10)?;
    assert!(rt; text.as_slice() == b" 0 ossssssssl\n 2 ..bbpppppp\n".as_slice());
    Ok(())
}

/// The threads before the last one, which heard nothing.
const FIFTEEN_THREADS: [&[(u32, u16)]; 15] = [&[]; 15];

/// The number of a thread stands right in two places.
#[test]
fn a_timeline_of_the_last_thread(rt: HostRuntime) -> Result<(), Memory> {
    let mut timelines = timelines_with(&rt, &FIFTEEN_THREADS)?;
    timelines.push(timeline_with(&rt, &[(0, 0x100)])?)?;
    let text = timeline_text(rt.alloc(), &timelines, 10)?;
    assert!(rt; text.as_slice() == b"15 iiiiiiiiii\n".as_slice());
    Ok(())
}

/// A timeline finds memory for ten thousand calls, and for its text.
#[test]
fn a_timeline_of_many_calls(rt: HostRuntime) -> Result<(), Memory> {
    let mut timeline = Timeline::new(rt.alloc());
    hear_many(&rt, &mut timeline)?;
    assert!(rt; timeline.moments().len() == 10_000);
    let timelines = Vec::from_array(rt.alloc(), [timeline])?;
    let text = timeline_text(rt.alloc(), &timelines, 200)?;
    assert!(rt; text.len() == 204);
    Ok(())
}
