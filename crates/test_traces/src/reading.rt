//! Reading a trace in pieces, and what is refused.

use crate::smallest::{BYTES, END, ENDS_OF_ITEMS, HEADER, LENGTH, events};
use std::alloc::{AllocError, Global};
use std::test::Fail;
use trace_format::{Item, Reader, Reason, Refusal};

/// What a reader gave, and what it says at the end.
#[derive(Drop)]
struct Given {
    /// The items.
    items: Vec<Item>,
    /// Its answer at the end of the bytes.
    end: Result<(), Refusal>,
}

/// Reads the bytes in pieces of this length at most.
fn read(alloc: Global, bytes: &[u8], most: usize) -> Result<Given, AllocError> {
    let mut reader = Reader::new();
    let items = items_of(alloc, &mut reader, bytes, most)?;
    Ok(Given {
        items,
        end: reader.end(),
    })
}

/// The items that the reader gives.
fn items_of(
    alloc: Global,
    reader: &mut Reader,
    bytes: &[u8],
    most: usize,
) -> Result<Vec<Item>, AllocError> {
    let mut items = Vec::new(alloc);
    let mut rest = bytes;
    // Each call takes a byte at least.
    for _call in 0..bytes.len() {
        let piece = rest.get(..most).unwrap_or(rest);
        let Ok(taken) = reader.feed(piece) else {
            break;
        };
        rest = rest.get(taken.used..).unwrap_or(&[]);
        if is_whole(&taken.item) {
            items.push(taken.item)?;
        }
    }
    Ok(items)
}

/// Whether it is an item.
fn is_whole(item: &Item) -> bool {
    !matches!(item, Item::More)
}

/// Whether these bytes, in pieces of this length at most, give the first items of the trace, so many, and end so.
fn gives(
    alloc: Global,
    bytes: &[u8],
    most: usize,
    count: usize,
    end: Result<(), Refusal>,
) -> Result<bool, AllocError> {
    let given = read(alloc, bytes, most)?;
    Ok(given.end == end && Some(given.items.as_slice()) == items().get(..count))
}

/// Whether these bytes, in pieces of this length at most, are refused so.
fn is_refused(
    alloc: Global,
    bytes: &[u8],
    most: usize,
    refusal: Refusal,
) -> Result<bool, AllocError> {
    let given = read(alloc, bytes, most)?;
    Ok(given.end == Err(refusal))
}

/// The items of the trace.
fn items() -> [Item; 6] {
    let [begins, task_begins, task_ends, ends] = events();
    [
        Item::Header(HEADER),
        Item::Event(begins),
        Item::Event(task_begins),
        Item::Event(task_ends),
        Item::Event(ends),
        Item::End(END),
    ]
}

#[test]
fn reads_in_pieces(rt: HostRuntime) -> Result<(), Fail> {
    for most in [1, 2, 3, 5, 7, 11, 16, 60, 100, LENGTH] {
        let is_as_told = gives(rt.alloc(), BYTES, most, 6, Ok(()))?;
        assert!(rt; is_as_told, "pieces of {most}");
    }
    Ok(())
}

#[test]
fn reads_each_front(rt: HostRuntime) -> Result<(), Fail> {
    for length in 0..LENGTH {
        let is_as_told = gives_front(rt.alloc(), length)?;
        assert!(rt; is_as_told, "the first {length} bytes");
    }
    Ok(())
}

/// Whether the first bytes give the items that are whole in them, and are truncated.
fn gives_front(alloc: Global, length: usize) -> Result<bool, AllocError> {
    let front = BYTES.get(..length).unwrap_or(&[]);
    let truncated = Refusal {
        reason: Reason::Truncated,
        offset: length as u64,
    };
    gives(alloc, front, LENGTH, whole_items(length), Err(truncated))
}

/// How many items are whole in the first bytes.
fn whole_items(length: usize) -> usize {
    let mut count = 0_usize;
    for cut in ENDS_OF_ITEMS {
        if *cut <= length {
            count = count.saturating_add(1);
        }
    }
    count
}

/// A change of bytes, from this place on, and how they are refused then.
type Wrong = (usize, &'static [u8], Reason, u64);

const WRONGS: &[Wrong] = &[
    (0, &[0], Reason::BadMagic, 0),
    (3, &[0], Reason::BadMagic, 0),
    (4, &[0, 3], Reason::BadVersion, 4),
    (4, &[0, 0], Reason::BadVersion, 4),
    (6, &[0], Reason::BadHeader, 6),
    (6, &[17], Reason::BadHeader, 6),
    (7, &[2], Reason::BadHeader, 7),
    // Neither the first version nor a trace that was migrated has the callback dispatch.
    (4, &[0, 1], Reason::BadHeader, 8),
    (7, &[1], Reason::BadHeader, 8),
    (14, &[1], Reason::BadHeader, 8),
    (16, &[8], Reason::UnknownRecord, 16),
    (16, &[255], Reason::UnknownRecord, 16),
    (15, &[0xfc], Reason::NotRegistered, 16),
    // A sequence number that is too great, and one that stands still.
    (17, &[0, 0x28], Reason::BadField(1), 17),
    (48, &[0], Reason::SeqNotRising, 45),
    (21, &[1], Reason::BadField(2), 21),
    (22, &[1, 2], Reason::BadField(3), 22),
    (31, &[3], Reason::BadField(5), 28),
    (35, &[0, 0, 0, 0, 0, 0, 0, 0, 1], Reason::BadField(6), 32),
    (59, &[3], Reason::BadField(5), 56),
    (95, &[3], Reason::BadField(10), 92),
    (173, &[2], Reason::BadField(1), 173),
    (177, &[1], Reason::BadField(2), 174),
    (181, &[3], Reason::BadCount, 178),
];

#[test]
fn refuses_what_is_no_trace(rt: HostRuntime) -> Result<(), Fail> {
    for wrong in WRONGS {
        let is_as_told = refuses(rt.alloc(), wrong)?;
        assert!(rt; is_as_told, "a change at {}", wrong.0);
    }
    Ok(())
}

/// Whether the bytes are refused with this change, as one piece and byte by byte.
fn refuses(alloc: Global, (place, change, reason, offset): &Wrong) -> Result<bool, AllocError> {
    let bytes = changed(alloc, *place, change)?;
    let refusal = Refusal {
        reason: *reason,
        offset: *offset,
    };
    Ok(is_refused(alloc, &bytes, 1, refusal)? && is_refused(alloc, &bytes, LENGTH, refusal)?)
}

/// The bytes of the trace with this change, from this place on.
fn changed(alloc: Global, place: usize, change: &[u8]) -> Result<Vec<u8>, AllocError> {
    let mut bytes = BYTES.to_vec(alloc)?;
    for (byte, new) in bytes.iter_mut().skip(place).zip(change) {
        *byte = *new;
    }
    Ok(bytes)
}

#[test]
fn refuses_swapped_events(rt: HostRuntime) -> Result<(), Fail> {
    let bytes = swapped(rt.alloc())?;
    let given = read(rt.alloc(), &bytes, LENGTH)?;
    let refusal = Refusal {
        reason: Reason::SeqNotRising,
        offset: 97,
    };
    assert!(rt; given.end == Err(refusal));
    assert!(rt; given.items.len() == 3);
    Ok(())
}

/// The bytes of the trace where the begin of the initial task stands behind its end.
fn swapped(alloc: Global) -> Result<Vec<u8>, AllocError> {
    let mut bytes = Vec::new(alloc);
    for part in [0..44, 96..148, 44..96, 148..LENGTH] {
        bytes.extend_from_slice(BYTES.get(part).unwrap_or(&[]))?;
    }
    Ok(bytes)
}

#[test]
fn refuses_a_byte_behind_the_end(rt: HostRuntime) -> Result<(), Fail> {
    let mut bytes = BYTES.to_vec(rt.alloc())?;
    bytes.push(0)?;
    let refusal = Refusal {
        reason: Reason::AfterEnd,
        offset: LENGTH as u64,
    };
    let is_as_told = gives(rt.alloc(), &bytes, LENGTH + 1, 6, Err(refusal))?;
    assert!(rt; is_as_told);
    Ok(())
}
