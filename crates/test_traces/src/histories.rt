//! What no clause says: that files are written and that faults come through.

ghost use Rattle.std.specs.Prelude.{◌≡◌, ◌<◌, ◌^◌, All, IfOk, length};
ghost use Rattle.omp_model.specs.declared.history.What.TheVariants.{Put};
ghost use Rattle.history_file.specs.Fitting.{HasThread};

use history_file::{
    HISTORY_LIMIT, HistoryFault, HistoryFile, HistoryReason, read_history, write_history,
};
use omp_model::{Entry, What};
use ompt_calls::{Sequence, Target};
use run_edges::{MemSink, WriteFault};
use std::alloc::{AllocError, Global};
use std::test::Fail;

/// The smallest program, and the file of its run with one thread and nothing registered.
const TEXT: &[u8] = b"int main(void) { return 0; }\n";

const BYTES: &[u8] =
    b"OMHF\x00\x01\x01\x00\x00\x00\x00\x00\x00\x00\x00\x00\x0f\x42\x40\x00\x00\x00\x1dint main(void) { return 0; }\n\
\x01\x00\x03\x00\x01\x00\x03\x00\x01\x00\x03\x00\x01\x00\x03\x00\x00\x00\x00\x00\x00\x00\x00\x00\x00\x08";

/// A file of one thread that ends as done.
fn file_of(alloc: Global, text: &[u8], entries: &[Entry]) -> Result<HistoryFile, AllocError>
    ensures text { IfOk result (λ file. file.text ≡ text.now) }
    ensures history { IfOk result (λ file. file.history ≡ entries.now) }
{
    Ok(HistoryFile {
        threads: 1,
        mask: 0,
        steps: 1_000_000,
        text: Sequence(Vec::from_slice(alloc, text)?),
        history: Sequence(Vec::from_slice(alloc, entries)?),
        status: 0,
        detail: 0,
    })
}

/// A turn of the first thread, and the return of its callback.
const GO: Entry = Entry {
    thread: 0,
    what: What::Go,
};

const BACK: Entry = Entry {
    thread: 0,
    what: What::Back,
};

/// The file of the smallest program's run.
fn smallest(alloc: Global) -> Result<HistoryFile, AllocError>
    ensures threads { IfOk result (λ file. All HasThread file.history) }
    ensures text { IfOk result (λ file. length file.text < 2 ^ 32) }
    ensures count { IfOk result (λ file. length file.history < 2 ^ 32) }
{
    file_of(alloc, TEXT, &[GO, BACK, GO, BACK, GO, BACK, GO, BACK])
}

/// A store of the first thread.
fn store(target: Target, word: u64) -> Entry
    ensures { result ≡ record { thread = 0; what = Put target word } }
{
    Entry {
        thread: 0,
        what: What::Put(target, word),
    }
}

/// A file with a store into a word of each kind.
fn storing(alloc: Global) -> Result<HistoryFile, AllocError>
    ensures threads { IfOk result (λ file. All HasThread file.history) }
    ensures text { IfOk result (λ file. length file.text < 2 ^ 32) }
    ensures count { IfOk result (λ file. length file.history < 2 ^ 32) }
{
    let first = store(Target::Thread(0), 1);
    let second = store(Target::Parallel(2), 0x0102_0304_0506_0708);
    let third = store(Target::Task(3), 9);
    file_of(alloc, b"", &[first, second, third])
}

#[test]
fn writes_the_smallest_run(rt: HostRuntime) -> Result<(), Fail> {
    let file = smallest(rt.alloc())?;
    let mut sink = MemSink::new(rt.alloc(), 100, Vec::new(rt.alloc()))?;
    assert!(rt; write_history(&mut sink, &file).is_ok());
    assert_eq!(rt; sink.bytes(), BYTES);
    Ok(())
}

#[test]
fn a_failed_write_leaves_a_front(rt: HostRuntime) -> Result<(), Fail> {
    let file = smallest(rt.alloc())?;
    for room in [0, 23, 52, 70, 77] {
        let mut sink = MemSink::new(rt.alloc(), room, Vec::new(rt.alloc()))?;
        assert_eq!(rt; write_history(&mut sink, &file), Err(WriteFault));
        assert_eq!(rt; sink.bytes(), &BYTES[..room]);
    }
    Ok(())
}

#[test]
fn writes_each_store(rt: HostRuntime) -> Result<(), Fail> {
    let file = storing(rt.alloc())?;
    let mut sink = MemSink::new(rt.alloc(), 100, Vec::new(rt.alloc()))?;
    assert!(rt; write_history(&mut sink, &file).is_ok());
    let stores = b"\x02\x00\x01\x00\x00\x00\x01\x00\x00\x00\x00\x00\x00\x00\x01\
\x02\x00\x02\x00\x00\x00\x02\x01\x02\x03\x04\x05\x06\x07\x08\
\x02\x00\x03\x00\x00\x00\x03\x00\x00\x00\x00\x00\x00\x00\x09";
    assert_eq!(rt; sink.bytes().get(23..68), Some(stores.as_slice()));
    Ok(())
}

/// The smallest run's bytes with one of them changed.
fn changed(alloc: Global, at: usize, byte: u8) -> Result<Vec<u8>, AllocError> {
    let mut bytes = Vec::from_slice(alloc, BYTES)?;
    if let Some(place) = bytes.get_mut(at) {
        *place = byte;
    }
    Ok(bytes)
}

#[test]
fn reads_the_smallest_run(rt: HostRuntime) -> Result<(), Fail> {
    let file = read_history(rt.alloc(), BYTES)?;
    assert_eq!(rt; file.threads, 1);
    assert_eq!(rt; file.steps, 1_000_000);
    assert_eq!(rt; file.text.as_slice(), TEXT);
    assert_eq!(rt; file.history.as_slice().len(), 8);
    Ok(())
}

#[test]
fn refuses_each_change(rt: HostRuntime) -> Result<(), Fail> {
    let rows = [
        (0, 0, 1, 0),
        (5, 2, 2, 4),
        (6, 0, 3, 6),
        (6, 17, 3, 6),
        (12, 4, 3, 7),
        (20, 2, 3, 19),
        (52, 4, 4, 52),
        (53, 1, 5, 53),
        (69, 2, 5, 69),
        (73, 1, 5, 70),
        (77, 9, 8, 74),
    ];
    for (at, byte, number, offset) in rows {
        let bytes = changed(rt.alloc(), at, byte)?;
        let refused = read_history(rt.alloc(), &bytes).err();
        let told = match refused {
            Some(HistoryFault::Refused(reason, place)) => Some((reason.number(), place)),
            _ => None,
        };
        assert_eq!(rt; told, Some((number, offset)), "byte {at}");
    }
    Ok(())
}
