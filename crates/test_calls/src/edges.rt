//! Sources and sinks in memory, readers and writers of std, and the names of faults.

use run_edges::{
    Got, MemSink, MemSource, ReadAllFault, Script, Source, StdSink, StdSource, WriteFault,
    read_all, write_all,
};
use std::alloc::{AllocError, Global};
use std::io;
use std::io::{ErrorKind, Read, Write};
use std::test::Fail;

/// A reader that fails once, and is then at its end.
#[derive(Drop)]
struct FailsOnce {
    has_failed: bool,
}

impl Read for FailsOnce {
    fn read(&mut self, _buf: &mut [u8]) -> io::Result<usize> {
        if self.has_failed {
            return Ok(0);
        }
        self.has_failed = true;
        Err(io::Error::from(ErrorKind::BrokenPipe))
    }
}

/// A writer that takes nothing.
#[derive(Drop)]
struct TakesNothing;

impl Write for TakesNothing {
    fn write(&mut self, _buf: &[u8]) -> io::Result<usize> {
        Ok(0)
    }

    fn flush(&mut self) -> io::Result<()> {
        Ok(())
    }
}

/// A read of "edges" under a script and a limit, and what it comes to.
type Reading = (&'static [Script], u32, Result<(), ReadAllFault>);

const READINGS: &[Reading] = &[
    (&[], 5, Ok(())),
    (&[Script::Most(1)], 9, Ok(())),
    (&[Script::Most(0), Script::Most(3)], 5, Ok(())),
    (
        &[Script::Most(5), Script::Fail],
        5,
        Err(ReadAllFault::ReadFault),
    ),
    (&[], 4, Err(ReadAllFault::TooLong)),
];

#[test]
fn reads_in_scripts(rt: HostRuntime) -> Result<(), Fail> {
    for reading in READINGS {
        let is_as_told = reads(rt.alloc(), reading)?;
        assert!(rt; is_as_told, "at {}", reading.1);
    }
    Ok(())
}

/// Whether a read comes to what is told of it.
fn reads(alloc: Global, (script, limit, want): &Reading) -> Result<bool, AllocError> {
    let mut source = source_of(alloc, script)?;
    Ok(match read_all(alloc, &mut source, *limit) {
        Ok(bytes) => *want == Ok(()) && bytes.as_slice() == b"edges".as_slice(),
        Err(fault) => *want == Err(fault),
    })
}

/// A source of "edges" under this script.
fn source_of(alloc: Global, script: &[Script]) -> Result<MemSource, AllocError> {
    let bytes = b"edges".to_vec(alloc)?;
    Ok(MemSource::new(bytes, script.to_vec(alloc)?))
}

/// A write of "edges" under a script into so much room, what it comes to, and what is held then.
type Writing = (
    &'static [Script],
    usize,
    Result<(), WriteFault>,
    &'static [u8],
);

const WRITINGS: &[Writing] = &[
    (&[Script::Most(0), Script::Most(2)], 9, Ok(()), b"edges"),
    (&[Script::Most(2), Script::Fail], 5, Err(WriteFault), b"ed"),
    (&[], 4, Err(WriteFault), b"edge"),
];

#[test]
fn writes_in_scripts(rt: HostRuntime) -> Result<(), Fail> {
    for writing in WRITINGS {
        let is_as_told = writes(rt.alloc(), writing)?;
        assert!(rt; is_as_told, "at {}", writing.1);
    }
    Ok(())
}

/// Whether a write comes to what is told of it.
fn writes(alloc: Global, (script, room, want, held): &Writing) -> Result<bool, AllocError> {
    let mut sink = MemSink::new(alloc, *room, script.to_vec(alloc)?)?;
    let written = write_all(&mut sink, b"edges");
    Ok(written == *want && sink.bytes() == *held)
}

#[test]
fn adapts_readers(rt: HostRuntime) -> Result<(), Fail> {
    let is_read = reads_a_slice(rt.alloc())?;
    assert!(rt; is_read);
    let mut failing = StdSource::new(FailsOnce { has_failed: false });
    let mut buf = [0; 4];
    assert!(rt; failing.read(&mut buf) == Got::Failed);
    assert!(rt; failing.read(&mut buf) == Got::End);
    Ok(())
}

/// Whether the bytes of a slice are read.
fn reads_a_slice(alloc: Global) -> Result<bool, ReadAllFault> {
    let mut source = StdSource::new(b"edges".as_slice());
    let read = read_all(alloc, &mut source, 5)?;
    Ok(read.as_slice() == b"edges".as_slice())
}

#[test]
fn adapts_writers(rt: HostRuntime) {
    let mut written = Vec::new(rt.alloc());
    let mut sink = StdSink::new(&mut written);
    assert!(rt; write_all(&mut sink, b"edges") == Ok(()));
    drop(sink);
    assert!(rt; written.as_slice() == b"edges".as_slice());

    let mut full = StdSink::new(TakesNothing);
    assert!(rt; write_all(&mut full, b"edges") == Err(WriteFault));
}

#[test]
fn faults_have_names(rt: HostRuntime) -> Result<(), Fail> {
    let alloc = rt.alloc();
    let text = format!(in alloc; "{}, {}", ReadAllFault::ReadFault, WriteFault)?;
    assert!(rt; text.as_str() == "read fault, write fault");
    let text = format!(in alloc; "{}, {}", ReadAllFault::TooLong, ReadAllFault::Memory)?;
    assert!(rt; text.as_str() == "too long, memory");
    Ok(())
}
