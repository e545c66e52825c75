//! A row: a trace, and what it is to come to.

use crate::answer::answer;
use crate::event::event_of;
use omp_codes::PROFILE_MASK;
use ompt_calls::EventRecord;
use run_edges::{MemSink, MemSource};
use std::alloc::{AllocError, Global};
use test_rows::RowFault;
use trace_format::{EndMark, Header, Item, RECORDED, VERSION, write_item};

/// How many bytes a trace has room for.
const ROOM: usize = 0x1_0000;

/// The header of each trace: with as many threads as there can be, and all callbacks.
const HEADER: Header = Header {
    version: VERSION,
    threads: 16,
    origin: RECORDED,
    mask: PROFILE_MASK,
};

/// A row of a table.
#[derive(Drop)]
pub(crate) struct Row {
    name: String,
    events: Vec<EventRecord>,
    status: u8,
    detail: u32,
    /// How many bytes of the trace are read; all, if it has no more.
    length: usize,
    /// The tasks on which a line is wanted.
    asked: Vec<u32>,
    /// The lines that are wanted.
    wanted: Vec<u8>,
}

impl Row {
    /// A row with this name. Its trace has no event, and nothing is wanted.
    pub fn new(alloc: Global, name: &str) -> Result<Row, RowFault> {
        Ok(Row {
            name: String::from_str(alloc, name)?,
            events: Vec::new(alloc),
            status: 0,
            detail: 0,
            length: ROOM,
            asked: Vec::new(alloc),
            wanted: Vec::new(alloc),
        })
    }

    /// Takes a line of the row.
    pub fn take(&mut self, alloc: Global, head: &str, text: &str) -> Result<(), RowFault> {
        match head {
            "|" => self.events.push(event_of(alloc, text)?)?,
            ">" => return self.want(text),
            "end" => return self.set_end(text),
            "cut" => self.length = text.parse()?,
            "node" => self.asked.push(text.parse()?)?,
            _ => return Err(RowFault::NoSuchLine),
        }
        Ok(())
    }

    /// Wants one more line.
    fn want(&mut self, line: &str) -> Result<(), RowFault> {
        self.wanted.extend_from_slice(line.as_bytes())?;
        self.wanted.push(b'\n')?;
        Ok(())
    }

    /// Sets the status and the detail of the end mark.
    fn set_end(&mut self, text: &str) -> Result<(), RowFault> {
        let (status, detail) = text.split_once(' ').ok_or(RowFault::NoNumber)?;
        self.status = status.parse()?;
        self.detail = detail.parse()?;
        Ok(())
    }

    /// Tells what the trace comes to, if that isn't what is wanted.
    pub fn difference(&self, alloc: Global) -> Result<Option<String>, RowFault> {
        let answer = self.answer(alloc)?;
        if answer.as_bytes() == self.wanted.as_slice() {
            Ok(None)
        } else {
            told(alloc, self.name.as_str(), answer.as_str())
        }
    }

    /// What the trace comes to.
    fn answer(&self, alloc: Global) -> Result<String, RowFault> {
        let bytes = self.bytes(alloc)?;
        let mut source = MemSource::new(bytes, Vec::new(alloc));
        answer(alloc, &mut source, self.asked.as_slice())
    }

    /// The bytes of the trace that are read.
    fn bytes(&self, alloc: Global) -> Result<Vec<u8>, RowFault> {
        let mut sink = MemSink::new(alloc, ROOM, Vec::new(alloc))?;
        self.put(&mut sink)?;
        front(alloc, sink.bytes(), self.length)
    }

    /// Writes the trace.
    fn put(&self, sink: &mut MemSink) -> Result<(), RowFault> {
        put_item(sink, &Item::Header(HEADER))?;
        for event in &self.events {
            put_item(sink, &Item::Event(*event))?;
        }
        let count = u32::try_from(self.events.len()).map_err(|_| RowFault::NoNumber)?;
        let end = EndMark {
            status: self.status,
            detail: self.detail,
            count,
        };
        put_item(sink, &Item::End(end))
    }
}

/// Writes an item of a trace.
fn put_item(sink: &mut MemSink, item: &Item) -> Result<(), RowFault> {
    write_item(sink, item).map_err(|_| RowFault::Memory(AllocError))
}

/// The first bytes, so many at most.
fn front(alloc: Global, bytes: &[u8], length: usize) -> Result<Vec<u8>, RowFault> {
    Ok(bytes.get(..length).unwrap_or(bytes).to_vec(alloc)?)
}

/// What is told of a row with this name, where its trace comes to this.
fn told(alloc: Global, name: &str, answer: &str) -> Result<Option<String>, RowFault> {
    Ok(Some(format!(in alloc; "{name}:\n{answer}")?))
}
