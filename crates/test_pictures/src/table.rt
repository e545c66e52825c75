//! A table, line by line.

use crate::view::came;
use std::alloc::{AllocError, Global};
use std::fs::{self, Files};
use std::io;
use test_rows::{Tally, Verdict};

/// What the lines of a table said so far.
#[derive(Drop)]
pub(crate) struct Table {
    /// The name of the trace that was named last.
    trace: String,
    /// The bytes of this trace.
    bytes: Vec<u8>,
    /// The view of the row, and nothing before the first row.
    view: String,
    /// What is wanted of it.
    wanted: Vec<u8>,
    tally: Tally,
}

impl Table {
    /// A table of no lines.
    pub fn new(alloc: Global) -> Table {
        Table {
            trace: String::new(alloc),
            bytes: Vec::new(alloc),
            view: String::new(alloc),
            wanted: Vec::new(alloc),
            tally: Tally::new(),
        }
    }

    /// The tally of the rows that have ended.
    pub fn tally(&self) -> Tally {
        self.tally
    }

    /// Takes the next line, before which a row may end.
    pub fn take_line<R: AllocGlobal + Files + Print>(
        &mut self,
        rt: &R,
        line: &str,
    ) -> io::Result<()> {
        match line.split_once(' ') {
            Some((">", text)) => Ok(self.want(text)?),
            Some(("row", view)) => self.begin_row(rt, view),
            Some(("trace", name)) => self.begin_trace(rt, name),
            _ => Ok(()),
        }
    }

    /// Wants one more line.
    fn want(&mut self, line: &str) -> Result<(), AllocError> {
        self.wanted.extend_from_slice(line.as_bytes())?;
        self.wanted.push(b'\n')?;
        Ok(())
    }

    /// Begins a row of the view with this name.
    fn begin_row<R: AllocGlobal + Print>(&mut self, rt: &R, view: &str) -> io::Result<()> {
        self.end_row(rt)?;
        self.view.push_str(view)?;
        Ok(())
    }

    /// Reads the trace with this name.
    fn begin_trace<R: AllocGlobal + Files + Print>(
        &mut self,
        rt: &R,
        name: &str,
    ) -> io::Result<()> {
        self.end_row(rt)?;
        self.trace.clear();
        self.trace.push_str(name)?;
        let path = format!(in rt.alloc(); "{name}.trace")?;
        self.bytes = fs::read(rt, path.as_str())?;
        Ok(())
    }

    /// Ends the row, if one began, and counts it. Prints what it came to, if that isn't what it wants.
    pub fn end_row<R: AllocGlobal + Print>(&mut self, rt: &R) -> io::Result<()> {
        if self.view.is_empty() {
            return Ok(());
        }
        let came = came(rt.alloc(), self.view.as_str(), self.bytes.as_slice())?;
        self.compare(rt, came.as_slice())?;
        self.view.clear();
        self.wanted.clear();
        Ok(())
    }

    /// Counts the row, which came to this. Prints that, if it isn't what the row wants.
    fn compare<R: Print>(&mut self, rt: &R, came: &[u8]) -> io::Result<()> {
        if came == self.wanted.as_slice() {
            self.tally.add(Verdict::Agrees);
            return Ok(());
        }
        self.tally.add(Verdict::Differs);
        println!(rt; "{}, {}: {}", self.trace, self.view, came.escape_ascii())
    }
}
