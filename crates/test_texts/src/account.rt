//! What is told of a run, as far as an answer speaks of it.

use crate::event_words::write_point;
use crate::place::before;
use c_model::{Answer, Point};
use std::alloc::{AllocError, Global};

/// A printed text of more bytes is told by how many they are.
const LONG_TEXT: usize = 1000;

/// What an answer speaks of, beside the end of the run.
#[derive(Clone, Copy)]
pub(crate) enum Parts {
    /// The text, and the events with the silent steps before each.
    All,
    /// The text that was printed.
    Text,
    /// The events.
    Events,
    /// The number of silent steps.
    Count,
}

impl Parts {
    /// What an answer speaks of, by its first word.
    pub fn by_answer(want: &str) -> Parts {
        match before(want, ' ') {
            "text" => Parts::Text,
            "events" => Parts::Events,
            "count" => Parts::Count,
            _ => Parts::All,
        }
    }
}

/// How a run ends.
#[derive(Clone, Copy)]
pub(crate) enum End {
    /// Main has returned this.
    Ends(i32),
    /// A trap with this number.
    Traps(u8),
    /// The limit with this number.
    Limits(u8),
    /// It hasn't ended when the driver stops.
    RunsOn,
}

/// What happened so far.
#[derive(Drop)]
pub(crate) struct Account {
    parts: Parts,
    /// The events, each with a comma behind it.
    events: String,
    /// How many silent steps there were in all.
    count: u64,
    /// How many there were behind the last event.
    since: u64,
}

impl Account {
    /// Nothing has happened.
    pub fn new(alloc: Global, parts: Parts) -> Account {
        Account {
            parts,
            events: String::new(alloc),
            count: 0,
            since: 0,
        }
    }

    /// A silent step was made.
    pub fn step(&mut self) {
        self.count = self.count.saturating_add(1);
        self.since = self.since.saturating_add(1);
    }

    /// An event has happened.
    pub fn event(&mut self, point: Point) -> Result<(), AllocError> {
        if self.begin()? {
            write_point(&mut self.events, point)?;
            self.events.push_str(", ")?;
        }
        Ok(())
    }

    /// The code of a member or of a task has ended.
    pub fn code_end(&mut self) -> Result<(), AllocError> {
        if self.begin()? {
            self.events.push_str("done, ")?;
        }
        Ok(())
    }

    /// An answer is given. It ends a silent step, but where a lock is free.
    pub fn answer(&mut self, answer: Answer) -> Result<(), AllocError> {
        if self.begin()? {
            write_answer(&mut self.events, answer)?;
            self.events.push_str(", ")?;
        }
        match answer {
            Answer::Free(true) => {}
            _ => self.step(),
        }
        Ok(())
    }

    /// Before an event or answer is told. Says whether it is.
    fn begin(&mut self) -> Result<bool, AllocError> {
        match self.parts {
            Parts::All => {
                self.write_steps()?;
                Ok(true)
            }
            Parts::Events => Ok(true),
            Parts::Text | Parts::Count => Ok(false),
        }
    }

    /// Writes how many silent steps there were behind the last event, if there were any.
    fn write_steps(&mut self) -> Result<(), AllocError> {
        let since = self.since;
        self.since = 0;
        if since > 0 {
            write!(self.events, "+{since}, ")?;
        }
        Ok(())
    }

    /// What is told of a run that has printed this and has ended so.
    pub fn told(&self, alloc: Global, text: &[u8], end: End) -> Result<String, AllocError> {
        let mut told = String::new(alloc);
        match self.parts {
            Parts::All => {
                write_text(&mut told, text)?;
                told.push_str(", ")?;
                told.push_str(self.events.as_str())?;
                if self.since > 0 {
                    let since = self.since;
                    write!(told, "+{since}, ")?;
                }
            }
            Parts::Text => {
                told.push_str("text ")?;
                write_text(&mut told, text)?;
                told.push_str(", ")?;
            }
            Parts::Events => {
                told.push_str("events ")?;
                told.push_str(self.events.as_str())?;
            }
            Parts::Count => {
                let count = self.count;
                write!(told, "count {count}, ")?;
            }
        }
        write_end(&mut told, end)?;
        Ok(told)
    }
}

/// Writes a text that was printed.
fn write_text(told: &mut String, text: &[u8]) -> Result<(), AllocError> {
    let length = text.len();
    if length > LONG_TEXT {
        return write!(told, "{length} bytes");
    }
    let text = text.escape_ascii();
    write!(told, "\"{text}\"")
}

/// Writes an answer that was given.
fn write_answer(told: &mut String, answer: Answer) -> Result<(), AllocError> {
    match answer {
        Answer::Chunk(Some((first, length))) => write!(told, "chunk {first} {length}"),
        Answer::Chunk(None) => told.push_str("no chunk"),
        Answer::Section(Some(number)) => write!(told, "section {number}"),
        Answer::Section(None) => told.push_str("no section"),
        Answer::Free(true) => told.push_str("free"),
        Answer::Free(false) => told.push_str("not free"),
    }
}

/// Writes how a run ends.
fn write_end(told: &mut String, end: End) -> Result<(), AllocError> {
    match end {
        End::Ends(value) => write!(told, "ends {value}"),
        End::Traps(number) => write!(told, "traps {number}"),
        End::Limits(number) => write!(told, "limits {number}"),
        End::RunsOn => told.push_str("runs on"),
    }
}
