//! A table, line by line.

use crate::answer::answer;
use crate::frame::Frame;
use crate::pattern::{LONGEST, Pattern};
use crate::question::Question;
use crate::row_fault::RowFault;
use std::alloc::Global;

/// What a line turned out to be.
#[derive(Drop)]
pub(crate) enum Outcome {
    /// A line that is no row.
    NoRow,
    /// A row with the answer that was wanted.
    Agrees,
    /// A row with another one: what differs.
    Differs(String),
}

/// What is asked in the rows that follow.
#[derive(Clone, Copy)]
struct Asked {
    question: Question,
    /// The number of the frame.
    frame: Option<usize>,
}

/// What the lines of a table said so far.
#[derive(Drop)]
pub(crate) struct Table {
    frames: Vec<Frame>,
    asked: Option<Asked>,
}

impl Table {
    /// A table of no lines.
    pub fn new(alloc: Global) -> Table {
        Table {
            frames: Vec::new(alloc),
            asked: None,
        }
    }

    /// Takes the next line.
    pub fn take(&mut self, alloc: Global, line: &str) -> Result<Outcome, RowFault> {
        if line.is_empty() || line.starts_with('#') || line.starts_with('=') {
            return Ok(Outcome::NoRow);
        }
        if let Some(name) = line.strip_prefix("frame ") {
            self.frames.push(Frame::new(alloc, name)?)?;
        } else if let Some(asked) = line.strip_prefix("ask ") {
            self.asked = Some(self.asked_by(asked)?);
        } else if let Some(text) = line.strip_prefix('|') {
            self.last_frame()?.add_line(behind_blank(text))?;
        } else if let Some(around) = line.strip_prefix('>') {
            self.last_frame()?.set_tree(alloc, behind_blank(around))?;
        } else {
            return self.row(alloc, line);
        }
        Ok(Outcome::NoRow)
    }

    /// The frame that began last.
    fn last_frame(&mut self) -> Result<&mut Frame, RowFault> {
        self.frames.last_mut().ok_or(RowFault::OutsideFrame)
    }

    /// The question of these words, and its frame.
    fn asked_by(&self, words: &str) -> Result<Asked, RowFault> {
        let Some((word, name)) = words.split_once(" in ") else {
            let question = Question::by_word(words).ok_or(RowFault::NoQuestion)?;
            return Ok(Asked {
                question,
                frame: None,
            });
        };
        let question = Question::by_word(word).ok_or(RowFault::NoQuestion)?;
        let named = self.frames.iter().position(|frame| frame.is_named(name));
        let frame = Some(named.ok_or(RowFault::NoFrame)?);
        Ok(Asked { question, frame })
    }

    /// What a row turns out to be.
    fn row(&self, alloc: Global, line: &str) -> Result<Outcome, RowFault> {
        let asked = self.asked.ok_or(RowFault::NothingAsked)?;
        let (want, text) = match line.split_once(" |") {
            Some((want, text)) => (want.trim_end(), behind_blank(text)),
            None => (line, ""),
        };
        let frame = match asked.frame {
            Some(number) => Some(self.frames.get(number).ok_or(RowFault::NoFrame)?),
            None => None,
        };
        match frame {
            Some(frame) => {
                let want = match asked.question {
                    Question::Tree => frame.tree_around(alloc, want)?,
                    _ => String::from_str(alloc, want)?,
                };
                let text = frame.text_around(alloc, text)?;
                compared(alloc, asked.question, want.as_str(), text.as_str())
            }
            None => compared(alloc, asked.question, want, text),
        }
    }
}

/// What stands behind a first blank, or all where there is none.
fn behind_blank(text: &str) -> &str {
    text.strip_prefix(' ').unwrap_or(text)
}

/// Whether each text that is written so has the answer that is wanted.
fn compared(
    alloc: Global,
    question: Question,
    want: &str,
    written: &str,
) -> Result<Outcome, RowFault> {
    let pattern = Pattern::read(alloc, written)?;
    for number in 0..pattern.count() {
        let text = pattern.text(alloc, number)?;
        if text.len() > LONGEST {
            return Err(RowFault::TooLong);
        }
        let got = answer(alloc, question, text.as_slice(), want)?;
        if got.as_str() != want {
            let text = text.as_slice().escape_ascii();
            let difference = format!(in alloc; "wanted {want}, got {got}: {text}")?;
            return Ok(Outcome::Differs(difference));
        }
    }
    Ok(Outcome::Agrees)
}
