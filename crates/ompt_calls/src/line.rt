//! What is written of a call: its text, and its line.

ghost use Rattle.std.specs.Prelude.{◌≡◌, IfOk, Some};
ghost use Rattle.ompt_calls.specs.Line.{call_text, frame_text, line_text, word_text};

use crate::{Call, Frame, Word};
use std::alloc::Global;
use std::fmt;
use std::fmt::{Display, Formatter};

/// The error of a line that found no memory.
pub type Memory = std::alloc::AllocError;

/// The line of a call: the sequence number, the thread and the call, with one space between, and a newline.
pub fn line_of(alloc: Global, seq: u32, thread: u8, call: &Call) -> Result<Vec<u8>, Memory>
    ensures line { IfOk result (λ line. line.items ≡ line_text seq thread call.now) }
{
    let line = format!(in alloc; "{seq} {thread} {call}\n")?;
    Ok(line.into_bytes())
}

/// `identity:value`.
impl Display for Word {
    ghost output = { λ w. Some (word_text w) };

    fn fmt<W: fmt::Write>(&self, f: &mut Formatter<W>) -> fmt::Result {
        write!(f, "{}:{}", self.identity, self.value)
    }
}

/// `exit/enter`.
impl Display for Frame {
    ghost output = { λ r. Some (frame_text r) };

    fn fmt<W: fmt::Write>(&self, f: &mut Formatter<W>) -> fmt::Result {
        write!(f, "{}/{}", self.exit, self.enter)
    }
}

/// The name of the callback, then its arguments in order, with one space between.
impl Display for Call {
    ghost output = { λ c. Some (call_text c) };

    fn fmt<W: fmt::Write>(&self, f: &mut Formatter<W>) -> fmt::Result {
        write!(f, "{}", self.name())?;
        for argument in self.arguments().as_slice() {
            write!(f, " {argument}")?;
        }
        Ok(())
    }
}
