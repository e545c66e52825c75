//! The answers to the questions of a table.

ghost use Rattle.std.specs.Prelude.{◌≤◌, length};

use crate::copies::copies;
use crate::criticals::criticals;
use crate::driver::steps;
use crate::loop_parts::loop_parts;
use crate::place::write_spot;
use crate::question::Question;
use crate::refusal::{Refusal, program_of, tree_of};
use crate::row_fault::RowFault;
use crate::seen;
use crate::tree_line::write_node;
use c_check::Program;
use c_tokens::tokens;
use std::alloc::{AllocError, Global};

/// The answer to a question of a text. What it speaks of is as in the answer that is wanted.
pub(crate) fn answer(
    alloc: Global,
    question: Question,
    text: &[u8],
    want: &str,
) -> Result<String, RowFault>
    requires { length text.now ≤ 65536 }
{
    let answered = match question {
        Question::Tokens => token_list(alloc, text),
        Question::Tree => tree(alloc, text),
        Question::Syntax => syntax(alloc, text),
        Question::Fault => fault(alloc, text),
        Question::Main => main_and_end(alloc, text),
        Question::Steps => return done_by(alloc, text, want),
        Question::Slots
        | Question::Sharing
        | Question::Copies
        | Question::Criticals
        | Question::Loop => return seen_in(alloc, question, text, want),
    };
    match answered {
        Ok(told) => Ok(told),
        Err(refusal) => refused(alloc, refusal),
    }
}

/// What the code of a text's program does.
fn done_by(alloc: Global, text: &[u8], want: &str) -> Result<String, RowFault>
    requires { length text.now ≤ 65536 }
{
    match program_of(alloc, text) {
        Ok(program) => steps(alloc, program, want),
        Err(refusal) => refused(alloc, refusal),
    }
}

/// What the program of a text says of its names, variables and constructs.
fn seen_in(alloc: Global, question: Question, text: &[u8], want: &str) -> Result<String, RowFault>
    requires { length text.now ≤ 65536 }
{
    match program_of(alloc, text) {
        Ok(program) => seen_of(alloc, question, &program, text, want),
        Err(refusal) => refused(alloc, refusal),
    }
}

/// What a program says of its names, variables and constructs.
fn seen_of(
    alloc: Global,
    question: Question,
    program: &Program,
    text: &[u8],
    want: &str,
) -> Result<String, RowFault>
    requires { length text.now ≤ 65536 }
{
    match question {
        Question::Slots => seen::slots(alloc, program, want),
        Question::Copies => copies(alloc, program, text, want),
        Question::Criticals => criticals(alloc, program),
        Question::Loop => loop_parts(alloc, program, want),
        _ => seen::sharing(alloc, program, want),
    }
}

/// The number of a fault, and its place.
fn refused(alloc: Global, refusal: Refusal) -> Result<String, RowFault> {
    let Refusal { number, spot } = refusal;
    if number == 0 {
        return Err(RowFault::Memory);
    }
    let mut told = format!(in alloc; "{number} at ")?;
    write_spot(&mut told, spot)?;
    Ok(told)
}

/// Each token of a text: its kind, its span and its place.
fn token_list(alloc: Global, text: &[u8]) -> Result<String, Refusal>
    requires { length text.now ≤ 65536 }
{
    let found = tokens(alloc, text)?;
    let mut told = String::new(alloc);
    for token in &found {
        if !told.is_empty() {
            told.push_str(", ")?;
        }
        let kind = token.kind;
        let (start, end) = (token.start, token.end);
        write!(told, "{kind:?} {start}-{end} ")?;
        write_spot(&mut told, token.spot)?;
    }
    Ok(told)
}

/// The tree of a text as a line.
fn tree(alloc: Global, text: &[u8]) -> Result<String, Refusal>
    requires { length text.now ≤ 65536 }
{
    let tree = tree_of(alloc, text)?;
    let mut told = String::new(alloc);
    write_node(&mut told, &tree, tree.root())?;
    Ok(told)
}

/// Whether a text is a program by the grammar.
fn syntax(alloc: Global, text: &[u8]) -> Result<String, Refusal>
    requires { length text.now ≤ 65536 }
{
    let _tree = tree_of(alloc, text)?;
    Ok(right(alloc)?)
}

/// Whether a text is a program that breaks no rule.
fn fault(alloc: Global, text: &[u8]) -> Result<String, Refusal>
    requires { length text.now ≤ 65536 }
{
    let _program = program_of(alloc, text)?;
    Ok(right(alloc)?)
}

/// The number of the name `main` in a text, or 0, and the place of its end.
fn main_and_end(alloc: Global, text: &[u8]) -> Result<String, Refusal>
    requires { length text.now ≤ 65536 }
{
    let tree = tree_of(alloc, text)?;
    let main = tree.main();
    let mut told = format!(in alloc; "{main}, ")?;
    write_spot(&mut told, tree.end())?;
    Ok(told)
}

/// The answer of a text without a fault.
fn right(alloc: Global) -> Result<String, AllocError> {
    String::from_str(alloc, "ok")
}
