//! Tables of commands over texts, each with what it is to come to, and how many of them come to something else.
//!
//! A table is read from the standard input. A row of it hands words and a text to [`ompt_cli::top`], with no guests, and says what the
//! status is to be, and what is to be written to the output and to standard error. The program prints each row that differs, and then
//! how many rows there were and how many of them differ. A line that can't be read counts as a row that differs. What a row comes to
//! is only tested.
//!
//! # Lines
//!
//! A line is one of these. Lines with nothing in them are passed over.
//!
//! | Line | What it is |
//! |---|---|
//! | `# words` | a comment |
//! | `= words` | the headline of what follows |
//! | `$ list --serial` | the words of the rows that follow, up to the next such line |
//! | `$+ WORD` | one more word, which may be empty or have blanks |
//! | `row NAME` | begins a row, which ends before the next `row` or `$` |
//! | `\| TEXT` | the next line of the text that the command reads |
//! | `status 3` | the status that is wanted; without this line, 0 |
//! | `> LINE` | the next line that is wanted of the output |
//! | `! LINE` | the next line that is wanted of standard error |
//! | `entries 8` | how many entries the history of the run is to have; without this line, any number |
//! | `in 5 50` | at most 50 bytes of the text are given in each of 5 reads, and the next read fails |
//! | `out 5 50` | at most 50 bytes are taken in each of 5 writes to the output, and the next one fails |
//! | `err 5 50` | the same of standard error |
//! | `unlike` | the row agrees where it comes to something else than it wants |
//!
//! A row needs no line but the first: its text is empty then, and it wants status 0 and nothing written.
//!
//! # Bytes
//!
//! A sign, `$`, `|`, `>` or `!`, has a blank behind it, or a mode that says what the line gives: see [`piece`]. So `|+` is a piece of a
//! line, `|*64 (` are 64 parentheses, `>=3 a` are three lines, and `|x 0d0a` are two bytes. A text is written as it is: no byte stands
//! for another one.
//!
//! # A part of an output
//!
//! An output is compared whole, but for gaps: `>...` passes over lines up to the first place where the lines behind it stand, or to
//! the end where there are none, and `>...16` passes over 16 lines. `!...` does the same. So these want 34 lines, of which the 17th is
//! known:
//!
//! ```text
//! >...16
//! > 32 0 parallel_end 2:0 1:0 2147483649 131073
//! >...17
//! ```
#![tactic(auto)]

mod expected;
mod given;
mod piece;
mod row;
mod table;
mod wanted;

use std::io::{self, BufRead, BufReader};
use std::sync::Wait;
use std::thread::Threads;
use table::{Table, ends_row};
use test_rows::{Tally, Verdict};

fn main(rt: HostRuntime) -> io::Result<()> {
    let mut table = Table::new(rt.alloc());
    let mut tally = Tally::new();
    let mut number = 0_u32;
    for line in BufReader::new(rt.alloc(), rt.reader())?.lines(rt.alloc()) {
        let line = line?;
        number = number.saturating_add(1);
        take_line(&rt, &mut table, &mut tally, number, line.as_str())?;
    }
    end_row(&rt, &mut table, &mut tally)?;
    println!(rt; "{tally}")
}

/// Takes the line with this number, which may end a row.
fn take_line<R: AllocGlobal + Print + Threads + Wait + Sync>(
    rt: &R,
    table: &mut Table,
    tally: &mut Tally,
    number: u32,
    line: &str,
) -> io::Result<()> {
    if ends_row(line) {
        end_row(rt, table, tally)?;
    }
    if let Err(fault) = table.take(rt.alloc(), line) {
        tally.add(Verdict::Differs);
        println!(rt; "{number}: {fault}")?;
    }
    Ok(())
}

/// Ends the row of the table, if one began, and counts it.
fn end_row<R: AllocGlobal + Print + Threads + Wait + Sync>(
    rt: &R,
    table: &mut Table,
    tally: &mut Tally,
) -> io::Result<()> {
    match table.end_row(rt, rt.alloc()) {
        None => {}
        Some(Ok(None)) => tally.add(Verdict::Agrees),
        Some(Ok(Some(difference))) => {
            tally.add(Verdict::Differs);
            println!(rt; "{difference}")?;
        }
        Some(Err(fault)) => {
            tally.add(Verdict::Differs);
            println!(rt; "{fault}")?;
        }
    }
    Ok(())
}
