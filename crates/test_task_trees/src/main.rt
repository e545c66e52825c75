//! A table of traces, each with what a forest of it comes to, and how many of them come to something else.
//!
//! The table is read from the standard input. A row of it is written as a trace (`trace_format`), which is read again and made a forest of
//! (`tool_tasks`). The program prints each row that differs, and then how many rows there were and how many of them differ. A line that
//! can't be read counts as a row that differs. What a row comes to is only tested.
//!
//! # Lines
//!
//! A line is one of these. Lines with nothing in them are passed over.
//!
//! | Line | What it is |
//! |---|---|
//! | `# words` | a comment |
//! | `= words` | the headline of what follows |
//! | `row NAME` | begins a row, which ends before the next one |
//! | `\| 8 0 task_schedule 1 7 2` | an event: see [`event`] |
//! | `end 6 1` | the status and the detail of the end mark; without this line, 0 and 0 |
//! | `cut 100` | only so many bytes of the trace are read |
//! | `node 2` | a line on this task is wanted |
//! | `> LINE` | the next line that is wanted |
//!
//! # What is wanted
//!
//! Of a nested trace it is the text of its forest, then `chain 5 from 2 to 10`, which has how many positions its chain has, the first one
//! and the last one, and then a line for each `node`. Of another one it is `trace refused REASON at OFFSET` or `breach RULE at POSITION`.
#![tactic(auto)]

mod answer;
mod event;
mod row;

use row::Row;
use std::alloc::Global;
use std::io::{self, BufRead, BufReader};
use test_rows::{RowFault, Tally, Verdict};

fn main(rt: HostRuntime) -> io::Result<()> {
    let mut row = None;
    let mut tally = Tally::new();
    let mut number = 0_u32;
    for line in BufReader::new(rt.alloc(), rt.reader())?.lines(rt.alloc()) {
        let line = line?;
        number = number.saturating_add(1);
        take_line(&rt, &mut row, &mut tally, number, line.as_str())?;
    }
    end_row(&rt, &mut row, &mut tally)?;
    println!(rt; "{tally}")
}

/// Takes the line with this number, which may end a row.
fn take_line<R: AllocGlobal + Print>(
    rt: &R,
    row: &mut Option<Row>,
    tally: &mut Tally,
    number: u32,
    line: &str,
) -> io::Result<()> {
    if line.starts_with("row ") {
        end_row(rt, row, tally)?;
    }
    if let Err(fault) = take(rt.alloc(), row, line) {
        tally.add(Verdict::Differs);
        println!(rt; "{number}: {fault}")?;
    }
    Ok(())
}

/// Takes a line, which ends no row.
fn take(alloc: Global, row: &mut Option<Row>, line: &str) -> Result<(), RowFault> {
    let (head, text) = line.split_once(' ').unwrap_or((line, ""));
    match head {
        "" | "#" | "=" => Ok(()),
        "row" => {
            *row = Some(Row::new(alloc, text)?);
            Ok(())
        }
        _ => match row {
            Some(row) => row.take(alloc, head, text),
            None => Err(RowFault::OutsideRow),
        },
    }
}

/// Ends the row, if one began, and counts it.
fn end_row<R: AllocGlobal + Print>(
    rt: &R,
    row: &mut Option<Row>,
    tally: &mut Tally,
) -> io::Result<()> {
    let Some(row) = row.take() else {
        return Ok(());
    };
    match row.difference(rt.alloc()) {
        Ok(None) => tally.add(Verdict::Agrees),
        Ok(Some(difference)) => {
            tally.add(Verdict::Differs);
            println!(rt; "{difference}")?;
        }
        Err(fault) => {
            tally.add(Verdict::Differs);
            println!(rt; "{fault}")?;
        }
    }
    Ok(())
}
