//! A table of traces, each with what its views are, and how many of them are something else.
//!
//! The table is read from the standard input. A trace is a file beside the program, and a row of it names a view (`trace_view`), with how the
//! view ends and what is written. The program prints each row that differs, and then how many rows there were and how many of them differ.
//! What a view has is only tested.
//!
//! # Lines
//!
//! A line is one of these, and any other line is passed over.
//!
//! | Line | What it is |
//! |---|---|
//! | `trace NAME` | the trace of which the rows below are, up to the next such line: the file `NAME.trace` of `data` |
//! | `row dot` | begins a row of this view, which ends before the next row or trace: see [`view`] |
//! | `> LINE` | the next line that is wanted: first how the view ends, and then the lines of its text |
//!
//! A text of more than 1,500 bytes is told by one line, as `sha256 DIGITS`: its digest in hexadecimal digits.
#![tactic(auto)]

mod table;
mod view;

use std::io::{self, Read};
use table::Table;

fn main(rt: HostRuntime) -> io::Result<()> {
    let mut text = String::new(rt.alloc());
    rt.reader().read_to_string(&mut text)?;
    let mut table = Table::new(rt.alloc());
    for line in text.lines() {
        table.take_line(&rt, line)?;
    }
    table.end_row(&rt)?;
    println!(rt; "{}", table.tally())
}
