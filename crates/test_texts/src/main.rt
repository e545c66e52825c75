//! Tables of texts, each with the answer that is wanted of it, and how many of the answers differ.
//!
//! A table is read from the standard input. Each of its rows asks a question of a text: its tokens, its tree, its fault, the slots of
//! its names, how its constructs see variables, what its tasks copy, the numbers of its criticals, the parts of its loops, or what its
//! code does. The program prints each row that differs from the answer that is wanted, and then how many rows there were and how many of
//! them differ. A line that can't be read counts as a row that differs. The answers are only tested.
//!
//! # Lines
//!
//! A line is one of these. Lines with nothing in them are passed over.
//!
//! | Line | What it is |
//! |---|---|
//! | `# words` | a comment |
//! | `= words` | the headline of what follows |
//! | `frame NAME` | begins a frame, which is named text that stands around the texts of rows |
//! | `\| text` | the next line of the frame. In one of them `...` stands where the text of a row goes |
//! | `> tree` | what stands around the trees of rows in the frame, with `...` where they go |
//! | `ask QUESTION` | what is asked in the rows that follow, of their texts alone |
//! | `ask QUESTION in NAME` | the same of their texts in a frame |
//! | `ANSWER \| TEXT` | a row: the answer that is wanted, and the text. Without a sign between them the text is empty |
//!
//! # Questions
//!
//! | Question | Answer |
//! |---|---|
//! | `tokens` | each token, as its kind, its span in bytes, and its place |
//! | `tree` | the tree by the grammar; see [`tree_line`] |
//! | `syntax` | `ok` where the text is a program by the grammar |
//! | `fault` | `ok` where it also breaks no rule |
//! | `main` | the number of the name `main` in the tree, and the place where the text ends |
//! | `slots` | `NAME@PLACE=SLOT` for each name that the answer speaks of |
//! | `sharing` | the place of a construct, and `NAME:SLOT=SHARING` for each variable that the answer speaks of |
//! | `copies` | the place of a task, and `NAME:SLOT` for each variable that it copies, or `none` |
//! | `criticals` | `PLACE=NUMBER` for each critical, an inner one before the one around it, and `count=COUNT` |
//! | `loop` | a construct's place, those of its loop's `variable`, `start`, `end` and `body`, the comparison and `step`, or `none` |
//! | `steps` | what the code does from `main` on, where [`driver`] is the only thread of the run |
//!
//! A place is a line and a column, as `3:1`. Where no construct stands at the place of an answer, `no construct` follows in it. Any
//! question is answered by the number of a fault and its place, as `10 at 3:1`, where the text doesn't come so far.
//!
//! What the code does is told in parts with commas between them:
//!
//! | Part | What it is |
//! |---|---|
//! | `"5\n"` | the text that was printed. More than 1,000 bytes are told as `1001 bytes` |
//! | `+3` | so many silent steps |
//! | `parallel@3:1 2` | an event; see [`event_words`] |
//! | `chunk 0 10` `no chunk` | a chunk is given, by its first iteration and how many they are; none is left |
//! | `section 0` `no section` | a section is given; none is left |
//! | `free` `not free` | whether a lock is owned, where it is tested. Where it is free no step is made |
//! | `done` | the code of a region's member or of a task has ended |
//! | `ends 0` `traps 1` `limits 3` | the end: what `main` has returned, or the number of the trap or of the limit |
//! | `runs on` | more than 10,000 steps, events and answers |
//!
//! An answer that begins with `text` speaks of the text and the end alone, one with `events` of all but the text and the steps, and one
//! with `count` of the number of all silent steps and the end.
//!
//! # Texts
//!
//! What a text is written with is told at [`pattern`].
#![tactic(auto)]

mod account;
mod answer;
mod construct;
mod copies;
mod criticals;
mod driver;
mod event_words;
mod frame;
mod loop_parts;
mod pattern;
mod place;
mod question;
mod refusal;
mod row_fault;
mod seen;
mod shared_work;
mod table;
mod tree_line;

use std::io::{self, BufRead, BufReader};
use table::{Outcome, Table};
use test_rows::{Tally, Verdict};

fn main(rt: HostRuntime) -> io::Result<()> {
    let mut table = Table::new(rt.alloc());
    let mut tally = Tally::new();
    let mut number = 0_u32;
    for line in BufReader::new(rt.alloc(), rt.reader())?.lines(rt.alloc()) {
        let line = line?;
        number = number.saturating_add(1);
        match table.take(rt.alloc(), line.as_str()) {
            Ok(Outcome::NoRow) => {}
            Ok(Outcome::Agrees) => tally.add(Verdict::Agrees),
            Ok(Outcome::Differs(difference)) => {
                tally.add(Verdict::Differs);
                println!(rt; "{number}: {difference}")?;
            }
            Err(fault) => {
                tally.add(Verdict::Differs);
                println!(rt; "{number}: {fault}")?;
            }
        }
    }
    println!(rt; "{tally}")
}
