//! A book that is to be shared, before it has a name.

ghost use Rattle.std.specs.Prelude.{◌≡◌, IfOk};
ghost use Rattle.omp_model.specs.State.{Run};

use crate::book::Book;
use crate::seats::{BookSeat, CountTable, new_table};
use c_check::Program;
use omp_machine::{Limits, Memory};
use std::alloc::Global;
use std::marker::Model;

/// A book without an entry and its table, before they have a name. Contracts see the table and the run.
#[derive(Drop)]
pub struct Blank {
    /// The table of the word that counts the entries.
    pub(crate) words: CountTable,
    /// The book's seat at it.
    pub(crate) seat: BookSeat,
    /// The book.
    pub(crate) book: Book,
}

impl Model for Blank {
    ghost use Rattle.step_book.specs.Sharing.{BlankView, IsBlank, blank_code};

    ghost Value = { BlankView };

    ghost coded = { blank_code };

    ghost view = { λ blank. record { table = blank.words.shared.table_id; run = blank.book.run } };

    ghost invariant = { λ blank. IsBlank blank.words.shared.table_id blank.seat.table_id blank.seat.me blank.book };
}

impl Blank {
    /// The book of a run before its first entry: the program with the callbacks of the mask registered (bit n for number n),
    /// and so many threads and silent steps.
    pub fn new(alloc: Global, program: Program, mask: u64, limits: Limits) -> Result<Blank, Memory>
        ensures { IfOk result (λ blank. blank.run ≡ (let run : Run = record {
          program = program;
          mask = mask;
          threads = limits.threads;
          steps = limits.steps;
        } in run)) }
    {
        let (words, seat) = new_table(alloc)?;
        let book = Book::start(alloc, program, mask, limits)?;
        Ok(Blank { words, seat, book })
    }
}
