//! The name of a book.

ghost use Rattle.atomic_table.specs.Seated.{TableId};
ghost use Rattle.omp_model.specs.State.{Run};

use std::marker::Brand;

/// The name of one book: its table and its run. What stands behind a lock is known by its type alone, so a shared book and its passes carry
/// their name in their types. A caller is a function over any name, which is called with [`Brand`](std::marker::Brand) for it.
pub trait BookName: Send + Sync {
    /// The table of the word that counts the entries.
    ghost table: { TableId };
    /// What fixes the run.
    ghost run: { Run };
}

impl BookName for Brand {
    ghost use Rattle.std.specs.Prelude.{[]};
    ghost use Rattle.step_book.specs.Named.{no_run, no_table};

    ghost table = { no_table };

    ghost run = { no_run };
}
