//! What writes the items of a trace again.

use crate::copied::Copied;
use crate::form::Form;
use crate::put::put_item;
use run_edges::Sink;
use std::alloc::Global;
use trace_format::{EndMark, Item, Taker};

/// What writes in this form what is said of each item, and keeps the end mark.
#[derive(Drop)]
pub(crate) struct Copier<'a, O> {
    /// The allocator.
    pub alloc: Global,
    /// In which form the trace is written.
    pub form: Form,
    /// The end mark, once it has come.
    pub end: Option<EndMark>,
    /// Where it is written.
    pub out: &'a mut O,
}

impl<O: Sink> Taker for Copier<'_, O> {
    ghost use Rattle.std.specs.Prelude.{◌≡◌};
    ghost use Rattle.trace_copy.specs.Ending.{HasPut, StopsAt};

    type Stop = Copied;

    ghost took = { λ start now items. (now.out.ghost_name ≡ start.out.ghost_name) × (now.form ≡ start.form)
        × (O.faults now.out.now ≡ O.faults start.out.now)
        × HasPut start.form start.end now.end (O.held start.out.now) (O.held now.out.now) items };

    ghost stopped = { λ start now items next stop. (now.out.ghost_name ≡ start.out.ghost_name)
        × StopsAt start.form stop (O.faults start.out.now) (O.faults now.out.now) (O.held start.out.now)
        (O.held now.out.now) items next };

    fn take(&mut self, item: &Item) -> Result<(), Copied> {
        put_item(self.alloc, self.form, item, self.out)?;
        if let Item::End(mark) = item {
            self.end = Some(*mark);
        }
        Ok(())
    }
}
