//! What writes the items of a trace in a style.

ghost use Rattle.std.specs.Prelude.{◌≡◌, ◌≢◌, ◌⊎◌, Err, OnErr, OnOk};
ghost use Rattle.std.specs.Io.KnownBytes.{Appends};
ghost use Rattle.run_edges.specs.Edges.{AppendsFront, Rose};
ghost use Rattle.trace_view.specs.ItemStyles.{styled_item};

use crate::item_style::{ItemStyle, item_text};
use crate::viewed::Viewed;
use run_edges::{Sink, write_all};
use std::alloc::Global;
use trace_format::{Item, Taker};

/// What writes the text of each item.
#[derive(Drop)]
pub(crate) struct ItemWriter<'a, O> {
    /// The allocator.
    pub alloc: Global,
    /// How an item is written.
    pub style: ItemStyle,
    /// Where it is written.
    pub out: &'a mut O,
}

impl<O: Sink> Taker for ItemWriter<'_, O> {
    ghost use Rattle.std.specs.Prelude.{◌≡◌};
    ghost use Rattle.std.specs.Io.KnownBytes.{Appends};
    ghost use Rattle.trace_view.specs.ItemStyles.{styled_items};
    ghost use Rattle.trace_view.specs.ViewingItems.{StopsAt};

    type Stop = Viewed;

    ghost took = { λ start now items. (now.out.ghost_name ≡ start.out.ghost_name) × (now.style ≡ start.style)
        × (O.faults now.out.now ≡ O.faults start.out.now)
        × Appends (O.held start.out.now) (O.held now.out.now) (styled_items start.style items) };

    ghost stopped = { λ start now items next stop. (now.out.ghost_name ≡ start.out.ghost_name)
        × StopsAt start.style stop (O.faults start.out.now) (O.faults now.out.now) (O.held start.out.now)
        (O.held now.out.now) items next };

    fn take(&mut self, item: &Item) -> Result<(), Viewed> {
        put_item(self.alloc, self.style, item, self.out)
    }
}

/// Writes the text of an item.
fn put_item<O: Sink>(
    alloc: Global,
    style: ItemStyle,
    item: &Item,
    out: &mut O,
) -> Result<(), Viewed>
    ensures whole { OnOk result (Appends (O.held out.old) (O.held out.new) (styled_item style item.now)) }
    ensures part { OnErr result (AppendsFront (O.held out.old) (O.held out.new) (styled_item style item.now)) }
    ensures ends { (end : Viewed) → result ≡ Err end → (end ≡ Viewed.WriteFault) ⊎ (end ≡ Viewed.Memory) }
    ensures write { result ≡ Err Viewed.WriteFault → Rose (O.faults out.old) (O.faults out.new) }
    ensures steady { result ≢ Err Viewed.WriteFault → O.faults out.new ≡ O.faults out.old }
{
    let text = item_text(alloc, style, item).map_err(|_| Viewed::Memory)?;
    write_all(out, text.as_slice()).map_err(|_| Viewed::WriteFault)
}
