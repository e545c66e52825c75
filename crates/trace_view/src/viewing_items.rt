//! Reading a trace and writing it item by item.

ghost use Rattle.std.specs.Prelude.{◌≡◌, ◌≢◌};
ghost use Rattle.run_edges.specs.Edges.{Rose};
ghost use Rattle.trace_view.specs.ViewingItems.{HasViewedItems};

use crate::item_style::ItemStyle;
use crate::item_writer::ItemWriter;
use crate::viewed::Viewed;
use run_edges::{Sink, Source};
use std::alloc::Global;
use trace_format::{ReadEnd, read_items};

/// Reads a trace to its end, and writes each item in this style, as soon as it is whole.
pub fn view_items<S: Source, O: Sink>(
    alloc: Global,
    style: ItemStyle,
    source: &mut S,
    out: &mut O,
) -> Viewed
    ensures viewed { HasViewedItems style result (S.left source.old) (S.left source.new) (O.held out.old)
        (O.held out.new) }
    // Each fault was counted, and no count rose without one.
    ensures read { result ≡ Viewed.ReadFault → Rose (S.faults source.old) (S.faults source.new) }
    ensures write { result ≡ Viewed.WriteFault → Rose (O.faults out.old) (O.faults out.new) }
    ensures unread { result ≢ Viewed.ReadFault → S.faults source.new ≡ S.faults source.old }
    ensures steady { result ≢ Viewed.WriteFault → O.faults out.new ≡ O.faults out.old }
{
    let mut writer = ItemWriter { alloc, style, out };
    match read_items(source, &mut writer) {
        ReadEnd::Whole => Viewed::Whole,
        ReadEnd::Refused(refusal) => Viewed::Refused(refusal),
        ReadEnd::ReadFault => Viewed::ReadFault,
        ReadEnd::Stopped(stop) => stop,
    }
}
