//! Writing traces.

ghost use Rattle.std.specs.Prelude.{◌≡◌, ◌≤◌, ◌+◌, ◌++◌, length, OnOk, OnErr};
ghost use Rattle.std.specs.Io.KnownBytes.{Appends};
ghost use Rattle.run_edges.specs.Edges.{Rose, AppendsFront};
ghost use Rattle.std.specs.List.{All};
ghost use Rattle.trace_format.specs.Fitting.{FitsCall, FitsFields, FitsItem};
ghost use Rattle.trace_format.specs.Fields.{arguments, end_fields, event_fields, fields_of, header_fields, spelling};
ghost use Rattle.trace_format.specs.Items.{item_bytes};
ghost use Rattle.trace_format.specs.Reached.{flat};

use crate::item::Item;
use crate::piece::Piece;
use crate::trace::{EndMark, Header, MAGIC, Trace};
use ompt_calls::{Call, EventRecord};
use run_edges::{Sink, WriteFault, write_all};

/// Writes a trace: the header, each event and the end mark as one piece each. It takes no memory.
pub fn write_trace<O: Sink>(sink: &mut O, trace: &Trace) -> Result<(), WriteFault>
    ensures whole { OnOk result (Appends (O.held sink.old) (O.held sink.new) (spelling (fields_of trace.now))) }
    ensures fault { OnErr result (Rose (O.faults sink.old) (O.faults sink.new)) }
    ensures part { OnErr result (AppendsFront (O.held sink.old) (O.held sink.new) (spelling (fields_of trace.now))) }
    ensures counted { O.faults sink.old ≤ O.faults sink.new }
    ensures steady { OnOk result (O.faults sink.new ≡ O.faults sink.old) }
    // The numbers of what was written fit their fields, by their types.
    ensures fits { OnOk result (All FitsFields trace.now.events) }
{
    write_item(sink, &Item::Header(trace.header))?;
    for event in &trace.events.0 {
        write_item(sink, &Item::Event(*event))?;
    }
    write_item(sink, &Item::End(trace.end))
}

/// Writes an item of a trace as one piece, and nothing for [`Item::More`]. It takes no memory.
pub fn write_item<O: Sink>(sink: &mut O, item: &Item) -> Result<(), WriteFault>
    ensures whole { OnOk result (Appends (O.held sink.old) (O.held sink.new) (item_bytes item.now)) }
    ensures fault { OnErr result (Rose (O.faults sink.old) (O.faults sink.new)) }
    ensures part { OnErr result (AppendsFront (O.held sink.old) (O.held sink.new) (item_bytes item.now)) }
    ensures counted { O.faults sink.old ≤ O.faults sink.new }
    ensures steady { OnOk result (O.faults sink.new ≡ O.faults sink.old) }
    ensures fits { FitsItem item.now }
{
    let piece = piece_of(item);
    write_all(sink, piece.as_slice())
}

/// The bytes of an item.
fn piece_of(item: &Item) -> Piece
    ensures bytes { result ≡ item_bytes item.now }
    ensures fits { FitsItem item.now }
{
    match item {
        Item::More => Piece::new(),
        Item::Header(header) => header_piece(header),
        Item::Event(event) => event_piece(event),
        Item::End(end) => end_piece(end),
    }
}

/// The bytes of the header.
fn header_piece(header: &Header) -> Piece
    ensures { result ≡ spelling (header_fields header.now) }
{
    let mut piece = Piece::new();
    piece.short(MAGIC);
    piece.half(header.version);
    piece.byte(header.threads);
    piece.byte(header.origin);
    piece.long(header.mask);
    piece
}

/// The bytes of an event.
fn event_piece(event: &EventRecord) -> Piece
    ensures bytes { result ≡ spelling (event_fields event.now) }
    ensures fits { FitsFields event.now }
{
    let mut piece = Piece::new();
    piece.byte(event.call.number() as u8);
    piece.short(event.seq);
    piece.byte(event.thread);
    piece.half(event.state);
    piece.short(event.wait_id);
    put_arguments(&mut piece, &event.call);
    piece
}

/// Puts the arguments of a callback behind the bytes of the other fields.
fn put_arguments(piece: &mut Piece, call: &Call)
    requires { length piece.old + 48 ≤ 60 }
    ensures bytes { piece.new ≡ piece.old ++ flat (arguments call.now) }
    ensures fits { FitsCall call.now }
{
    let arguments = call.arguments();
    for argument in arguments.as_slice() {
        piece.argument(argument);
    }
}

/// The bytes of the end mark.
fn end_piece(end: &EndMark) -> Piece
    ensures { result ≡ spelling (end_fields end.now) }
{
    let mut piece = Piece::new();
    piece.byte(0);
    piece.byte(end.status);
    piece.short(end.detail);
    piece.short(end.count);
    piece
}
