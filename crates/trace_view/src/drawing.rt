//! Reading a trace and drawing a picture of it.

ghost use Rattle.std.specs.Prelude.{◌≡◌, ◌≢◌, IfOk};
ghost use Rattle.run_edges.specs.Edges.{Rose};
ghost use Rattle.trace_check.specs.Nested.{Nested};
ghost use Rattle.trace_format.specs.Validity.{IsTrace};
ghost use Rattle.trace_view.specs.Drawing.{HasDrawn, HasPut, IsPicture};

use crate::dot::dot_text;
use crate::picture::Picture;
use crate::svg::svg_text;
use crate::viewed::Viewed;
use crate::waits::waits_text;
use run_edges::{Sink, Source, write_all};
use std::alloc::{AllocError, Global};
use tool_tasks::{Unread, read_nested};
use trace_format::Trace;

/// Reads a trace to its end, and where it is nested writes this picture of it.
pub fn view_picture<S: Source, O: Sink>(
    alloc: Global,
    picture: Picture,
    source: &mut S,
    out: &mut O,
) -> Viewed
    ensures drawn { HasDrawn picture result (S.left source.old) (S.left source.new) (O.held out.old) (O.held out.new) }
    // Each fault was counted, and no count rose without one.
    ensures read { result ≡ Viewed.ReadFault → Rose (S.faults source.old) (S.faults source.new) }
    ensures write { result ≡ Viewed.WriteFault → Rose (O.faults out.old) (O.faults out.new) }
    ensures unread { result ≢ Viewed.ReadFault → S.faults source.new ≡ S.faults source.old }
    ensures steady { result ≢ Viewed.WriteFault → O.faults out.new ≡ O.faults out.old }
{
    match read_nested(alloc, source) {
        Ok(trace) => put_picture(alloc, picture, &trace, out),
        Err(Unread::Refused(refusal)) => Viewed::Refused(refusal),
        Err(Unread::Broken(breach)) => Viewed::Broken(breach),
        Err(Unread::ReadFault) => Viewed::ReadFault,
        Err(Unread::Memory) => Viewed::Memory,
    }
}

/// Writes a picture of a trace.
fn put_picture<O: Sink>(alloc: Global, picture: Picture, trace: &Trace, out: &mut O) -> Viewed
    requires valid { IsTrace trace.now }
    requires nested { Nested trace.now.header trace.now.events trace.now.end }
    ensures put { HasPut picture trace.now result (O.held out.old) (O.held out.new) }
    ensures write { result ≡ Viewed.WriteFault → Rose (O.faults out.old) (O.faults out.new) }
    ensures steady { result ≢ Viewed.WriteFault → O.faults out.new ≡ O.faults out.old }
{
    match picture_text(alloc, picture, trace) {
        Ok(text) => match write_all(out, text.as_slice()) {
            Ok(()) => Viewed::Whole,
            Err(_) => Viewed::WriteFault,
        },
        Err(_) => Viewed::Memory,
    }
}

/// A picture of a trace.
fn picture_text(alloc: Global, picture: Picture, trace: &Trace) -> Result<Vec<u8>, AllocError>
    requires valid { IsTrace trace.now }
    requires nested { Nested trace.now.header trace.now.events trace.now.end }
    ensures { IfOk result (λ text. IsPicture picture trace.now text.items) }
{
    match picture {
        Picture::Tasks => dot_text(alloc, trace),
        Picture::Timeline { columns } => svg_text(alloc, columns, trace),
        Picture::Waits => waits_text(alloc, trace),
    }
}
