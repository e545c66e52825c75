//! Writing what is said of an item.

ghost use Rattle.std.specs.Prelude.{◌≡◌, ◌≢◌, ◌≤◌, ◌+◌, ◌++◌, ◌⊎◌, OnOk, OnErr, Ok, Err};
ghost use Rattle.std.specs.Fmt.{decimal};
ghost use Rattle.std.specs.Io.KnownBytes.{Appends};
ghost use Rattle.arrayvec.specs.ArrayString.{array_string_len};
ghost use Rattle.run_edges.specs.Edges.{Rose, AppendsFront};
ghost use Rattle.trace_copy.specs.Ending.{last_line};
ghost use Rattle.trace_copy.specs.Written.{line_of_end, written_of_item};
ghost use Rattle.trace_format.specs.Migrating.{migrated, migrated_header};

use crate::copied::Copied;
use crate::form::Form;
use arrayvec::ArrayString;
use itoa::Buffer;
use ompt_calls::line_of;
use run_edges::{Sink, write_all};
use std::alloc::Global;
use trace_format::{EndMark, FIRST_VERSION, Header, Item, MIGRATED, VERSION, write_item};

/// Writes what is said of an item.
pub(crate) fn put_item<O: Sink>(
    alloc: Global,
    form: Form,
    item: &Item,
    out: &mut O,
) -> Result<(), Copied>
    ensures whole { OnOk result (Appends (O.held out.old) (O.held out.new) (written_of_item form item.now)) }
    ensures part { OnErr result (AppendsFront (O.held out.old) (O.held out.new) (written_of_item form item.now)) }
    ensures ends { (end : Copied) → result ≡ Err end → (end ≡ Copied.WriteFault) ⊎ (end ≡ Copied.Memory) }
    ensures memory { form ≡ Form.SecondVersion → result ≢ Err Copied.Memory }
    ensures write { result ≡ Err Copied.WriteFault → Rose (O.faults out.old) (O.faults out.new) }
    ensures steady { result ≢ Err Copied.WriteFault → O.faults out.new ≡ O.faults out.old }
{
    match (form, item) {
        (Form::SecondVersion, _) => {
            write_item(out, &migrated(item)).map_err(|_| Copied::WriteFault)
        }
        (Form::Lines, Item::Event(event)) => {
            let line = line_of(alloc, event.seq, event.thread, &event.call).map_err(
                |_| Copied::Memory,
            )?;
            put(line.as_slice(), out)
        }
        (Form::Lines, _) => Ok(()),
    }
}

/// Writes what is said of the whole trace once the input has come to its end.
pub(crate) fn put_last<O: Sink>(form: Form, end: Option<EndMark>, out: &mut O) -> Result<(), Copied>
    ensures whole { OnOk result (Appends (O.held out.old) (O.held out.new) (last_line form end)) }
    ensures part { OnErr result (AppendsFront (O.held out.old) (O.held out.new) (last_line form end)) }
    ensures ends { (end : Copied) → result ≡ Err end → end ≡ Copied.WriteFault }
    ensures write { result ≡ Err Copied.WriteFault → Rose (O.faults out.old) (O.faults out.new) }
    ensures steady { result ≢ Err Copied.WriteFault → O.faults out.new ≡ O.faults out.old }
{
    match (form, end) {
        (Form::Lines, Some(end)) => put(line_of_end(end).as_str().as_bytes(), out),
        _ => Ok(()),
    }
}

/// Writes all bytes.
fn put<O: Sink>(bytes: &[u8], out: &mut O) -> Result<(), Copied>
    ensures whole { OnOk result (Appends (O.held out.old) (O.held out.new) bytes.now) }
    ensures part { OnErr result (AppendsFront (O.held out.old) (O.held out.new) bytes.now) }
    ensures ends { (end : Copied) → result ≡ Err end → end ≡ Copied.WriteFault }
    ensures write { result ≡ Err Copied.WriteFault → Rose (O.faults out.old) (O.faults out.new) }
    ensures steady { result ≢ Err Copied.WriteFault → O.faults out.new ≡ O.faults out.old }
{
    write_all(out, bytes).map_err(|_| Copied::WriteFault)
}

/// The item in the second version of the format.
fn migrated(item: &Item) -> Item
    ensures { result ≡ migrated item.now }
{
    match item {
        Item::Header(header) => Item::Header(migrated_header(*header)),
        _ => *item,
    }
}

/// The header in the second version of the format. One of the first version says where it comes from.
fn migrated_header(header: Header) -> Header
    ensures { result ≡ migrated_header header }
{
    if header.version != FIRST_VERSION {
        return header;
    }
    Header {
        version: VERSION,
        origin: MIGRATED,
        ..header
    }
}

/// The line of the end mark, with its newline.
pub fn line_of_end(end: EndMark) -> ArrayString<160>
    ensures { result.bytes ≡ line_of_end end }
{
    let mut line = ArrayString::new();
    line.push_str("end ");
    push_number(&mut line, u32::from(end.status));
    line.push_str(" ");
    push_number(&mut line, end.detail);
    line.push_str(" ");
    push_number(&mut line, end.count);
    line.push_str("\n");
    line
}

/// Adds a number in decimal to a line with room for 40 digits.
pub fn push_number(line: &mut ArrayString<160>, number: u32)
    requires { array_string_len line.old + 40 ≤ 160 }
    ensures bytes { line.new.bytes ≡ line.old.bytes ++ decimal number }
    ensures few { array_string_len line.new ≤ array_string_len line.old + 40 }
{
    let mut digits = Buffer::new();
    line.push_str(digits.format(number));
}
