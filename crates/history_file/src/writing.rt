//! Writing history files.

ghost use Rattle.std.specs.Prelude.{◌≡◌, ◌≤◌, ◌<◌, ◌^◌, ◌+◌, [], ◌++◌, All, length, OnOk, OnErr};
ghost use Rattle.std.specs.Io.KnownBytes.{Appends};
ghost use Rattle.std.specs.List.{flat_map};
ghost use Rattle.run_edges.specs.Edges.{Rose, AppendsFront};
ghost use Rattle.history_file.specs.Fields.{end_fields, entry_fields, fields_of, head_fields, header_fields, spelling, target_fields};
ghost use Rattle.byteorder.specs.Endian.{big_bytes};
ghost use Rattle.history_file.specs.Fitting.{FitsEntry, FitsFile, FitsTarget, HasThread, HasThreadOf};
ghost use Rattle.history_file.specs.Paging.{IsPaged};

use crate::file::{HistoryFile, MAGIC, VERSION};
use crate::kind;
use crate::page::Page;
use omp_model::{Entry, What};
use ompt_calls::Target;
use run_edges::{Sink, WriteFault, write_all};

/// Writes a history file, a page at a time. It takes no memory.
///
/// A store into the word of a thread has to name a thread below 16, and the text's length and the count of entries have to fit 32 bits.
pub fn write_history<O: Sink>(sink: &mut O, file: &HistoryFile) -> Result<(), WriteFault>
    requires threads { All HasThread file.now.history }
    requires text { length file.now.text < 2 ^ 32 }
    requires count { length file.now.history < 2 ^ 32 }
    ensures whole { OnOk result (Appends (O.held sink.old) (O.held sink.new) (spelling (fields_of file.now))) }
    ensures fault { OnErr result (Rose (O.faults sink.old) (O.faults sink.new)) }
    ensures part { OnErr result (AppendsFront (O.held sink.old) (O.held sink.new) (spelling (fields_of file.now))) }
    ensures counted { O.faults sink.old ≤ O.faults sink.new }
    ensures steady { OnOk result (O.faults sink.new ≡ O.faults sink.old) }
    // The numbers of what was written fit their fields, by their types.
    ensures fits { OnOk result (FitsFile file.now) }
{
    let mut page = Page::new();
    write_header(sink, &mut page, file)?;
    write_entries(sink, &mut page, file.history.as_slice())?;
    write_end(sink, &mut page, file)
}

/// Writes the header, and leaves the page empty.
fn write_header<O: Sink>(
    sink: &mut O,
    page: &mut Page,
    file: &HistoryFile,
) -> Result<(), WriteFault>
    requires empty { page.old ≡ [] }
    requires text { length file.now.text < 2 ^ 32 }
    ensures whole { OnOk result (Appends (O.held sink.old) (O.held sink.new) (spelling (header_fields file.now))) }
    ensures empty { OnOk result (page.new ≡ []) }
    ensures fault { OnErr result (Rose (O.faults sink.old) (O.faults sink.new)) }
    ensures part { OnErr result (AppendsFront (O.held sink.old) (O.held sink.new) (spelling (header_fields file.now))) }
    ensures counted { O.faults sink.old ≤ O.faults sink.new }
    ensures steady { OnOk result (O.faults sink.new ≡ O.faults sink.old) }
    ensures fits { file.now.mask < 2 ^ 64 }
{
    put_head(page, file);
    write_page(sink, page)?;
    write_all(sink, file.text.as_slice())
}

/// Puts what stands before the text on an empty page.
fn put_head(page: &mut Page, file: &HistoryFile)
    requires empty { page.old ≡ [] }
    requires text { length file.now.text < 2 ^ 32 }
    ensures bytes { page.new ≡ spelling (head_fields file.now) }
    ensures fits { file.now.mask < 2 ^ 64 }
{
    page.short(MAGIC);
    page.half(VERSION);
    page.byte(file.threads);
    page.long(file.mask);
    page.short(file.steps);
    page.short(file.text.as_slice().len() as u32);
}

/// Writes the page, and leaves it empty.
fn write_page<O: Sink>(sink: &mut O, page: &mut Page) -> Result<(), WriteFault>
    ensures whole { OnOk result (Appends (O.held sink.old) (O.held sink.new) page.old) }
    ensures empty { OnOk result (page.new ≡ []) }
    ensures fault { OnErr result (Rose (O.faults sink.old) (O.faults sink.new)) }
    ensures part { OnErr result (AppendsFront (O.held sink.old) (O.held sink.new) page.old) }
    ensures counted { O.faults sink.old ≤ O.faults sink.new }
    ensures steady { OnOk result (O.faults sink.new ≡ O.faults sink.old) }
{
    write_all(sink, page.as_slice())?;
    page.clear();
    Ok(())
}

/// Makes room for the longest entry: writes the page where it has none.
fn make_room<O: Sink>(sink: &mut O, page: &mut Page) -> Result<(), WriteFault>
    ensures paged { OnOk result (IsPaged (O.held sink.old) (O.held sink.new) page.new page.old) }
    ensures room { OnOk result (length page.new + 15 ≤ 4096) }
    ensures fault { OnErr result (Rose (O.faults sink.old) (O.faults sink.new)) }
    ensures part { OnErr result (AppendsFront (O.held sink.old) (O.held sink.new) page.old) }
    ensures counted { O.faults sink.old ≤ O.faults sink.new }
    ensures steady { OnOk result (O.faults sink.new ≡ O.faults sink.old) }
{
    if page.has_room() {
        return Ok(());
    }
    write_page(sink, page)
}

/// Writes the entries as far as pages are full, and leaves the rest on the page.
fn write_entries<O: Sink>(
    sink: &mut O,
    page: &mut Page,
    entries: &[Entry],
) -> Result<(), WriteFault>
    requires { All HasThread entries.now }
    ensures paged { OnOk result (IsPaged (O.held sink.old) (O.held sink.new) page.new
        (page.old ++ spelling (flat_map entry_fields entries.now))) }
    ensures fault { OnErr result (Rose (O.faults sink.old) (O.faults sink.new)) }
    ensures part { OnErr result (AppendsFront (O.held sink.old) (O.held sink.new)
        (page.old ++ spelling (flat_map entry_fields entries.now))) }
    ensures counted { O.faults sink.old ≤ O.faults sink.new }
    ensures steady { OnOk result (O.faults sink.new ≡ O.faults sink.old) }
    ensures fits { OnOk result (All FitsEntry entries.now) }
{
    for entry in entries {
        make_room(sink, page)?;
        put_entry(page, *entry);
    }
    Ok(())
}

/// Puts an entry on the page.
fn put_entry(page: &mut Page, entry: Entry)
    requires room { length page.old + 15 ≤ 4096 }
    requires thread { HasThread entry }
    ensures bytes { page.new ≡ page.old ++ spelling (entry_fields entry) }
    ensures fits { FitsEntry entry }
{
    match entry.what {
        What::Go => put_kind(page, kind::GO, entry.thread),
        What::Put(target, word) => {
            put_kind(page, kind::PUT, entry.thread);
            put_target(page, target);
            page.long(word);
        }
        What::Back => put_kind(page, kind::BACK, entry.thread),
    }
}

/// Puts what each entry begins with on the page: its kind and its thread.
fn put_kind(page: &mut Page, kind: u8, thread: u8)
    requires { length page.old + 2 ≤ 4096 }
    ensures bytes { page.new ≡ page.old ++ (big_bytes 1 kind ++ big_bytes 1 thread) }
    ensures longer { length page.new ≡ length page.old + 2 }
{
    page.byte(kind);
    page.byte(thread);
}

/// Puts the word that a store goes to on the page.
fn put_target(page: &mut Page, target: Target)
    requires room { length page.old + 5 ≤ 4096 }
    requires thread { HasThreadOf target }
    ensures bytes { page.new ≡ page.old ++ spelling (target_fields target) }
    ensures longer { length page.new ≡ length page.old + 5 }
    ensures fits { FitsTarget target }
{
    match target {
        Target::Thread(thread) => put_identity(page, kind::THREAD, thread + 1),
        Target::Parallel(region) => put_identity(page, kind::PARALLEL, region),
        Target::Task(task) => put_identity(page, kind::TASK, task),
    }
}

/// Puts the kind of a target and its identity on the page.
fn put_identity(page: &mut Page, kind: u8, identity: u32)
    requires { length page.old + 5 ≤ 4096 }
    ensures bytes { page.new ≡ page.old ++ (big_bytes 1 kind ++ big_bytes 4 identity) }
    ensures longer { length page.new ≡ length page.old + 5 }
{
    page.byte(kind);
    page.short(identity);
}

/// Writes the page and the end behind it.
fn write_end<O: Sink>(sink: &mut O, page: &mut Page, file: &HistoryFile) -> Result<(), WriteFault>
    requires { length file.now.history < 2 ^ 32 }
    ensures whole { OnOk result (Appends (O.held sink.old) (O.held sink.new) (page.old ++
        spelling (end_fields file.now))) }
    ensures fault { OnErr result (Rose (O.faults sink.old) (O.faults sink.new)) }
    ensures part { OnErr result (AppendsFront (O.held sink.old) (O.held sink.new) (page.old ++
        spelling (end_fields file.now))) }
    ensures counted { O.faults sink.old ≤ O.faults sink.new }
    ensures steady { OnOk result (O.faults sink.new ≡ O.faults sink.old) }
{
    make_room(sink, page)?;
    put_end(page, file);
    write_page(sink, page)
}

/// Puts the end on the page.
fn put_end(page: &mut Page, file: &HistoryFile)
    requires room { length page.old + 15 ≤ 4096 }
    requires count { length file.now.history < 2 ^ 32 }
    ensures { page.new ≡ page.old ++ spelling (end_fields file.now) }
{
    page.byte(kind::END);
    page.byte(file.status);
    page.short(file.detail);
    page.short(file.history.as_slice().len() as u32);
}
