//! The paths of which the picture of states is made. Each draws all cells of a shade, or all ticks.

ghost use Rattle.std.specs.Prelude.{◌≡◌, ◌≤◌, ◌<◌, ◌*◌, ◌++◌, OnOk, length};
ghost use Rattle.trace_view.specs.Cells.{mark_text, path_head, path_text, row_text, rows_text};
ghost use Rattle.trace_view.specs.Svg.{left_of, middle_of, move_to, shade_head};

use crate::cells::{Cell, THREADS};
use crate::shades::colour_of;
use std::alloc::{AllocError, Global};

/// What is drawn of cells.
#[derive(Clone, Copy)]
pub(crate) enum Mark {
    /// A stroke where the cell has this shade.
    Stroke { shade: u8 },
    /// A tick where it has a switch.
    Tick,
}

/// Adds the path of a mark, over the cells of so many threads and columns.
pub(crate) fn put_path(
    alloc: Global,
    mark: Mark,
    columns: u8,
    threads: u8,
    cells: &[Cell],
    text: &mut Vec<u8>,
) -> Result<(), AllocError>
    requires count { length cells.now ≡ columns * 16 }
    requires few { threads ≤ 16 }
    ensures { OnOk result (text.new.items ≡ text.old.items ++ path_text mark columns threads cells.now) }
{
    put_head(alloc, mark, text)?;
    put_rows(alloc, mark, columns, threads, cells, text)?;
    text.extend_from_slice(b"\"/>\n")
}

/// Adds how a path begins.
fn put_head(alloc: Global, mark: Mark, text: &mut Vec<u8>) -> Result<(), AllocError>
    ensures { OnOk result (text.new.items ≡ text.old.items ++ path_head mark) }
{
    match mark {
        Mark::Stroke { shade } => put_shade_head(alloc, shade, text),
        Mark::Tick => text.extend_from_slice(b"<path stroke=\"#000000\" d=\""),
    }
}

/// Adds how the path of a shade begins.
fn put_shade_head(alloc: Global, shade: u8, text: &mut Vec<u8>) -> Result<(), AllocError>
    ensures { OnOk result (text.new.items ≡ text.old.items ++ shade_head shade) }
{
    let colour = colour_of(shade);
    let head = format!(in alloc; "<path stroke=\"{colour}\" stroke-width=\"14\" d=\"")?;
    text.extend_from_slice(head.as_bytes())
}

/// Adds what is drawn of all rows.
fn put_rows(
    alloc: Global,
    mark: Mark,
    columns: u8,
    threads: u8,
    cells: &[Cell],
    text: &mut Vec<u8>,
) -> Result<(), AllocError>
    requires count { length cells.now ≡ columns * 16 }
    requires few { threads ≤ 16 }
    ensures { OnOk result (text.new.items ≡ text.old.items ++ rows_text mark columns threads cells.now) }
{
    for thread in 0..threads {
        put_row(alloc, mark, columns, thread, cells, text)?;
    }
    Ok(())
}

/// Adds what is drawn of the row of a thread.
fn put_row(
    alloc: Global,
    mark: Mark,
    columns: u8,
    thread: u8,
    cells: &[Cell],
    text: &mut Vec<u8>,
) -> Result<(), AllocError>
    requires count { length cells.now ≡ columns * 16 }
    requires few { thread < 16 }
    ensures { OnOk result (text.new.items ≡ text.old.items ++ row_text mark columns cells.now thread) }
{
    for column in 0..columns {
        let cell = cells[column as usize * THREADS + thread as usize];
        put_mark(alloc, mark, cell, thread, column, text)?;
    }
    Ok(())
}

/// Adds what is drawn of a cell.
fn put_mark(
    alloc: Global,
    mark: Mark,
    cell: Cell,
    thread: u8,
    column: u8,
    text: &mut Vec<u8>,
) -> Result<(), AllocError>
    ensures { OnOk result (text.new.items ≡ text.old.items ++ mark_text mark cell thread column) }
{
    match mark {
        Mark::Stroke { shade } => {
            if cell.shade == shade {
                put_line(alloc, thread, column, "h6", text)
            } else {
                Ok(())
            }
        }
        Mark::Tick => {
            if cell.has_switch {
                put_line(alloc, thread, column, "v9", text)
            } else {
                Ok(())
            }
        }
    }
}

/// Adds a line from the left end of a cell on.
fn put_line(
    alloc: Global,
    thread: u8,
    column: u8,
    line: &str,
    text: &mut Vec<u8>,
) -> Result<(), AllocError>
    ensures { OnOk result (text.new.items ≡ text.old.items ++ (move_to thread column ++ line.now)) }
{
    let left = left_of(column);
    let middle = middle_of(thread);
    let drawn = format!(in alloc; "M{left} {middle}{line}")?;
    text.extend_from_slice(drawn.as_bytes())
}

/// The left end of a column.
fn left_of(column: u8) -> u32
    ensures { result ≡ left_of column }
{
    30 + u32::from(column) * 6
}

/// The middle of the row of a thread.
pub(crate) fn middle_of(thread: u8) -> u32
    ensures { result ≡ middle_of thread }
{
    10 + u32::from(thread) * 20
}
