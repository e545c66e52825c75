//! The states of threads over a run as a picture, in the language SVG.

ghost use Rattle.std.specs.Prelude.{◌≡◌, ◌≤◌, ◌*◌, ◌++◌, IfOk, OnOk, length};
ghost use Rattle.std.specs.List.{flat_map, range_with_len};
ghost use Rattle.trace_format.specs.Validity.{IsTrace};
ghost use Rattle.trace_view.specs.Cells.{drawing_of, shade_paths};
ghost use Rattle.trace_view.specs.Svg.{legend_line, svg_head, svg_of, thread_label, tick_legend};

use crate::cells::{Cell, cells_of, threads_of};
use crate::paths::{Mark, middle_of, put_path};
use crate::shades::{colour_of, shade_text};
use std::alloc::{AllocError, Global};
use trace_format::Trace;

/// The picture of the states of threads over the run of a valid trace, in so many columns.
pub fn svg_text(alloc: Global, columns: u8, trace: &Trace) -> Result<Vec<u8>, AllocError>
    requires valid { IsTrace trace.now }
    ensures picture { IfOk result (λ text. text.items ≡ svg_of columns trace.now.events) }
    ensures short { columns ≤ 200 → IfOk result (λ text. length text.items ≤ 80000) }
{
    let events = trace.events.0.as_slice();
    let threads = threads_of(events);
    let cells = cells_of(alloc, columns, events)?;
    drawing(alloc, columns, threads, cells.as_slice())
}

/// The picture of these cells.
fn drawing(alloc: Global, columns: u8, threads: u8, cells: &[Cell]) -> Result<Vec<u8>, AllocError>
    requires count { length cells.now ≡ columns * 16 }
    requires few { threads ≤ 16 }
    ensures { IfOk result (λ text. text.items ≡ drawing_of columns threads cells.now) }
{
    let mut text = head(alloc, columns, threads)?;
    put_labels(alloc, threads, &mut text)?;
    put_shades(alloc, columns, threads, cells, &mut text)?;
    put_path(alloc, Mark::Tick, columns, threads, cells, &mut text)?;
    put_legend(alloc, threads, &mut text)?;
    text.extend_from_slice(b"</svg>\n")?;
    Ok(text)
}

/// How a picture begins.
fn head(alloc: Global, columns: u8, threads: u8) -> Result<Vec<u8>, AllocError>
    ensures { IfOk result (λ text. text.items ≡ svg_head columns threads) }
{
    let width = (columns as u32 * 6 + 40).max(200);
    let height = threads as u32 * 20 + 172;
    let head = format!(in alloc;
        "<svg xmlns=\"http://www.w3.org/2000/svg\" viewBox=\"0 0 {width} {height}\""
    )?;
    let mut text = head.into_bytes();
    text.extend_from_slice(b" font-family=\"sans-serif\" font-size=\"12\">\n")?;
    text.extend_from_slice(b"<rect width=\"100%\" height=\"100%\" fill=\"#FFFFFF\"/>\n")?;
    Ok(text)
}

/// Adds the numbers of the threads.
fn put_labels(alloc: Global, threads: u8, text: &mut Vec<u8>) -> Result<(), AllocError>
    ensures { OnOk result (text.new.items ≡ text.old.items ++ flat_map thread_label (range_with_len 0 threads)) }
{
    for thread in 0..threads {
        put_label(alloc, thread, text)?;
    }
    Ok(())
}

/// Adds the number of a thread.
fn put_label(alloc: Global, thread: u8, text: &mut Vec<u8>) -> Result<(), AllocError>
    ensures { OnOk result (text.new.items ≡ text.old.items ++ thread_label thread) }
{
    let base = middle_of(thread) + 4;
    let label = format!(in alloc; "<text x=\"6\" y=\"{base}\">{thread}</text>\n")?;
    text.extend_from_slice(label.as_bytes())
}

/// Adds the paths of all shades.
fn put_shades(
    alloc: Global,
    columns: u8,
    threads: u8,
    cells: &[Cell],
    text: &mut Vec<u8>,
) -> Result<(), AllocError>
    requires count { length cells.now ≡ columns * 16 }
    requires few { threads ≤ 16 }
    ensures { OnOk result (text.new.items ≡ text.old.items ++ shade_paths columns threads cells.now) }
{
    for shade in 1..10 {
        put_path(alloc, Mark::Stroke { shade }, columns, threads, cells, text)?;
    }
    Ok(())
}

/// Adds the legend.
fn put_legend(alloc: Global, threads: u8, text: &mut Vec<u8>) -> Result<(), AllocError>
    ensures { OnOk result (text.new.items
        ≡ text.old.items ++ flat_map (legend_line threads) (range_with_len 1 9) ++ tick_legend threads) }
{
    for shade in 1..10 {
        put_legend_line(alloc, threads, shade, text)?;
    }
    put_tick_legend(alloc, threads, text)
}

/// Adds the line of the legend on a shade.
fn put_legend_line(
    alloc: Global,
    threads: u8,
    shade: u8,
    text: &mut Vec<u8>,
) -> Result<(), AllocError>
    ensures { OnOk result (text.new.items ≡ text.old.items ++ legend_line threads shade) }
{
    let at = threads as u32 * 20 + shade as u32 * 16;
    let base = at + 4;
    let colour = colour_of(shade);
    let name = shade_text(shade);
    let line = format!(in alloc;
        "<path stroke=\"{colour}\" stroke-width=\"10\" d=\"M30 {at}h12\"/><text x=\"48\" y=\"{base}\">{name}</text>\n"
    )?;
    text.extend_from_slice(line.as_bytes())
}

/// Adds the line of the legend on ticks.
fn put_tick_legend(alloc: Global, threads: u8, text: &mut Vec<u8>) -> Result<(), AllocError>
    ensures { OnOk result (text.new.items ≡ text.old.items ++ tick_legend threads) }
{
    let top = threads as u32 * 20 + 155;
    let base = threads as u32 * 20 + 164;
    let line = format!(in alloc;
        "<path stroke=\"#000000\" d=\"M36 {top}v9\"/><text x=\"48\" y=\"{base}\">task switch</text>\n"
    )?;
    text.extend_from_slice(line.as_bytes())
}
