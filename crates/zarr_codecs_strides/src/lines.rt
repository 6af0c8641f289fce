//! Lines of elements, column by column.
ghost use Rattle.std.specs.Prelude.{◌≡◌, ℕ, List, ◌+◌, ◌*◌, ◌<◌, ◌≤◌, ◌++◌, length, flat_map, OnOk};
ghost use Rattle.std.specs.List.{range_with_len};
ghost use Rattle.zarr_codecs_strides.specs.Strides.{column_of, eight_of};

use std::alloc::AllocError;

/// Lines of elements of a width, one after another, so many elements each.
#[derive(Clone, Copy)]
pub(crate) struct Lines<'a> {
    pub bytes: &'a [u8],
    pub width: usize,
    pub edge: usize,
    pub count: usize,
}

/// Appends the elements of the lines, column by column.
pub(crate) fn push_columns(out: &mut Vec<u8>, lines: Lines<'_>) -> Result<(), AllocError>
    requires some { 0 < lines.width }
    requires whole { lines.count * (lines.edge * lines.width) ≡ length lines.bytes.now }
    ensures { OnOk result (out.new.items ≡ out.old.items
        ++ flat_map (column_of lines.entry.width lines.entry.bytes.now lines.entry.edge
        lines.entry.count) (range_with_len 0 lines.entry.edge)) }
{
    for column in 0..lines.edge {
        push_column(out, lines, column)?;
    }
    Ok(())
}

/// Appends the elements of a column. The usual widths are told apart, since to copy so many bytes
/// as is known before is one step of the machine.
fn push_column(out: &mut Vec<u8>, lines: Lines<'_>, column: usize) -> Result<(), AllocError>
    requires some { 0 < lines.width }
    requires whole { lines.count * (lines.edge * lines.width) ≡ length lines.bytes.now }
    requires within { column < lines.edge }
    ensures { OnOk result (out.new.items ≡ out.old.items
        ++ column_of lines.entry.width lines.entry.bytes.now lines.entry.edge lines.entry.count
        column) }
{
    match lines.width {
        1 => push_cells::<1>(out, lines, column),
        2 => push_cells::<2>(out, lines, column),
        4 => push_cells::<4>(out, lines, column),
        8 => push_cells::<8>(out, lines, column),
        _ => push_lines(out, lines, column, 0),
    }
}

/// Appends the elements of a column, which have W bytes, eight at a time.
fn push_cells<const W: usize>(
    out: &mut Vec<u8>,
    lines: Lines<'_>,
    column: usize,
) -> Result<(), AllocError>
    requires some { 0 < W }
    requires small { W ≤ 8 }
    requires width { lines.width ≡ W }
    requires whole { lines.count * (lines.edge * lines.width) ≡ length lines.bytes.now }
    requires within { column < lines.edge }
    ensures { OnOk result (out.new.items ≡ out.old.items
        ++ column_of lines.entry.width lines.entry.bytes.now lines.entry.edge lines.entry.count
        column) }
{
    let (cells, _) = lines.bytes.as_chunks::<W>();
    let eights = lines.count / 8;
    for eight in 0..eights {
        push_eight(out, cells, 8 * eight * lines.edge + column, lines.edge)?;
    }
    push_lines(out, lines, column, 8 * eights)
}

/// Appends eight elements, the first of which has a number, and each other one stands so many
/// elements after the one before it.
fn push_eight<const W: usize>(
    out: &mut Vec<u8>,
    cells: &[[u8; W]],
    first: usize,
    step: usize,
) -> Result<(), AllocError>
    requires small { W ≤ 8 }
    requires inside { first + 7 * step < length cells.now }
    ensures { OnOk result (out.new.items ≡ out.old.items ++ eight_of cells.now first step) }
{
    let eight = [
        cells[first],
        cells[first + step],
        cells[first + 2 * step],
        cells[first + 3 * step],
        cells[first + 4 * step],
        cells[first + 5 * step],
        cells[first + 6 * step],
        cells[first + 7 * step],
    ];
    out.extend_from_slice(eight.as_flattened())
}

/// Appends the elements of a column from a line on, behind those of the lines before it.
fn push_lines(
    out: &mut Vec<u8>,
    lines: Lines<'_>,
    column: usize,
    first: usize,
) -> Result<(), AllocError>
    requires some { 0 < lines.width }
    requires whole { lines.count * (lines.edge * lines.width) ≡ length lines.bytes.now }
    requires within { column < lines.edge }
    requires line { first ≤ lines.count }
    ensures { (before : List ℕ) → out.old.items ≡ before ++ column_of lines.entry.width
        lines.entry.bytes.now lines.entry.edge first column → OnOk result (out.new.items ≡ before
        ++ column_of lines.entry.width lines.entry.bytes.now lines.entry.edge lines.entry.count
        column) }
{
    for line in first..lines.count {
        let start = (line * lines.edge + column) * lines.width;
        out.extend_from_slice(&lines.bytes[start..start + lines.width])?;
    }
    Ok(())
}
