//! The layout of a pool on a page: rows of cells.
ghost use Rattle.std.specs.Prelude.{◌≡◌, ◌<◌, ◌≤◌, ◌+◌, ◌^◌};
ghost use Rattle.std.specs.Int.{div_ceil};
ghost use Rattle.cc_bounds.specs.Span.{length_of};
ghost use Rattle.cc_draw.specs.Drawing.{AreCellsOf, cell_width, end_cell, first_cell, layout_for, row_count};
ghost use Rattle.cc_draw.specs.Cells.{cell_bytes, cell_count};

use cc_bounds::Span;

/// The maximum number of cells of a drawing.
const MOST_CELLS: u32 = 16_384;

/// The number of cells of a full row.
pub(crate) const ROW: u32 = 1024;

/// The layout of a pool on a page: rows of 1,024 cells of the same size.
#[derive(Clone, Copy)]
pub struct Layout {
    /// The pool's first address.
    pub start: u128,
    /// The number of bytes that a cell represents.
    pub size: u128,
    /// The number of cells that cover the pool.
    pub cells: u32,
    /// The width of a cell in units of the drawing, from 1 to 1,024.
    pub width: u32,
}

impl Layout {
    /// Returns the layout of a pool.
    pub(crate) fn new(pool: &Span) -> Layout
        requires in_order { pool.now.base ≤ pool.now.top }
        requires fits { pool.now.top ≤ 2 ^ 64 }
        ensures layout { result ≡ layout_for pool.now }
        ensures start { result.start < 2 ^ 64 }
        ensures some { 0 < result.size }
        ensures size { result.size ≤ 2 ^ 50 }
        ensures cells { result.cells ≤ 16384 }
        ensures width { result.width ≤ 1024 }
    {
        let (size, cells) = cells_for(pool.len(), MOST_CELLS);
        Layout {
            start: u128::from(pool.base),
            size,
            cells,
            width: cell_width(cells),
        }
    }

    /// Returns the number of rows.
    pub(crate) fn rows(&self) -> u32
        requires { self.now.cells ≤ 16384 }
        ensures value { result ≡ row_count self.now }
        ensures few { result ≤ 16 }
    {
        self.cells.div_ceil(ROW)
    }
}

/// Returns the number of bytes of a cell, and the number of cells. The first is the smallest, at least
/// 1, with which `most` cells cover `bytes` bytes. The last cell may reach past their end.
///
/// Requires: `most > 0`.
pub(crate) fn cells_for(bytes: u128, most: u32) -> (u128, u32)
    requires { 0 < most }
    ensures size { result.0 ≡ cell_bytes most bytes }
    ensures count { result.1 ≡ cell_count most bytes }
    ensures few { result.1 ≤ most }
{
    let size = bytes.div_ceil(u128::from(most)).max(1);
    (size, bytes.div_ceil(size) as u32)
}

/// Returns the width of each cell in units of the drawing. The fewer cells there are, the wider
/// they are, so that a row has at most 1,024 units.
fn cell_width(cells: u32) -> u32
    ensures value { result ≡ cell_width cells }
    ensures fits { result ≤ 1024 }
{
    (ROW / cells.max(1)).max(1)
}

/// Returns the numbers of the first cell that holds a byte of a span, and of the cell after the
/// last one that does. Cells of `size` bytes follow one another from `start`, and are numbered from
/// 0.
///
/// For a span with bytes, none of them below `start`, exactly these cells hold a byte of it: from
/// the first number to before the second. A base or a top below `start` is treated as `start`.
///
/// Requires: `0 < size`.
pub fn cells_of(start: u128, size: u128, span: &Span) -> (u128, u128)
    requires { 0 < size }
    ensures first { result.0 ≡ first_cell start size span.now }
    ensures end { result.1 ≡ end_cell start size span.now }
    // For a span with bytes, none of them below `start`, exactly these cells hold a byte of it.
    ensures exactly { start ≤ span.now.base → span.now.base < span.now.top
        → AreCellsOf start size span.now result.0 result.1 }
{
    let first = u128::from(span.base).saturating_sub(start) / size;
    let end = span.top.saturating_sub(start).div_ceil(size);
    (first, end)
}
