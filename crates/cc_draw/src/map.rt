//! A map of a pool: a mark for each cell, which says what holds its bytes.
ghost use Rattle.std.specs.Prelude.{◌≡◌, ◌<◌, ◌≤◌, ◌+◌, ◌^◌, ◌++◌, ◌↔◌, ℕ, List, [], false, true, IfOk, IsErr};
ghost use Rattle.std.specs.Prelude.{IsTrue, OnErr, OnOk, length};
ghost use Rattle.std.specs.Int.{div_ceil};
ghost use Rattle.cc_io.specs.CommandOutput.{WritesAnswer};
ghost use Rattle.cc_draw.specs.Map.{AreMapRows, HoldsByte, IsMap, IsMapOf, IsMapRow, TellsCell, map_row_text};
ghost use Rattle.cc_bounds.specs.Span.{SharesByte};

use crate::layout::cells_for;
use crate::usage::pool_span;
use cc_bounds::Span;
use cc_io::{IoError, Line, MOST_TEXT, Sink, Summary, Text, end_with_hexadecimal, write_and_flush};
use cc_placer::Placer;
use cc_plan::{ObjectState, PlannedObject, Planner};

/// The maximum number of cells of a map.
const MOST_CELLS: u32 = 1024;

/// The number of cells in a row.
const CELLS: usize = 64;

/// The bytes of a cell, which can lie above the address space.
#[derive(Clone, Copy)]
struct Cell {
    first: u128,
    end: u128,
}

/// Writes a map of the planner's pool, and flushes the sink once after it.
///
/// The map is a line with the size of a cell, and then at most 16 rows of up to 64 cells. Each row
/// begins with the address of its first cell. At most 1,024 cells, as small as that allows, cover
/// the pool, with the marks of [`map_row`]. The last cell may reach past the pool's top. Without a
/// pool there is no row.
///
/// Requires: the sink has not failed.
/// Errors: `Write` if and only if the sink fails. A prefix of the map is then written.
pub fn show_map<P: Placer, W: Sink>(planner: &Planner<P>, sink: &mut W) -> Result<Summary, IoError>
    requires { (W.state sink.old).has_failed ≡ false }
    ensures shown { WritesAnswer (IsMap planner.now) (W.state sink.old) (W.state sink.new) result }
    ensures any_error { IfOk result (λ summary. summary.any_error ≡ false) }
{
    let mut text = Text::new();
    push_map(&mut text, planner.objects(), &pool_span(planner.pool()));
    write_and_flush(&text, sink)?;
    Ok(Summary { any_error: false })
}

/// Appends the map of these objects in this pool.
///
/// Requires: `text` is empty.
fn push_map(text: &mut Text, objects: &[PlannedObject], pool: &Span)
    requires empty { text.old ≡ [] }
    requires in_order { pool.now.base ≤ pool.now.top }
    requires fits { pool.now.top ≤ 2 ^ 64 }
    ensures { IsMapOf objects.now pool.now text.new }
{
    let (size, cells) = cells_for(pool.len(), MOST_CELLS);
    end_with_hexadecimal(
        text,
        b"cells of ",
        size,
        b" bytes: # live, ~ quarantined, * both, . free",
    );
    push_rows(text, objects, u128::from(pool.base), size, cells as usize);
}

/// Appends the rows of these cells, which follow one another from `start`.
fn push_rows(text: &mut Text, objects: &[PlannedObject], start: u128, size: u128, cells: usize)
    requires start { start ≤ 2 ^ 64 }
    requires size { size ≤ 2 ^ 54 }
    requires cells { cells ≤ 1024 }
    requires room { length text.old ≤ 200 }
    ensures { (rows : List ℕ) × AreMapRows objects.now size (div_ceil cells 64) start cells rows
        × (text.new ≡ text.old ++ rows) }
{
    let mut first = start;
    let mut left = cells;
    let mut rows_left = cells.div_ceil(CELLS);
    'rows: while rows_left > 0 {
        let row = map_row(objects, first, size);
        push_row(text, first, &row[..left.min(CELLS)]);
        first += 64 * size;
        left = left.saturating_sub(CELLS);
        rows_left -= 1;
    }
}

/// Appends a row: the address of its first cell, and the marks of its cells.
fn push_row(text: &mut Text, start: u128, cells: &[u8])
    requires cells { length cells.now ≤ 64 }
    requires room { length text.old + 120 ≤ MOST_TEXT }
    ensures value { text.new ≡ text.old ++ map_row_text start cells.now }
    ensures fits { length text.new ≤ length text.old + 120 }
{
    let mut line = Line::new();
    line.push_hexadecimal(start);
    line.push(b" ");
    line.push(cells);
    text.push_line(&line);
}

/// Returns the marks of 64 cells of `size` bytes, which follow one another from the address
/// `start`.
///
/// The mark of a cell is:
///
/// - `#` if some of its bytes are live and none is quarantined
/// - `~` if some are quarantined and none is live
/// - `*` if some are live and some are quarantined
/// - `.` if no live or quarantined object holds a byte of it
///
/// Requires: `start < 2^66`; `size < 2^66`.
pub fn map_row(objects: &[PlannedObject], start: u128, size: u128) -> [u8; 64]
    requires start { start < 2 ^ 66 }
    requires size { size < 2 ^ 66 }
    ensures { IsMapRow objects.now start size result }
{
    let mut row = [b'.'; CELLS];
    for index in 0..CELLS {
        let first = start + index as u128 * size;
        let cell = Cell {
            first,
            end: first + size,
        };
        row[index] = mark_of(objects, &cell);
    }
    row
}

/// Returns the mark of a cell, one of those that [`map_row`] lists.
fn mark_of(objects: &[PlannedObject], cell: &Cell) -> u8
    ensures { TellsCell objects.now (record { base = cell.now.first; top = cell.now.end }) result }
{
    let live = holds_byte(objects, ObjectState::Live, cell);
    let quarantined = holds_byte(objects, ObjectState::Freed, cell);
    match (live, quarantined) {
        (true, false) => b'#',
        (false, true) => b'~',
        (true, true) => b'*',
        (false, false) => b'.',
    }
}

/// Returns whether the cell has a byte of an object in this state.
fn holds_byte(objects: &[PlannedObject], state: ObjectState, cell: &Cell) -> bool
    ensures { IsTrue result ↔ HoldsByte objects.now state (record { base = cell.now.first; top = cell.now.end }) }
{
    for object in objects {
        if object.state() == state && shares_byte(&object.span(), cell) {
            return true;
        }
    }
    false
}

/// Returns whether some byte of the span is in the cell.
fn shares_byte(span: &Span, cell: &Cell) -> bool
    ensures { IsTrue result ↔ SharesByte span.now (record { base = cell.now.first; top = cell.now.end }) }
{
    u128::from(span.base).max(cell.first) < span.top.min(cell.end)
}
