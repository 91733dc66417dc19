//! A drawing of a pool: an SVG document with a rectangle for each held object.
ghost use Rattle.std.specs.Prelude.{◌≡◌, ◌<◌, ◌≤◌, ◌+◌, ◌-◌, ◌*◌, ◌^◌, ◌++◌, [], Err, false, IfOk, OnErr, length, min};
ghost use Rattle.cc_io.specs.CommandOutput.{WritesAnswer};
ghost use Rattle.cc_io.specs.Devices.{SendsBytes, WritesBytes};
ghost use Rattle.cc_draw.specs.Drawing.{IsDrawing, bounds_line, drawing_text, ground_text, head_text};
ghost use Rattle.cc_draw.specs.Drawing.{key_text, laid_out_text, layer_text, layout_for, mark_count, mark_text};
ghost use Rattle.cc_draw.specs.Drawing.{marks_text, object_text, rectangle_text, row_count, rows_text, start_text};

use crate::layout::{Layout, ROW, cells_of};
use crate::usage::pool_span;
use cc_bounds::Span;
use cc_io::{
    Failed, IoError, Line, Page, Sink, Summary, end_with_decimal, end_with_hexadecimal, make_room,
    push_decimal, push_hexadecimal, push_markup, write_all, write_and_flush,
};
use cc_placer::Placer;
use cc_plan::{ObjectState, PlannedObject, Planner};

/// The maximum length in bytes of a part of a drawing that is written at once.
const MOST_PART: usize = 8192;

/// The maximum length in bytes of the rectangles of an object: one of at most 300 bytes in each of at most 16 rows.
const MOST_OBJECT: usize = 4800;

/// Writes a drawing of the planner's pool, and flushes the sink once after it.
///
/// The drawing is an SVG document with a rectangle for each held object. The rectangle covers the
/// cells from the first to the last that [`cells_of`] returns. These are exactly the cells that
/// hold a byte of the object, if the object lies in the pool. The rectangle is filled if the object
/// is live, and striped if it is quarantined.
///
/// At most 16,384 cells, as small as that allows, cover the pool in at most 16 rows. An object with
/// cells in several rows has a rectangle in each. If a live and a quarantined object share a cell,
/// the stripes lie above, and the live one is seen between them. Without a pool there is no row.
/// Allocates nothing.
///
/// Requires: the sink has not failed.
/// Errors: `Write` if and only if the sink fails. A prefix of the drawing is then written.
pub fn show_drawing<P: Placer, W: Sink>(
    planner: &Planner<P>,
    sink: &mut W,
) -> Result<Summary, IoError>
    requires { (W.state sink.old).has_failed ≡ false }
    ensures shown { WritesAnswer (IsDrawing planner.now) (W.state sink.old) (W.state sink.new) result }
    ensures any_error { IfOk result (λ summary. summary.any_error ≡ false) }
{
    send_drawing(planner.objects(), &pool_span(planner.pool()), sink)?;
    Ok(Summary { any_error: false })
}

/// Writes the drawing of these objects in this pool, and flushes the sink.
fn send_drawing<W: Sink>(
    objects: &[PlannedObject],
    pool: &Span,
    sink: &mut W,
) -> Result<(), IoError>
    requires sink { (W.state sink.old).has_failed ≡ false }
    requires few { length objects.now ≤ 65536 }
    requires in_order { pool.now.base ≤ pool.now.top }
    requires fits { pool.now.top ≤ 2 ^ 64 }
    ensures sends { SendsBytes (W.state sink.old) (W.state sink.new) (drawing_text objects.now pool.now) result }
    ensures write { OnErr result (result ≡ Err IoError.Write) }
{
    send_laid_out(&Layout::new(pool), objects, pool, sink)
}

/// Writes the drawing by this layout, and flushes the sink.
fn send_laid_out<W: Sink>(
    layout: &Layout,
    objects: &[PlannedObject],
    pool: &Span,
    sink: &mut W,
) -> Result<(), IoError>
    requires sink { (W.state sink.old).has_failed ≡ false }
    requires few { length objects.now ≤ 65536 }
    requires start { layout.now.start < 2 ^ 64 }
    requires some { 0 < layout.now.size }
    requires size { layout.now.size ≤ 2 ^ 50 }
    requires cells { layout.now.cells ≤ 16384 }
    requires width { layout.now.width ≤ 1024 }
    ensures sends { SendsBytes (W.state sink.old) (W.state sink.new) (laid_out_text layout.now objects.now pool.now)
        result }
    ensures write { OnErr result (result ≡ Err IoError.Write) }
{
    let mut start: Page<MOST_PART> = Page::new();
    push_start(&mut start, layout, pool);
    match write_layer(layout, ObjectState::Live, start.bytes(), objects, sink) {
        Ok(()) => {}
        Err(Failed) => return Err(IoError::Write),
    }
    let mut between = Line::new();
    push_markup(
        &mut between,
        b"</g>\n<g fill='url(#stripes)' stroke='#e69f00' stroke-width='.4'>\n",
    );
    match write_layer(layout, ObjectState::Freed, between.bytes(), objects, sink) {
        Ok(()) => {}
        Err(Failed) => return Err(IoError::Write),
    }
    let mut end = Line::new();
    push_markup(&mut end, b"</g>\n</g>\n</svg>\n");
    write_and_flush(&end, sink)
}

/// Appends the bytes before the live objects: the head, the scale, and the start of their layer.
///
/// Requires: `page` is empty.
fn push_start(page: &mut Page<MOST_PART>, layout: &Layout, pool: &Span)
    requires empty { page.old ≡ [] }
    requires start { layout.now.start < 2 ^ 64 }
    requires size { layout.now.size ≤ 2 ^ 50 }
    requires cells { layout.now.cells ≤ 16384 }
    requires width { layout.now.width ≤ 1024 }
    ensures { page.new ≡ start_text layout.now pool.now }
{
    push_head(page, layout, pool);
    push_marks(page, layout);
    push_rows(page, layout);
    push_markup(
        page,
        b"<g fill='#0072b2' stroke='#fff' stroke-width='.4'>\n",
    );
}

/// Appends the head: the document's size, its title, and a key of the fills.
fn push_head(page: &mut Page<MOST_PART>, layout: &Layout, pool: &Span)
    requires empty { page.old ≡ [] }
    requires cells { layout.now.cells ≤ 16384 }
    ensures value { page.new ≡ head_text layout.now pool.now }
    ensures fits { length page.new ≤ 1700 }
{
    end_with_decimal(
        page,
        b"<svg xmlns='http://www.w3.org/2000/svg' viewBox='0 0 1200 ",
        u128::from(112 + 32 * layout.rows()),
        b"' font-family='monospace' font-size='12'>",
    );
    push_bounds(page, b"<title>Pool from ", pool, b"</title>");
    end_with_hexadecimal(
        page,
        b"<desc>Cells of ",
        layout.size,
        b" bytes: solid live, striped quarantined, blank free.</desc>",
    );
    push_markup(
        page,
        b"<defs><pattern id='stripes' width='8' height='6' patternUnits='userSpaceOnUse'>\n\
          <rect width='8' height='3' fill='#e69f00'/></pattern></defs>\n",
    );
    push_bounds(
        page,
        b"<text x='152' y='28' font-size='18'>Pool from ",
        pool,
        b"</text>",
    );
    push_key(page);
    push_markup(page, b"<g transform='translate(152,96)'>\n");
}

/// Appends a line with the pool's base and top between `before` and `after`.
fn push_bounds(page: &mut Page<MOST_PART>, before: &[u8], pool: &Span, after: &[u8])
    requires before { length before.now ≤ 60 }
    requires after { length after.now ≤ 60 }
    requires room { length page.old + 240 ≤ MOST_PART }
    ensures value { page.new ≡ page.old ++ bounds_line before.now pool.now after.now }
    ensures fits { length page.new ≤ length page.old + 240 }
{
    push_hexadecimal(page, before, u128::from(pool.base));
    end_with_hexadecimal(page, b" to ", pool.top, after);
}

/// Appends the key: three samples, and their names.
fn push_key(page: &mut Page<MOST_PART>)
    requires { length page.old + 400 ≤ MOST_PART }
    ensures value { page.new ≡ page.old ++ key_text }
    ensures fits { length page.new ≤ length page.old + 400 }
{
    push_markup(
        page,
        b"<g stroke='#000' stroke-width='.5'>\n<rect x='152' y='44' width='24' height='16' fill='#0072b2'/>\n",
    );
    push_markup(
        page,
        b"<rect x='272' y='44' width='24' height='16' fill='url(#stripes)'/>\n\
          <rect x='432' y='44' width='24' height='16' fill='#fff'/>\n</g>\n",
    );
    push_markup(
        page,
        b"<text y='56'><tspan x='182'>live</tspan>\
          <tspan x='302'>quarantined</tspan><tspan x='462'>free</tspan></text>\n",
    );
}

/// Appends the marks above the first row: four, or one for each cell if there are fewer.
fn push_marks(page: &mut Page<MOST_PART>, layout: &Layout)
    requires room { length page.old ≤ 1700 }
    requires size { layout.now.size ≤ 2 ^ 50 }
    requires width { layout.now.width ≤ 1024 }
    ensures value { page.new ≡ page.old ++ marks_text layout.now (mark_count layout.now) }
    ensures fits { length page.new ≤ length page.old + 800 }
{
    let marks = layout.cells.min(4);
    for mark in 0..marks {
        push_mark(page, layout, layout.cells.min(ROW) * mark / marks);
    }
}

/// Appends the mark above a cell of the first row, with the number of bytes before it in the row.
fn push_mark(page: &mut Page<MOST_PART>, layout: &Layout, cell: u32)
    requires room { length page.old + 193 ≤ MOST_PART }
    requires cell { cell ≤ 1024 }
    requires size { layout.now.size ≤ 2 ^ 50 }
    requires width { layout.now.width ≤ 1024 }
    ensures value { page.new ≡ page.old ++ mark_text layout.now cell }
    ensures fits { length page.new ≤ length page.old + 193 }
{
    push_decimal(
        page,
        b"<g transform='translate(",
        u128::from(cell * layout.width),
    );
    end_with_hexadecimal(
        page,
        b")'><path d='M0,-14V0' stroke='#000'/><text x='3' y='-5'>+",
        u128::from(cell) * layout.size,
        b"</text></g>",
    );
}

/// Appends the grounds of all rows, each next to its first address.
fn push_rows(page: &mut Page<MOST_PART>, layout: &Layout)
    requires room { length page.old ≤ 2500 }
    requires start { layout.now.start < 2 ^ 64 }
    requires size { layout.now.size ≤ 2 ^ 50 }
    requires cells { layout.now.cells ≤ 16384 }
    requires width { layout.now.width ≤ 1024 }
    ensures value { page.new ≡ page.old ++ rows_text layout.now (row_count layout.now) }
    ensures fits { length page.new ≤ 6700 }
{
    for row in 0..layout.rows() {
        let cells = layout.cells.saturating_sub(1024 * row).min(ROW);
        let address = layout.start + u128::from(1024 * row) * layout.size;
        push_row(page, layout.width, 32 * row, cells, address);
    }
}

/// Appends the ground of one row. `y` is its height on the page, and `address` the address of its
/// first cell.
fn push_row(page: &mut Page<MOST_PART>, width: u32, y: u32, cells: u32, address: u128)
    requires room { length page.old + 260 ≤ MOST_PART }
    requires y { y ≤ 512 }
    requires cells { cells ≤ 1024 }
    requires width { width ≤ 1024 }
    ensures value { page.new ≡ page.old ++ ground_text width y cells address }
    ensures fits { length page.new ≤ length page.old + 260 }
{
    push_decimal(page, b"<rect y='", u128::from(y));
    push_decimal(page, b"' width='", u128::from(cells * width));
    push_decimal(
        page,
        b"' height='24' fill='#fff' stroke='#000'/><text x='-8' y='",
        u128::from(y + 16),
    );
    end_with_hexadecimal(page, b"' text-anchor='end'>", address, b"</text>");
}

/// Writes bytes, and then the rectangles of the objects in this state.
fn write_layer<W: Sink>(
    layout: &Layout,
    state: ObjectState,
    before: &[u8],
    objects: &[PlannedObject],
    sink: &mut W,
) -> Result<(), Failed>
    requires sink { (W.state sink.old).has_failed ≡ false }
    requires few { length objects.now ≤ 65536 }
    requires some { 0 < layout.now.size }
    requires cells { layout.now.cells ≤ 16384 }
    requires width { layout.now.width ≤ 1024 }
    ensures { WritesBytes (W.state sink.old) (W.state sink.new)
        (before.now ++ layer_text layout.now state 1 objects.now) result }
{
    match write_all(sink, before) {
        Ok(()) => {}
        Err(Failed) => return Err(Failed),
    }
    write_objects(layout, state, objects, sink)
}

/// Writes the rectangles of the objects in this state.
fn write_objects<W: Sink>(
    layout: &Layout,
    state: ObjectState,
    objects: &[PlannedObject],
    sink: &mut W,
) -> Result<(), Failed>
    requires sink { (W.state sink.old).has_failed ≡ false }
    requires few { length objects.now ≤ 65536 }
    requires some { 0 < layout.now.size }
    requires cells { layout.now.cells ≤ 16384 }
    requires width { layout.now.width ≤ 1024 }
    ensures { WritesBytes (W.state sink.old) (W.state sink.new) (layer_text layout.now state 1 objects.now) result }
{
    let mut page: Page<MOST_PART> = Page::new();
    let mut number = 1;
    let mut rest = objects;
    'objects: while let Some((object, after)) = rest.split_first() {
        match make_room(MOST_OBJECT, &mut page, sink) {
            Ok(()) => {}
            Err(Failed) => return Err(Failed),
        }
        if object.state() == state {
            push_object(&mut page, layout, number, &object.span());
        }
        number += 1;
        rest = after;
    }
    write_all(sink, page.bytes())
}

/// Appends the rectangles of an object: one in each row that has a cell of it.
fn push_object(page: &mut Page<MOST_PART>, layout: &Layout, number: u32, span: &Span)
    requires room { length page.old + MOST_OBJECT ≤ MOST_PART }
    requires some { 0 < layout.now.size }
    requires cells { layout.now.cells ≤ 16384 }
    requires width { layout.now.width ≤ 1024 }
    ensures value { page.new ≡ page.old ++ object_text layout.now number span.now }
    ensures fits { length page.new ≤ length page.old + MOST_OBJECT }
{
    let (first, end) = cells_of(layout.start, layout.size, span);
    let mut row = 0;
    let mut rows_left = layout.rows();
    'rows: while rows_left > 0 {
        let left = u128::from(1024 * row);
        let from = first.max(left);
        let to = end.min(left + 1024);
        if from < to {
            push_rectangle(page, layout.width, row, from, to, number, span);
        }
        row += 1;
        rows_left -= 1;
    }
}

/// Appends the rectangle over the cells of one row from `from` to before `to`.
fn push_rectangle(
    page: &mut Page<MOST_PART>,
    width: u32,
    row: u32,
    from: u128,
    to: u128,
    number: u32,
    span: &Span,
)
    requires room { length page.old + 300 ≤ MOST_PART }
    requires width { width ≤ 1024 }
    requires row { row < 16 }
    requires left { 1024 * row ≤ from }
    requires some { from < to }
    requires right { to ≤ 1024 * row + 1024 }
    ensures value { page.new ≡ page.old ++ rectangle_text width row from to number span.now }
    ensures fits { length page.new ≤ length page.old + 300 }
{
    let unit = u128::from(width);
    push_decimal(page, b"<rect x='", (from - u128::from(1024 * row)) * unit);
    push_decimal(page, b"' y='", u128::from(32 * row));
    push_decimal(page, b"' width='", (to - from) * unit);
    push_decimal(page, b"' height='24'><title>object ", u128::from(number));
    push_hexadecimal(page, b": ", u128::from(span.base));
    end_with_hexadecimal(page, b"-", span.top, b"</title></rect>");
}
