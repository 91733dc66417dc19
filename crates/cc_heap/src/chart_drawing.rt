//! The SVG document of a chart.
ghost use Rattle.std.specs.Prelude.{◌≡◌, ◌≤◌, ◌+◌, ◌*◌, ◌^◌, ◌++◌, length, false, Err, OnErr};
ghost use Rattle.cc_io.specs.Devices.{SendsBytes};
ghost use Rattle.cc_heap.specs.ChartDrawing.{byte_label, byte_labels, byte_unit, chart_text, chart_counts_text};
ghost use Rattle.cc_heap.specs.ChartDrawing.{drawing_of, entry_text, event_label, event_labels, event_letter};
ghost use Rattle.cc_heap.specs.ChartDrawing.{caption_text, event_unit, labels_text, chart_legend_text, scaled_text};
ghost use Rattle.cc_heap.specs.Levels.{greatest_of};
ghost use Rattle.cc_heap.specs.Scale.{event_step, reach_of, right_to, scale_of, step_count, step_power};

use crate::axes::{event_step, power_of_two, reach_of, step_count, step_power};
use crate::chart::Chart;
use crate::curves::{Curve, push_curves, stroke};
use crate::levels::{Levels, greatest_of};
use crate::scale::Scale;
use cc_io::{
    IoError, Page, Sink, end_with_decimal, push_decimal, push_markup, push_opening, push_sheet,
    write_and_flush,
};

/// The maximum number of bytes of a drawing.
const MOST_DRAWING: usize = 98304;

/// Writes the drawing of a chart with a caption above it as an SVG document, and flushes the sink. The caption is
/// written as it is, so it must have no character that SVG escapes, such as `&` and `<`.
///
/// Requires: the sink has not failed; the caption has at most 192 bytes.
/// Errors: `Write` if the sink fails. A prefix of the drawing is then written.
pub fn write_chart<W: Sink>(chart: &Chart, caption: &[u8], sink: &mut W) -> Result<(), IoError>
    requires sink { (W.state sink.old).has_failed ≡ false }
    requires short { length caption.now ≤ 192 }
    ensures sends { SendsBytes (W.state sink.old) (W.state sink.new) (chart_text caption.now chart.now) result }
    ensures write { OnErr result (result ≡ Err IoError.Write) }
{
    let mut page: Page<MOST_DRAWING> = Page::new();
    let columns = chart.drawn_columns();
    push_drawing(
        &mut page,
        caption,
        chart.event_count(),
        chart.width(),
        columns.as_slice(),
    );
    write_and_flush(&page, sink)
}

/// Appends the drawing of columns of `width` events each.
fn push_drawing<const N: usize>(
    page: &mut Page<N>,
    caption: &[u8],
    events: u128,
    width: u64,
    columns: &[Levels],
)
    requires short { length caption.now ≤ 192 }
    requires few { length columns.now ≤ 256 }
    requires fits { events ≤ 2 ^ 73 }
    requires room { length page.old + 95300 ≤ N }
    ensures { page.new ≡ page.old ++ drawing_of caption.now events width columns.now }
{
    push_opening(
        page,
        b"width='800' height='440' viewBox='-1050 -700 8000 4400' font-family='sans-serif' font-size='120'",
    );
    push_markup(page, b"<title>The heap of a trace</title>\n");
    push_counts(page, events, width);
    push_sheet(page, b"x='-1050' y='-700' width='8000' height='4400'");
    push_scaled(page, events, width, columns);
    push_caption(page, caption);
    push_legend(page);
    push_markup(
        page,
        b"<path d='M0,0V3200H6400' fill='none' stroke='#000' stroke-width='16'/>\n",
    );
    push_markup(
        page,
        b"<text x='3200' y='3580' text-anchor='middle'>events</text>\n</svg>\n",
    );
}

/// Appends the caption.
fn push_caption<const N: usize>(page: &mut Page<N>, caption: &[u8])
    requires { length page.old + length caption.now + 32 ≤ N }
    ensures value { page.new ≡ page.old ++ caption_text caption.now }
    ensures fits { length page.new ≤ length page.old + length caption.now + 32 }
{
    page.push(b"<text x='0' y='-500'>");
    page.push(caption);
    page.push(b"</text>\n");
}

/// Appends the labels and the curves.
fn push_scaled<const N: usize>(page: &mut Page<N>, events: u128, width: u64, columns: &[Levels])
    requires few { length columns.now ≤ 256 }
    requires fits { events ≤ 2 ^ 73 }
    requires room { length page.old + 92000 ≤ N }
    ensures value { page.new ≡ page.old ++ scaled_text (scale_of (reach_of (greatest_of columns.now)) events width)
        (reach_of (greatest_of columns.now)) columns.now }
    ensures fits { length page.new ≤ length page.old + 92000 }
{
    let reach = reach_of(greatest_of(columns));
    let scale = Scale::new(reach, events, width);
    push_labels(page, &scale, reach);
    push_curves(page, &scale, columns);
}

/// Appends the number of events, and the number of events in a column.
fn push_counts<const N: usize>(page: &mut Page<N>, events: u128, width: u64)
    requires { length page.old + 200 ≤ N }
    ensures value { page.new ≡ page.old ++ chart_counts_text events width }
    ensures fits { length page.new ≤ length page.old + 200 }
{
    push_decimal(page, b"<desc>Events: ", events);
    end_with_decimal(page, b", in each column: ", u128::from(width), b"</desc>");
}

/// Appends the labels of both axes.
fn push_labels<const N: usize>(page: &mut Page<N>, scale: &Scale, reach: u128)
    requires reach { reach ≤ 2 ^ 64 }
    requires room { length page.old + 7100 ≤ N }
    ensures value { page.new ≡ page.old ++ labels_text scale.now reach }
    ensures fits { length page.new ≤ length page.old + 7100 }
{
    push_byte_labels(page, scale, step_power(reach), step_count(reach));
    let events = scale.events();
    let step = event_step(events);
    push_event_labels(page, scale, step, (events / step).min(10));
}

/// Appends the labels of the vertical axis.
#[tactic(auto, using(crate::proofs::LabelLemmas::one_more_byte_label))]
fn push_byte_labels<const N: usize>(page: &mut Page<N>, scale: &Scale, power: u32, steps: u128)
    requires power { power ≤ 64 }
    requires few { steps ≤ 8 }
    requires room { length page.old + 3150 ≤ N }
    ensures value { page.new ≡ page.old ++ byte_labels scale.now power steps }
    ensures fits { length page.new ≤ length page.old + 3150 }
{
    push_byte_label(page, power, scale.down_to(0), 0);
    let mut step = 0;
    'steps: while step < steps {
        step += 1;
        push_byte_label(page, power, scale.down_to(step * power_of_two(power)), step);
    }
}

/// Appends a line across the chart at a number of steps, with the bytes.
fn push_byte_label<const N: usize>(page: &mut Page<N>, power: u32, units: u128, step: u128)
    requires power { power ≤ 64 }
    requires few { step ≤ 8 }
    requires room { length page.old + 350 ≤ N }
    ensures value { page.new ≡ page.old ++ byte_label power units step }
    ensures fits { length page.new ≤ length page.old + 350 }
{
    end_with_decimal(
        page,
        b"<path d='M-60,",
        units,
        b"H6400' stroke='#bbb' stroke-width='8'/>",
    );
    push_decimal(page, b"<text x='-100' dy='42' text-anchor='end' y='", units);
    push_decimal(page, b"'>", step * power_of_two(power % 10));
    page.push(byte_unit(power / 10));
}

/// Returns the name of the unit of 2^(10 * thousands) bytes.
#[tactic(auto, unfolding(crate::specs::ChartDrawing::byte_unit))]
fn byte_unit(thousands: u32) -> &'static [u8]
    ensures value { result.now ≡ byte_unit thousands }
    ensures fits { length result.now ≤ 12 }
{
    match thousands {
        0 => b" B</text>\n",
        1 => b" KiB</text>\n",
        2 => b" MiB</text>\n",
        3 => b" GiB</text>\n",
        4 => b" TiB</text>\n",
        5 => b" PiB</text>\n",
        _ => b" EiB</text>\n",
    }
}

/// Appends the labels of the horizontal axis.
#[tactic(auto, using(crate::proofs::LabelLemmas::one_more_event_label))]
fn push_event_labels<const N: usize>(page: &mut Page<N>, scale: &Scale, step: u128, steps: u128)
    requires some { 1 ≤ step }
    requires fits { step ≤ 10 ^ 30 }
    requires few { steps ≤ 10 }
    requires room { length page.old + 3850 ≤ N }
    ensures value { page.new ≡ page.old ++ event_labels scale.now step steps }
    ensures fits { length page.new ≤ length page.old + 3850 }
{
    push_event_label(page, scale, step, 0);
    let mut count = 0;
    'steps: while count < steps {
        count += 1;
        push_event_label(page, scale, step, count * step);
    }
}

/// Appends a mark below the chart at an event, with its number.
fn push_event_label<const N: usize>(page: &mut Page<N>, scale: &Scale, step: u128, event: u128)
    requires { length page.old + 350 ≤ N }
    ensures value { page.new ≡ page.old ++ event_label scale.now step event }
    ensures fits { length page.new ≤ length page.old + 350 }
{
    let right = scale.right_to(event);
    end_with_decimal(
        page,
        b"<path d='M",
        right,
        b",3200v60' stroke='#000' stroke-width='16'/>",
    );
    push_decimal(page, b"<text y='3400' text-anchor='middle' x='", right);
    push_decimal(page, b"'>", event / event_unit(step));
    page.push(event_letter(step));
}

/// Returns the number of events that a label counts by.
fn event_unit(step: u128) -> u128
    ensures value { result ≡ event_unit step }
    ensures some { 1 ≤ result }
{
    if step < 1_000 {
        1
    } else if step < 1_000_000 {
        1_000
    } else if step < 1_000_000_000 {
        1_000_000
    } else {
        1_000_000_000
    }
}

/// Returns the letter of this number of events.
fn event_letter(step: u128) -> &'static [u8]
    ensures value { result.now ≡ event_letter step }
    ensures fits { length result.now ≤ 12 }
{
    if step < 1_000 {
        b"</text>\n"
    } else if step < 1_000_000 {
        b"k</text>\n"
    } else if step < 1_000_000_000 {
        b"M</text>\n"
    } else {
        b"G</text>\n"
    }
}

/// Appends the stroke of each curve and its name.
fn push_legend<const N: usize>(page: &mut Page<N>)
    requires { length page.old + 900 ≤ N }
    ensures value { page.new ≡ page.old ++ chart_legend_text }
    ensures fits { length page.new ≤ length page.old + 900 }
{
    push_entry(
        page,
        b"<path d='M0,-300h600",
        Curve::Live,
        b"<text x='660' y='-258'>live</text>\n",
    );
    push_entry(
        page,
        b"<path d='M1300,-300h600",
        Curve::Quarantine,
        b"<text x='1960' y='-258'>quarantined</text>\n",
    );
    push_entry(
        page,
        b"<path d='M3000,-300h600",
        Curve::Held,
        b"<text x='3660' y='-258'>held</text>\n",
    );
    push_entry(
        page,
        b"<path d='M4300,-300h600",
        Curve::High,
        b"<text x='4960' y='-258'>high-water mark</text>\n",
    );
}

/// Appends an entry of the legend.
#[tactic(auto, unfolding(crate::specs::ChartDrawing::entry_text))]
fn push_entry<const N: usize>(page: &mut Page<N>, before: &[u8], curve: Curve, after: &[u8])
    requires { length page.old + length before.now + length after.now + 100 ≤ N }
    ensures value { page.new ≡ page.old ++ entry_text before.now curve after.now }
    ensures fits { length page.new ≤ length page.old + length before.now + length after.now + 100 }
{
    page.push(before);
    page.push(stroke(curve));
    page.push(after);
}
