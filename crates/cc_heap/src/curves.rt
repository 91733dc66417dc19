//! The curves of a chart.
ghost use Rattle.std.specs.Prelude.{◌≡◌, ◌<◌, ◌≤◌, ◌+◌, ◌*◌, ◌++◌, codes, length};
ghost use Rattle.cc_io.specs.Numbered.{with_decimal};
ghost use Rattle.cc_heap.specs.Scale.{down_to, right_to};
ghost use Rattle.cc_heap.specs.ChartDrawing.{bytes_of, curve_text, curves_text, steps_text, stroke_text};

use crate::levels::Levels;
use crate::scale::Scale;
use cc_io::{Page, push_decimal};

/// A curve of a chart.
#[derive(Clone, Copy)]
pub enum Curve {
    /// The bytes of live objects.
    Live,
    /// The quarantined bytes.
    Quarantine,
    /// The held bytes.
    Held,
    /// The high-water mark.
    High,
}

impl Curve {
    /// Returns the bytes of the curve.
    fn bytes_of(self, levels: &Levels) -> u128
        ensures { result ≡ bytes_of self levels.now }
    {
        match self {
            Curve::Live => levels.live,
            Curve::Quarantine => levels.quarantine,
            Curve::Held => levels.held,
            Curve::High => levels.high,
        }
    }
}

/// Returns the stroke of a curve, and the end of its element.
#[tactic(auto, unfolding(crate::specs::ChartDrawing::stroke_text))]
pub(crate) fn stroke(curve: Curve) -> &'static [u8]
    ensures value { result.now ≡ stroke_text curve }
    ensures fits { length result.now ≤ 100 }
{
    match curve {
        Curve::Live => b"' fill='none' stroke='#0072b2' stroke-width='30'/>\n",
        Curve::Quarantine => {
            b"' fill='none' stroke='#d55e00' stroke-width='26' stroke-dasharray='30 30'/>\n"
        }
        Curve::Held => {
            b"' fill='none' stroke='#000' stroke-width='22' stroke-dasharray='110 45'/>\n"
        }
        Curve::High => {
            b"' fill='none' stroke='#009e73' stroke-width='22' stroke-dasharray='150 40 30 40'/>\n"
        }
    }
}

/// Appends the four curves.
pub(crate) fn push_curves<const N: usize>(page: &mut Page<N>, scale: &Scale, columns: &[Levels])
    requires few { length columns.now ≤ 256 }
    requires room { length page.old + 84900 ≤ N }
    ensures value { page.new ≡ page.old ++ curves_text scale.now columns.now }
    ensures fits { length page.new ≤ length page.old + 84900 }
{
    push_curve(page, Curve::High, scale, columns);
    push_curve(page, Curve::Held, scale, columns);
    push_curve(page, Curve::Quarantine, scale, columns);
    push_curve(page, Curve::Live, scale, columns);
}

/// Appends a curve.
fn push_curve<const N: usize>(page: &mut Page<N>, curve: Curve, scale: &Scale, columns: &[Levels])
    requires few { length columns.now ≤ 256 }
    requires room { length page.old + 21200 ≤ N }
    ensures value { page.new ≡ page.old ++ curve_text curve scale.now columns.now }
    ensures fits { length page.new ≤ length page.old + 21200 }
{
    page.push(b"<path d='M0,3200");
    push_steps(page, curve, scale, columns);
    page.push(stroke(curve));
}

/// Appends the steps of a curve.
fn push_steps<const N: usize>(page: &mut Page<N>, curve: Curve, scale: &Scale, columns: &[Levels])
    requires few { length columns.now ≤ 256 }
    requires room { length page.old + 82 * length columns.now ≤ N }
    ensures value { page.new ≡ page.old ++ steps_text curve scale.now 0 columns.now }
    ensures fits { length page.new ≤ length page.old + 82 * length columns.now }
{
    let mut column: u64 = 0;
    let mut rest = columns;
    'columns: while let Some((levels, after)) = rest.split_first() {
        push_step(page, curve, scale, column, levels);
        column += 1;
        rest = after;
    }
}

/// Appends the step of a column.
fn push_step<const N: usize>(
    page: &mut Page<N>,
    curve: Curve,
    scale: &Scale,
    column: u64,
    levels: &Levels,
)
    requires few { column < 256 }
    requires room { length page.old + 82 ≤ N }
    ensures value { page.new ≡ page.old ++ (with_decimal (codes "V") (down_to scale.now (bytes_of curve levels.now))
        ++ with_decimal (codes "H") (right_to scale.now ((column + 1) * scale.now.width))) }
    ensures fits { length page.new ≤ length page.old + 82 }
{
    push_decimal(page, b"V", scale.down_to(curve.bytes_of(levels)));
    push_decimal(page, b"H", scale.right_to(scale.last_event(column)));
}
