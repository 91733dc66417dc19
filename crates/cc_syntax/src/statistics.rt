//! The statistics of a run: a line for each number.
ghost use Rattle.std.specs.Prelude.{◌≡◌, ◌+◌, ◌*◌, ◌≤◌, ◌^◌, ◌++◌, [], Err, OnErr, false, length};
ghost use Rattle.cc_io.specs.Devices.{SendsBytes};
ghost use Rattle.cc_io.specs.Numbered.{line_with_decimal};
ghost use Rattle.cc_syntax.specs.Statistics.{
  byte_lines,
  count_lines,
  refusal_lines,
  highest_line,
  holes_text,
  hundredths_of,
  objects_text,
  padding_percent_line,
  statistics_text,
};

use crate::tally::{Count, Tally};
use cc_io::{
    IoError, Line, MOST_TEXT, Sink, Text, end_with_decimal, end_with_hexadecimal, write_and_flush,
};
use cc_values::Usage;

/// Writes the statistics of a run, a line for each number, and flushes the sink once after the last.
///
/// The statistics have the number of lines that got a reply. For each refusal they have the number of
/// replies that are it, and the number of the line that got the first. The other numbers say what
/// the machine uses. Setup operations are not counted as lines, and a refusal that one of them got
/// has the line 0.
///
/// Requires: the sink has not failed; at most 2^80 bytes are held, which
/// `usage_of` of cc_draw ensures.
/// Errors: `Write` if the sink fails. A prefix of the statistics is then written.
pub fn show_statistics<W: Sink>(usage: &Usage, tally: &Tally, sink: &mut W) -> Result<(), IoError>
    requires sink { (W.state sink.old).has_failed ≡ false }
    requires fits { usage.now.held ≤ 2 ^ 80 }
    ensures sends { SendsBytes (W.state sink.old) (W.state sink.new) (statistics_text usage.now tally.now) result }
    ensures write { OnErr result (result ≡ Err IoError.Write) }
{
    let mut text = Text::new();
    push_statistics(&mut text, usage, tally);
    write_and_flush(&text, sink)
}

/// Appends the statistics of a run.
///
/// Requires: `text` is empty.
fn push_statistics(text: &mut Text, usage: &Usage, tally: &Tally)
    requires empty { text.old ≡ [] }
    requires fits { usage.now.held ≤ 2 ^ 80 }
    ensures { text.new ≡ statistics_text usage.now tally.now }
{
    push_number(text, b"lines ", u128::from(tally.lines));
    push_counts(text, &tally.counts);
    push_objects(text, usage);
    push_bytes(text, usage);
    push_holes(text, usage);
}

/// Appends the line of a number after its name, which ends with a space.
fn push_number(text: &mut Text, name: &[u8], number: u128)
    requires name { length name.now ≤ 60 }
    requires room { length text.old + length name.now + 41 ≤ MOST_TEXT }
    ensures value { text.new ≡ text.old ++ line_with_decimal name.now number [] }
    ensures fits { length text.new ≤ length text.old + length name.now + 41 }
{
    end_with_decimal(text, name, number, b"");
}

/// Appends the counts of those refusals that were replies, in the order of their codes.
fn push_counts(text: &mut Text, counts: &[Count])
    requires few { length counts.now ≤ 22 }
    requires room { length text.old ≤ 100 }
    ensures value { text.new ≡ text.old ++ refusal_lines counts.now }
    ensures fits { length text.new ≤ 3180 }
{
    let mut rest = counts;
    'counts: while let Some((count, after)) = rest.split_first() {
        if count.times != 0 {
            push_count(text, count);
        }
        rest = after;
    }
}

/// Appends two lines of a refusal: the number of replies that are it, and the line of the script
/// that got the first.
fn push_count(text: &mut Text, count: &Count)
    requires { length text.old + 140 ≤ MOST_TEXT }
    ensures value { text.new ≡ text.old ++ count_lines count.now }
    ensures fits { length text.new ≤ length text.old + 140 }
{
    let name = count.refusal.name().as_bytes();
    let mut line = Line::new();
    line.push(b"refused.");
    line.push(name);
    line.push(b" ");
    line.push_decimal(u128::from(count.times));
    text.push_line(&line);
    line.clear();
    line.push(b"first.");
    line.push(name);
    line.push(b" ");
    line.push_decimal(u128::from(count.first));
    text.push_line(&line);
}

/// Appends the lines of the slots, of the limit, and of the objects by their states.
fn push_objects(text: &mut Text, usage: &Usage)
    requires { length text.old ≤ 3180 }
    ensures value { text.new ≡ text.old ++ objects_text usage.now }
    ensures fits { length text.new ≤ length text.old + 300 }
{
    push_number(text, b"slots ", u128::from(usage.slots));
    push_number(text, b"limit ", u128::from(usage.limit));
    push_number(text, b"made ", usage.made as u128);
    push_number(text, b"live ", usage.live as u128);
    push_number(text, b"quarantined ", usage.quarantined as u128);
    push_number(text, b"swept ", usage.swept as u128);
}

/// Appends the lines of the requested bytes, of the held bytes, and of the padding: held bytes
/// beyond the requested ones.
fn push_bytes(text: &mut Text, usage: &Usage)
    requires fits { usage.now.held ≤ 2 ^ 80 }
    requires room { length text.old ≤ 3480 }
    ensures value { text.new ≡ text.old ++ byte_lines usage.now }
    ensures fits { length text.new ≤ length text.old + 300 }
{
    let padding = usage.held.saturating_sub(usage.asked);
    push_number(text, b"asked ", usage.asked);
    push_number(text, b"held ", usage.held);
    push_number(text, b"padding ", padding);
    push_percent(text, hundredths_of(padding, usage.held));
}

/// Returns the part in hundredths of a percent of the whole, rounded down, or 0 if the whole is 0.
fn hundredths_of(part: u128, whole: u128) -> u128
    requires { part ≤ 2 ^ 80 }
    ensures { result ≡ hundredths_of part whole }
{
    if whole == 0 { 0 } else { part * 10_000 / whole }
}

/// Appends the line of the padding in percent of the held bytes, with two digits after the point.
#[tactic(auto, unfolding(crate::specs::Statistics::padding_percent_line))]
fn push_percent(text: &mut Text, hundredths: u128)
    requires { length text.old + 140 ≤ MOST_TEXT }
    ensures value { text.new ≡ text.old ++ padding_percent_line hundredths }
    ensures fits { length text.new ≤ length text.old + 140 }
{
    let mut line = Line::new();
    line.push(b"padding.percent ");
    line.push_decimal(hundredths / 100);
    line.push(b".");
    line.push_decimal(hundredths / 10 % 10);
    line.push_decimal(hundredths % 10);
    text.push_line(&line);
}

/// Appends the lines of the pool, of its free bytes, of its holes and of the highest byte that an
/// object had.
fn push_holes(text: &mut Text, usage: &Usage)
    requires { length text.old ≤ 3780 }
    ensures { text.new ≡ text.old ++ holes_text usage.now }
{
    push_number(text, b"pool ", usage.pool);
    push_number(text, b"free ", usage.pool.saturating_sub(usage.held));
    push_number(text, b"holes ", usage.holes as u128);
    push_number(text, b"largest ", usage.largest);
    push_end(text, usage.end);
}

/// Appends the line of the last byte below `end`, or of `none` if `end` is 0.
fn push_end(text: &mut Text, end: u128)
    requires { length text.old + 60 ≤ MOST_TEXT }
    ensures { text.new ≡ text.old ++ highest_line end }
{
    if end == 0 {
        text.push(b"highest none\n");
    } else {
        end_with_hexadecimal(text, b"highest ", end - 1, b"");
    }
}
