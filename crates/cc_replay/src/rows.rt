//! Tables of names and values, and their text in each format.
ghost use Rattle.std.specs.Prelude.{◌≡◌, ◌≤◌, ◌+◌, ◌*◌, ◌%◌, ◌++◌, decimal, length};
ghost use Rattle.cc_replay.specs.Rows.{between_rows, item_text, items_text, json_key};
ghost use Rattle.cc_replay.specs.Rows.{member_text, more_items, names_line, parts_of};
ghost use Rattle.cc_replay.specs.Rows.{percent_text, reason_text, row_text, table_rows};
ghost use Rattle.cc_replay.specs.Rows.{separator_of, table_end, table_heading, table_text, value_text, values_line};

use crate::SampleReason;
use crate::policy_text::push_policy;
use crate::table::{Format, Part, Row, Value};
use cc_io::{Line, Page};

/// The maximum part of a percentage.
const MOST_PART: u128 = 1 << 100;

/// Returns the part in ten-thousandths of a percent of the whole, rounded down, or 0 if the whole
/// is 0. A part above 2^100 is treated as 2^100.
pub(crate) fn parts_of(part: u128, whole: u128) -> u128
    ensures { result ≡ parts_of part whole }
{
    if whole == 0 {
        0
    } else {
        part.min(MOST_PART) * 1_000_000 / whole
    }
}

/// Appends a table in a format.
///
/// Requires: for each row 200 bytes fit the page, and 8 more.
pub(crate) fn push_table<const N: usize>(page: &mut Page<N>, format: Format, rows: &[Row])
    requires { length page.old + 200 * length rows.now + 8 ≤ N }
    ensures { page.new ≡ page.old ++ table_text format (table_rows rows.now) }
{
    match format {
        Format::Text => push_items(page, Part::Line, rows),
        Format::Csv => {
            push_names(page, rows);
            push_values(page, rows);
        }
        Format::Json => {
            page.push(b"{");
            push_items(page, Part::Member, rows);
            page.push(b"}\n");
        }
    }
}

/// Appends the line of the names of a table.
#[tactic(auto, unfolding(crate::specs::Rows::names_line))]
pub(crate) fn push_names<const N: usize>(page: &mut Page<N>, rows: &[Row])
    requires { length page.old + 100 * length rows.now + 1 ≤ N }
    ensures value { page.new ≡ page.old ++ names_line (table_rows rows.now) }
    ensures fits { length page.new ≤ length page.old + 100 * length rows.now + 1 }
{
    push_items(page, Part::Name, rows);
    page.push(b"\n");
}

/// Appends the line of the values of a table.
#[tactic(auto, unfolding(crate::specs::Rows::values_line))]
pub(crate) fn push_values<const N: usize>(page: &mut Page<N>, rows: &[Row])
    requires { length page.old + 100 * length rows.now + 1 ≤ N }
    ensures value { page.new ≡ page.old ++ values_line (table_rows rows.now) }
    ensures fits { length page.new ≤ length page.old + 100 * length rows.now + 1 }
{
    push_items(page, Part::Quantity, rows);
    page.push(b"\n");
}

/// Appends the first line of a table of several rows like this one: the names of its columns, or the start of a list
/// of JSON.
pub(crate) fn push_heading<const N: usize>(page: &mut Page<N>, format: Format, row: &[Row])
    requires { length page.old + 100 * length row.now + 1 ≤ N }
    ensures value { page.new ≡ page.old ++ table_heading format (table_rows row.now) }
    ensures fits { length page.new ≤ length page.old + 100 * length row.now + 1 }
{
    match format {
        Format::Text => {
            push_items(page, Part::Heading, row);
            page.push(b"\n");
        }
        Format::Csv => push_names(page, row),
        Format::Json => page.push(b"["),
    }
}

/// Returns the end of a table of several rows.
pub(crate) fn end_of(format: Format) -> &'static [u8]
    ensures value { result.now ≡ table_end format }
    ensures fits { length result.now ≤ 2 }
{
    match format {
        Format::Text | Format::Csv => b"",
        Format::Json => b"]\n",
    }
}

/// Returns the bytes between two rows of a table of several.
pub(crate) fn between_rows(format: Format) -> &'static [u8]
    ensures value { result.now ≡ between_rows format }
    ensures fits { length result.now ≤ 2 }
{
    match format {
        Format::Text | Format::Csv => b"",
        Format::Json => b",\n",
    }
}

/// Appends the values of a row of a table of several.
pub(crate) fn push_row<const N: usize>(page: &mut Page<N>, format: Format, row: &[Row])
    requires { length page.old + 100 * length row.now + 2 ≤ N }
    ensures value { page.new ≡ page.old ++ row_text format (table_rows row.now) }
    ensures fits { length page.new ≤ length page.old + 100 * length row.now + 2 }
{
    match format {
        Format::Text => {
            push_items(page, Part::Cell, row);
            page.push(b"\n");
        }
        Format::Csv => push_values(page, row),
        Format::Json => {
            page.push(b"{");
            push_items(page, Part::Member, row);
            page.push(b"}");
        }
    }
}

/// Appends a part of a table: its rows, with the separator between.
pub(crate) fn push_items<const N: usize>(page: &mut Page<N>, part: Part, rows: &[Row])
    requires { length page.old + 100 * length rows.now ≤ N }
    ensures value { page.new ≡ page.old ++ items_text part (table_rows rows.now) }
    ensures fits { length page.new ≤ length page.old + 100 * length rows.now }
{
    if let Some((row, rest)) = rows.split_first() {
        push_item(page, part, row);
        push_more(page, part, rest);
    }
}

/// Appends rows after another, each with a separator before it.
fn push_more<const N: usize>(page: &mut Page<N>, part: Part, rows: &[Row])
    requires { length page.old + 100 * length rows.now ≤ N }
    ensures value { page.new ≡ page.old ++ more_items part (table_rows rows.now) }
    ensures fits { length page.new ≤ length page.old + 100 * length rows.now }
{
    let mut rest = rows;
    'rows: while let Some((row, after)) = rest.split_first() {
        page.push(separator_of(part));
        push_item(page, part, row);
        rest = after;
    }
}

/// Returns the bytes between two rows.
fn separator_of(part: Part) -> &'static [u8]
    ensures value { result.now ≡ separator_of part }
    ensures fits { length result.now ≤ 2 }
{
    match part {
        Part::Line => b"",
        Part::Name | Part::Quantity => b",",
        Part::Member => b", ",
        Part::Heading | Part::Cell => b" ",
    }
}

/// Appends a row.
#[tactic(auto, unfolding(crate::specs::Rows::item_text))]
fn push_item<const N: usize>(page: &mut Page<N>, part: Part, row: &Row)
    requires { length page.old + 98 ≤ N }
    ensures value { page.new ≡ page.old ++ item_text part (record { name = row.now.name.now; value = row.now.value }) }
    ensures fits { length page.new ≤ length page.old + 98 }
{
    match part {
        Part::Line => {
            page.push(row.name);
            page.push(b" ");
            push_value(page, row.value);
            page.push(b"\n");
        }
        Part::Name | Part::Heading => page.push(row.name),
        Part::Quantity | Part::Cell => push_value(page, row.value),
        Part::Member => {
            page.push(b"\"");
            push_key(page, row.name);
            page.push(b"\": ");
            push_member(page, row.value);
        }
    }
}

/// Appends the key of a name in JSON.
fn push_key<const N: usize>(page: &mut Page<N>, name: &[u8])
    requires { length page.old + length name.now ≤ N }
    ensures value { page.new ≡ page.old ++ json_key name.now }
    ensures fits { length page.new ≡ length page.old + length name.now }
{
    let mut rest = name;
    'bytes: while let Some((byte, after)) = rest.split_first() {
        page.push(&[if *byte == b'.' { b'_' } else { *byte }]);
        rest = after;
    }
}

/// Appends a value in JSON.
#[tactic(auto, unfolding(crate::specs::Rows::member_text))]
fn push_member<const N: usize>(page: &mut Page<N>, value: Value)
    requires { length page.old + 54 ≤ N }
    ensures value { page.new ≡ page.old ++ member_text value }
    ensures fits { length page.new ≤ length page.old + 54 }
{
    match value {
        Value::Number(number) => page.push_decimal(number),
        Value::Percent(parts) => push_percent(page, parts),
        Value::Reason(reason) => {
            page.push(b"\"");
            page.push(reason_text(reason));
            page.push(b"\"");
        }
        Value::Sweeping(policy) => {
            page.push(b"\"");
            push_policy(page, policy);
            page.push(b"\"");
        }
    }
}

/// Appends a value.
#[tactic(auto, unfolding(crate::specs::Rows::value_text))]
fn push_value<const N: usize>(page: &mut Page<N>, value: Value)
    requires { length page.old + 54 ≤ N }
    ensures value { page.new ≡ page.old ++ value_text value }
    ensures fits { length page.new ≤ length page.old + 54 }
{
    match value {
        Value::Number(number) => page.push_decimal(number),
        Value::Percent(parts) => push_percent(page, parts),
        Value::Reason(reason) => page.push(reason_text(reason)),
        Value::Sweeping(policy) => push_policy(page, policy),
    }
}

/// Returns the word for the reason of a sample.
fn reason_text(reason: SampleReason) -> &'static [u8]
    ensures value { result.now ≡ reason_text reason }
    ensures fits { length result.now ≤ 5 }
{
    match reason {
        SampleReason::Regular => b"each",
        SampleReason::Swept => b"sweep",
        SampleReason::Last => b"end",
    }
}

/// Appends a percentage in ten-thousandths, with four digits after the point.
#[tactic(auto, unfolding(crate::specs::Rows::percent_text))]
fn push_percent<const N: usize>(page: &mut Page<N>, parts: u128)
    requires { length page.old + 54 ≤ N }
    ensures value { page.new ≡ page.old ++ percent_text parts }
    ensures fits { length page.new ≤ length page.old + 54 }
{
    let mut digits = Line::new();
    digits.push_decimal(parts / 10_000);
    digits.push(b".");
    push_digit(&mut digits, parts / 1000);
    push_digit(&mut digits, parts / 100);
    push_digit(&mut digits, parts / 10);
    push_digit(&mut digits, parts);
    page.push(digits.bytes());
}

/// Appends the last decimal digit of a number.
#[tactic(auto, using(crate::proofs::RowLemmas::last_digit))]
fn push_digit(digits: &mut Line, number: u128)
    requires { length digits.old + 40 ≤ 192 }
    ensures value { digits.new ≡ digits.old ++ decimal (number % 10) }
    ensures fits { length digits.new ≤ length digits.old + 1 }
{
    digits.push(&[b'0' + (number % 10) as u8]);
}
