//! The rows of tables: names and values.
ghost use Rattle.std.specs.Prelude.{◌≤◌, length};

use crate::SampleReason;
use cc_heap::Policy;

/// The format of a table.
#[derive(Clone, Copy)]
pub enum Format {
    /// A line for each name, with a space before its value. A table of several rows has a line of the names and a
    /// line for each row, with spaces between.
    Text,
    /// A line of the names, and a line of the values for each row, with commas between.
    Csv,
    /// One object of JSON, on one line. A table of several rows is a list of them, one on a line.
    Json,
}

/// The value of a row.
#[derive(Clone, Copy)]
pub(crate) enum Value {
    /// A number.
    Number(u128),
    /// A percentage, in ten-thousandths.
    Percent(u128),
    /// The reason of a sample.
    Reason(SampleReason),
    /// A policy.
    Sweeping(Policy),
}

/// A part of the text of a table.
#[derive(Clone, Copy)]
pub(crate) enum Part {
    /// A line for each row.
    Line,
    /// The names, with commas between.
    Name,
    /// The values, with commas between.
    Quantity,
    /// The members of an object of JSON.
    Member,
    /// The names, with spaces between.
    Heading,
    /// The values, with spaces between.
    Cell,
}

/// A row of a table.
#[derive(Clone, Copy)]
pub(crate) struct Row {
    /// The name, of at most 40 bytes.
    pub(crate) name: &'static [u8],
    /// The value.
    pub(crate) value: Value,
    ghost short: { length name.now ≤ 40 },
}

impl Default for Row {
    fn default() -> Row {
        Row {
            name: b"",
            value: Value::Number(0),
        }
    }
}

/// The row of a number.
#[macro_export]
macro_rules! row {
    ($name:literal, $number:expr) => {
        Row {
            name: $name,
            value: Value::Number($number as u128),
        }
    };
}
