//! Hints after a run, one on each line: what the writer of a script might not see in its replies.
ghost use Rattle.std.specs.Prelude.{◌≡◌, ◌+◌, ◌≤◌, ◌++◌, [], Err, List, OnErr, false, length};
ghost use Rattle.cc_io.specs.Devices.{SendsBytes};
ghost use Rattle.cc_values.specs.declared.reply.Reply.{Reply};
ghost use Rattle.std.specs.List.{list_any};
ghost use Rattle.cc_word.specs.declared.refusal.Refusal.TheVariants.{Inexact};
ghost use Rattle.cc_syntax.specs.Hints.{hints_of, hints_text, is_in_opening, line_hint, pool_hint};
ghost use Rattle.cc_syntax.specs.Tally.{Exchange, IsTally, is_refusal};

use crate::tally::{Count, Tally};
use cc_bounds::{Len, granule, round_length};
use cc_io::{
    IoError, MOST_TEXT, Sink, Text, end_with_decimal, end_with_hexadecimal, push_hexadecimal,
    write_and_flush,
};

/// The facts about a run that are worth a hint. Lines of the script are numbered from 1, and 0
/// means that there is no such line.
#[derive(Clone, Copy, PartialEq, Eq)]
pub struct Hints {
    /// The requested length of the pool in bytes, if a reply to the setup operations is `Inexact`.
    pub inexact: Option<Len>,
    /// The number of the first refused line that has at most 128 bytes and ends in a carriage
    /// return.
    pub carriage_return: u64,
    /// The number of the first refused `rebuild` line of at most 128 bytes whose word is written
    /// with `0x` or a colon.
    pub marked_word: u64,
    /// The number of the first line that is refused as `Full`.
    pub full: u64,
}

/// The index of `Inexact` among the counts of a tally, which are in the order of the codes.
const INEXACT: usize = 9;

impl Hints {
    /// Returns the hints after a run with these counts. `pool` is the length of the pool that the
    /// setup operations requested, if any.
    pub fn of(tally: &Tally, pool: Option<Len>) -> Hints
        ensures { (opening : List Reply) (exchanges : List Exchange) → IsTally opening exchanges tally.now
            → result ≡ hints_of opening exchanges pool }
    {
        Hints {
            inexact: if is_pool_inexact(tally) { pool } else { None },
            carriage_return: tally.carriage_return,
            marked_word: tally.marked_word,
            full: tally.full,
        }
    }
}

/// Returns whether a reply to the setup operations is `Inexact`.
fn is_pool_inexact(tally: &Tally) -> bool
    ensures { (opening : List Reply) (exchanges : List Exchange) → IsTally opening exchanges tally.now
        → result ≡ list_any (is_refusal Inexact) opening }
{
    is_in_opening(&tally.counts[INEXACT])
}

/// Returns whether a reply to the setup operations is the refusal of a count.
fn is_in_opening(count: &Count) -> bool
    ensures { result ≡ is_in_opening count.now }
{
    count.times > 0 && count.first == 0
}

/// Writes the hints, and flushes the sink once after them.
///
/// Requires: the sink has not failed.
/// Errors: `Write` if and only if the sink fails. A prefix of the hints is then written.
pub fn show_hints<W: Sink>(hints: &Hints, sink: &mut W) -> Result<(), IoError>
    requires { (W.state sink.old).has_failed ≡ false }
    ensures sends { SendsBytes (W.state sink.old) (W.state sink.new) (hints_text hints.now) result }
    ensures write { OnErr result (result ≡ Err IoError.Write) }
{
    let mut text = Text::new();
    push_hints(&mut text, hints);
    write_and_flush(&text, sink)
}

/// Appends the hints.
///
/// Requires: `text` is empty.
fn push_hints(text: &mut Text, hints: &Hints)
    requires { text.old ≡ [] }
    ensures { text.new ≡ hints_text hints.now }
{
    push_pool_hint(text, hints.inexact);
    push_line_hint(
        text,
        hints.carriage_return,
        b" ends in CR: end lines in LF alone, as dos2unix does",
    );
    push_line_hint(
        text,
        hints.marked_word,
        b" has a word with 0x or a colon: a word is 32 digits alone",
    );
    push_line_hint(
        text,
        hints.full,
        b" is refused as full: --slots N sets the limit, at most 65536",
    );
}

/// Appends the hint that a pool of this length is not exact, and which length and bases are.
/// Appends nothing for `None`.
fn push_pool_hint(text: &mut Text, inexact: Option<Len>)
    requires { length text.old + 240 ≤ MOST_TEXT }
    ensures value { text.new ≡ text.old ++ pool_hint inexact }
    ensures fits { length text.new ≤ length text.old + 240 }
{
    if let Some(length) = inexact {
        let bytes = length.get();
        push_hexadecimal(
            text,
            b"hint: the pool's bounds are not exact: ",
            round_length(bytes),
        );
        end_with_hexadecimal(
            text,
            b" bytes from a multiple of ",
            u128::from(granule(bytes)),
            b" are",
        );
    }
}

/// Appends the hint at the line with this number. Appends nothing for 0.
fn push_line_hint(text: &mut Text, line: u64, after: &[u8])
    requires after { length after.now ≤ 70 }
    requires room { length text.old + 140 ≤ MOST_TEXT }
    ensures value { text.new ≡ text.old ++ line_hint line after.now }
    ensures fits { length text.new ≤ length text.old + 140 }
{
    if line != 0 {
        end_with_decimal(text, b"hint: line ", u128::from(line), after);
    }
}
