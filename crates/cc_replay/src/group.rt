//! Replays of one trace, each on its own heap.
ghost use Rattle.std.specs.Prelude.{◌≡◌, ◌≤◌, ◌+◌, ◌^◌, ◌++◌, [], length, false, Err, IfOk, OnErr};
ghost use Rattle.cc_io.specs.Devices.{SendsBytes};
ghost use Rattle.arrayvec.specs.ArrayVec.{array_vec_len};
ghost use Rattle.cc_replay.specs.Replay.{TakesLine, TakesRest};
ghost use Rattle.cc_replay.specs.Rows.{table_rows};
ghost use Rattle.cc_replay.specs.Group.{
  EachTakes,
  any_ran_out,
  are_over,
  begun_group,
  columns,
  more_policies,
  policies_text,
  policy_rows,
};

use crate::Reading;
use crate::replay::Replay;
use crate::rows::{between_rows, end_of, push_heading, push_row};
use crate::summary::{MOST_ROWS, policy_rows};
use crate::table::{Format, Row};
use arrayvec::ArrayVec;
use cc_heap::{Policy, Settings};
use cc_io::{Answerer, IoError, Page, Sink, write_and_flush};
use cc_placer::Placer;
use std::alloc::{AllocError, Global};
use std::marker::Model;

/// The maximum number of replays of a group.
pub const MOST_REPLAYS: usize = 8;

/// The maximum number of bytes of a table.
const MOST_TABLE: usize = 40960;

/// Replays of one trace, each on its own heap: at most [`MOST_REPLAYS`].
///
/// Each takes every line as it would alone, so that each is what one replay of the trace gives.
#[derive(Drop)]
pub struct ReplayGroup<P: Placer> {
    replays: Vec<Replay<P>>,
}

impl<P: Placer> Model for ReplayGroup<P> {
    ghost use Rattle.std.specs.Prelude.{List, ◌≤◌, length};
    ghost use Rattle.cc_replay.specs.Replay.{ReplayState};

    ghost Value = { List ReplayState };

    ghost view = { λ g. g.replays.items };

    ghost invariant = { λ g. length g.replays.items ≤ 8 };
}

impl<P: Placer> ReplayGroup<P> {
    /// Creates a replay with these settings, and one for each other policy, before the first line of a trace.
    ///
    /// Requires: at most 7 other policies; `1 <= settings.limit <= 2^24`; the pool's base is at most its top, and
    /// that at most 2^64.
    /// Errors: `AllocError` if an allocation fails.
    pub fn with_settings(
        alloc: Global,
        settings: Settings,
        others: &[Policy],
        reading: Reading,
    ) -> Result<Self, AllocError>
        requires other { length others.now ≤ 7 }
        requires some { 1 ≤ settings.limit }
        requires few { settings.limit ≤ 2 ^ 24 }
        requires in_order { settings.pool.base ≤ settings.pool.top }
        requires fits { settings.pool.top ≤ 2 ^ 64 }
        ensures { IfOk result (λ group. group ≡ begun_group settings others.now reading) }
    {
        let mut replays = Vec::new(alloc);
        replays.push(Replay::with_settings(alloc, settings, reading)?)?;
        let mut rest = others;
        'policies: while let Some((policy, after)) = rest.split_first() {
            let other = Settings {
                policy: *policy,
                ..settings
            };
            replays.push(Replay::with_settings(alloc, other, reading)?)?;
            rest = after;
        }
        Ok(ReplayGroup { replays })
    }

    /// Returns whether no replay takes lines.
    pub fn is_over(&self) -> bool
        ensures { result ≡ are_over self.now }
    {
        self.replays
            .iter()
            .all(|replay| replay.progress().is_over())
    }

    /// Returns whether an allocation failed.
    pub fn is_out_of_memory(&self) -> bool
        ensures { result ≡ any_ran_out self.now }
    {
        self.replays
            .iter()
            .any(|replay| replay.progress().is_out_of_memory())
    }

    /// Writes the table of the summaries, a row for each replay, in a format, and flushes the sink. The first
    /// column is the policy, and the others are the names of a summary.
    ///
    /// Requires: the sink has not failed.
    /// Errors: `Write` if the sink fails. A prefix of the table is then written.
    pub fn write<W: Sink>(&self, format: Format, sink: &mut W) -> Result<(), IoError>
        requires { (W.state sink.old).has_failed ≡ false }
        ensures sends { SendsBytes (W.state sink.old) (W.state sink.new) (policies_text format self.now) result }
        ensures write { OnErr result (result ≡ Err IoError.Write) }
    {
        let mut page: Page<MOST_TABLE> = Page::new();
        push_policies(&mut page, format, self.replays.as_slice());
        write_and_flush(&page, sink)
    }
}

/// Has each replay take a line. Returns whether one refuses it.
fn take_each<P: Placer>(replays: &mut [Replay<P>], line: &[u8]) -> bool
    ensures { EachTakes TakesLine replays.old line.now [] result replays.new }
{
    let Some((first, rest)) = replays.split_first_mut() else {
        return false;
    };
    let is_first = first.take_alone(line);
    let is_rest = take_each(rest, line);
    is_first || is_rest
}

/// Has each replay take trailing bytes. Returns whether one refuses them.
fn end_each<P: Placer>(replays: &mut [Replay<P>], rest: &[u8]) -> bool
    ensures { EachTakes TakesRest replays.old rest.now [] result replays.new }
{
    let Some((first, others)) = replays.split_first_mut() else {
        return false;
    };
    let is_first = first.end_alone(rest);
    let is_rest = end_each(others, rest);
    is_first || is_rest
}

impl<P: Placer, const N: usize> Answerer<N> for ReplayGroup<P> {
    ghost Answered = { EachTakes TakesLine };

    ghost Ended = { EachTakes TakesRest };

    ghost MOST = { 0 };

    ghost done = { are_over };

    fn is_done(&self) -> bool {
        self.is_over()
    }

    fn most() -> usize {
        0
    }

    fn answer(&mut self, entry: &[u8], _out: &mut Page<N>) -> bool {
        take_each(&mut self.replays[..], entry)
    }

    fn end(&mut self, rest: &[u8], _out: &mut Page<N>) -> bool {
        end_each(&mut self.replays[..], rest)
    }
}

/// Appends the table of replays in a format.
fn push_policies<P: Placer, const N: usize>(
    page: &mut Page<N>,
    format: Format,
    replays: &[Replay<P>],
)
    requires few { length replays.now ≤ 8 }
    requires room { length page.old + 40000 ≤ N }
    ensures { page.new ≡ page.old ++ policies_text format replays.now }
{
    push_heading(page, format, columns(replays).as_slice());
    push_replays(page, format, replays);
    page.push(end_of(format));
}

/// Returns a row for the names of the columns: the first.
fn columns<P: Placer>(replays: &[Replay<P>]) -> ArrayVec<Row, MOST_ROWS>
    ensures value { table_rows result.items ≡ columns replays.now }
    ensures few { array_vec_len result ≤ 44 }
{
    match replays.split_first() {
        Some((first, _)) => rows_with_policy(first),
        None => ArrayVec::new(),
    }
}

/// Appends the rows of replays, with the separator between.
fn push_replays<P: Placer, const N: usize>(
    page: &mut Page<N>,
    format: Format,
    replays: &[Replay<P>],
)
    requires few { length replays.now ≤ 8 }
    requires room { length page.old + 35232 ≤ N }
    ensures value { page.new ≡ page.old ++ more_policies format [] replays.now }
    ensures fits { length page.new ≤ length page.old + 35232 }
{
    let mut before: &[u8] = b"";
    let mut rest = replays;
    'rows: while let Some((first, after)) = rest.split_first() {
        let rows = rows_with_policy(first);
        page.push(before);
        push_row(page, format, rows.as_slice());
        before = between_rows(format);
        rest = after;
    }
}

/// Returns the row of a replay in the table.
fn rows_with_policy<P: Placer>(replay: &Replay<P>) -> ArrayVec<Row, MOST_ROWS>
    ensures value { table_rows result.items ≡ policy_rows replay.now }
    ensures few { array_vec_len result ≤ 44 }
{
    policy_rows(replay.run().heap().settings().policy, &replay.figures())
}
