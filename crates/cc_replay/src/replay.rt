//! A heap over a trace that takes the lines of it.
ghost use Rattle.std.specs.Prelude.{◌≡◌, ◌≤◌, ◌+◌, ◌++◌, ◌^◌, [], true, false, length, Err, IfOk, IfSome};
ghost use Rattle.std.specs.Prelude.{OnErr};
ghost use Rattle.cc_io.specs.Answers.{AnswersInto};
ghost use Rattle.cc_io.specs.Correct.{Pumps};
ghost use Rattle.cc_io.specs.Frames.{lines};
ghost use Rattle.cc_io.specs.Devices.{IsOutcome, SendsBytes};
ghost use Rattle.cc_replay.specs.Counts.{with_counted_event, with_outcome};
ghost use Rattle.cc_replay.specs.Reading.{is_due, is_over, progress_after, reason_of};
ghost use Rattle.cc_heap.specs.Alignment.{HasAlignment};
ghost use Rattle.cc_heap.specs.Lost.{empty_run};
ghost use Rattle.cc_heap.specs.Outcomes.{is_refused};
ghost use Rattle.cc_heap.specs.Peaks.{without_peaks};
ghost use Rattle.cc_replay.specs.Replay.{TakesLine, TakesRest, begun, figures_of, last_sample, most_sample};
ghost use Rattle.cc_replay.specs.Replay.{replaying, sample_text, series_header, time_after};
ghost use Rattle.cc_replay.specs.Taking.{AppendsEntry, AppendsEvent, RefusesEntry, TakesUnwritten, next_entry};

use crate::counts::Counts;
use crate::series::{MOST_SAMPLE, push_sample, push_series_header};
use crate::summary::Figures;
use crate::{Entry, Progress, Reading, SampleReason, read_entry};
use cc_heap::{Event, Heap, Outcome, Run, Settings};
use cc_io::{
    Answerer, IoError, Lines, Page, Pending, Sink, Source, Summary, pump, write_and_flush,
};
use cc_placer::Placer;
use cc_word::Refusal;
use std::alloc::{AllocError, Global};
use std::marker::Model;

/// A reader of the lines of a trace: it takes their events into a run, and counts the lines.
#[derive(Drop)]
pub struct Replay<P: Placer> {
    run: Run<P>,
    reading: Reading,
    counts: Counts,
    pending: Option<u64>,
    time: u64,
    progress: Progress,
    is_sampled: bool,
}

impl<P: Placer> Model for Replay<P> {
    ghost use Rattle.cc_replay.specs.Replay.{ReplayState};

    ghost Value = { ReplayState };

    ghost view = { λ s. record {
      run = s.run;
      reading = s.reading;
      counts = s.counts;
      pending = s.pending;
      time = s.time;
      progress = s.progress;
      is_sampled = s.is_sampled;
    } };
}

impl<P: Placer> Replay<P> {
    /// Creates a replay with a heap that holds nothing, before the first line of a trace.
    ///
    /// Requires: `1 <= settings.limit <= 2^24`; the pool's base is at most its top, and that at
    /// most 2^64.
    /// Errors: `AllocError` if an allocation fails.
    pub fn with_settings(
        alloc: Global,
        settings: Settings,
        reading: Reading,
    ) -> Result<Self, AllocError>
        requires some { 1 ≤ settings.limit }
        requires few { settings.limit ≤ 2 ^ 24 }
        requires in_order { settings.pool.base ≤ settings.pool.top }
        requires fits { settings.pool.top ≤ 2 ^ 64 }
        ensures { IfOk result (λ replay. replay ≡ begun (empty_run settings) reading) }
    {
        let heap = Heap::new(alloc, settings)?;
        Ok(Replay::new(Run::new(alloc, heap), reading))
    }

    /// Creates a replay with a run of a heap, before the first line of a trace.
    pub fn new(run: Run<P>, reading: Reading) -> Self
        ensures { result ≡ begun run reading }
    {
        Replay {
            run,
            reading,
            counts: Counts::default(),
            pending: None,
            time: 0,
            progress: Progress::Running,
            is_sampled: true,
        }
    }

    /// Returns the numbers of the replay.
    pub fn figures(&self) -> Figures
        ensures { result ≡ figures_of self.now }
    {
        Figures {
            counts: self.counts,
            totals: self.run.heap().totals(),
            usage: self.run.heap().usage(),
            has_pointers: self.reading.format.has_pointers(),
        }
    }

    /// Returns the run of the heap.
    pub fn run(&self) -> &Run<P>
        ensures { result.now ≡ self.now.run }
    {
        &self.run
    }

    /// Forgets the peaks of bytes of the heap, so that those after a line are of its event alone.
    pub fn forget_peaks(&mut self)
        ensures { self.new ≡ record self.old { run = record self.old.run { heap = without_peaks self.old.run.heap } } }
    {
        self.run.forget_peaks();
    }

    /// Writes the sample of the end, if there is a series, there was an event, and the last has no
    /// sample. Flushes the sink.
    ///
    /// Requires: the sink has not failed.
    /// Errors: `Write` if the sink fails. A prefix of the sample is then written.
    pub fn end_series<W: Sink>(&self, series: &mut W) -> Result<(), IoError>
        requires { (W.state series.old).has_failed ≡ false }
        ensures sends { SendsBytes (W.state series.old) (W.state series.new) (last_sample self.now) result }
        ensures write { OnErr result (result ≡ Err IoError.Write) }
    {
        let mut page: Page<MOST_SAMPLE> = Page::new();
        self.push_last(&mut page);
        write_and_flush(&page, series)
    }

    /// Appends the sample of the end, if there is a series, there was an event, and the last has no
    /// sample.
    fn push_last<const N: usize>(&self, page: &mut Page<N>)
        requires { length page.old + most_sample ≤ N }
        ensures { page.new ≡ page.old ++ last_sample self.now }
    {
        if self.reading.each.is_some() && !self.is_sampled {
            push_sample(page, SampleReason::Last, self.time, &self.figures());
        }
    }

    /// Returns whether lines are taken.
    pub fn progress(&self) -> Progress
        ensures { result ≡ self.now.progress }
    {
        self.progress
    }

    /// Takes a line, if further lines are taken, and drops its sample. Returns whether the line is refused.
    pub(crate) fn take_alone(&mut self, line: &[u8]) -> bool
        ensures { TakesUnwritten TakesLine self.old line.now result self.new }
    {
        if self.progress.is_over() {
            return false;
        }
        let mut unwritten: Page<MOST_SAMPLE> = Page::new();
        self.answer(line, &mut unwritten)
    }

    /// Takes trailing bytes, if further lines are taken. Returns whether they are refused.
    pub(crate) fn end_alone(&mut self, rest: &[u8]) -> bool
        ensures { TakesUnwritten TakesRest self.old rest.now result self.new }
    {
        if self.progress.is_over() {
            return false;
        }
        let mut unwritten: Page<MOST_SAMPLE> = Page::new();
        self.end(rest, &mut unwritten)
    }

    /// Returns the entry of the next line, in the format of the trace.
    pub fn read(&self, line: &[u8]) -> Entry
        ensures value { result ≡ next_entry replaying self.now line.now }
        ensures aligned { IfOk result.event (λ event. IfSome event HasAlignment) }
    {
        read_entry(self.reading.format, self.pending, line)
    }

    /// Counts a line and takes its entry, and appends a sample if it is due. Returns whether it is refused.
    ///
    /// Requires: the alignment that its event requests is a power of two; `MOST_SAMPLE` bytes of the page are free.
    #[tactic(auto, using(crate::proofs::ReplayLemmas::refused_entry))]
    pub fn take_entry<const N: usize>(&mut self, entry: Entry, out: &mut Page<N>) -> bool
        requires aligned { IfOk entry.event (λ event. IfSome event HasAlignment) }
        requires room { length out.old + most_sample ≤ N }
        ensures { AppendsEntry replaying self.old entry out.old out.new result self.new }
    {
        self.counts = self.counts.with_line().with_failure(entry.is_failure);
        self.pending = entry.pending;
        match entry.event {
            Ok(None) => false,
            Ok(Some(event)) => self.take_event(event, out),
            Err(refusal) => self.refuse(refusal),
        }
    }

    /// Appends the header of the series, if there is one.
    fn push_header<const N: usize>(&self, page: &mut Page<N>)
        requires { length page.old + most_sample ≤ N }
        ensures { page.new ≡ page.old ++ series_header self.now }
    {
        if self.reading.each.is_some() {
            push_series_header(page, &self.figures());
        }
    }

    /// Counts the last line as refused.
    fn refuse(&mut self, refusal: Refusal) -> bool
        ensures { RefusesEntry (replaying.refused refusal self.old) [] result self.new }
    {
        self.counts = self.counts.with_refusal(refusal);
        self.progress = self.reading.progress_after(true);
        true
    }

    /// Has an event happen, counts what comes of it, and appends a sample if it is due.
    fn take_event<const N: usize>(&mut self, event: Event, out: &mut Page<N>) -> bool
        requires aligned { HasAlignment event }
        requires room { length out.old + most_sample ≤ N }
        ensures { AppendsEvent replaying self.old event out.old out.new result self.new }
    {
        let sweeps = self.run.heap().totals().sweeps;
        let Ok(outcome) = self.run.event(event) else {
            self.progress = Progress::OutOfMemory;
            return false;
        };
        self.count(event, outcome, sweeps);
        self.push_due(out);
        outcome.is_refused()
    }

    /// Counts an event that happened after this number of sweeps.
    fn count(&mut self, event: Event, outcome: Outcome, sweeps: u64)
        ensures { self.new ≡ record self.old {
          counts = with_outcome outcome (with_counted_event event self.old.counts);
          time = time_after event self.old.time;
          progress = progress_after self.old.reading (is_refused outcome);
          is_sampled = is_due self.old.reading (with_counted_event event self.old.counts).events sweeps
              self.old.run.heap.totals.sweeps;
        } }
    {
        self.counts = self.counts.with_event(event).with_outcome(outcome);
        self.time = time_after(event, self.time);
        self.progress = self.reading.progress_after(outcome.is_refused());
        let sweeps_now = self.run.heap().totals().sweeps;
        self.is_sampled = self.reading.is_due(self.counts.events, sweeps, sweeps_now);
    }

    /// Appends the sample of the last event, if it is due.
    fn push_due<const N: usize>(&self, page: &mut Page<N>)
        requires { length page.old + most_sample ≤ N }
        ensures { page.new ≡ page.old
            ++ sample_text self.now.is_sampled (reason_of self.now.reading self.now.counts.events) self.now }
    {
        if self.is_sampled {
            let reason = self.reading.reason_of(self.counts.events);
            push_sample(page, reason, self.time, &self.figures());
        }
    }
}

/// Returns the time after an event.
fn time_after(event: Event, time: u64) -> u64
    ensures { result ≡ time_after event time }
{
    match event {
        Event::Clock(now) => now,
        _ => time,
    }
}

impl<P: Placer, const N: usize> Answerer<N> for Replay<P> {
    ghost Answered = { TakesLine };

    ghost Ended = { TakesRest };

    ghost MOST = { most_sample };

    ghost done = { λ replay. is_over replay.progress };

    #[inline(always)]
    fn is_done(&self) -> bool {
        self.progress.is_over()
    }

    #[inline(always)]
    fn most() -> usize {
        MOST_SAMPLE
    }

    #[tactic(auto, using(crate::proofs::ReplayLemmas::line_replayed))]
    fn answer(&mut self, line: &[u8], out: &mut Page<N>) -> bool {
        let entry = self.read(line);
        self.take_entry(entry, out)
    }

    #[tactic(auto, using(crate::proofs::ReplayLemmas::rest_replayed))]
    fn end(&mut self, _rest: &[u8], _out: &mut Page<N>) -> bool {
        self.counts = self.counts.with_line();
        self.refuse(Refusal::Unfinished)
    }
}

/// Replays the trace that the source gives, and writes the samples of its series to the sink.
///
/// Each line is taken as [`read_entry`] reads it in the format of the trace. The replay counts a line
/// that is not an event, and an event that the heap refuses, and takes the next line unless reading is
/// strict. If an allocation fails, [`Replay::progress`] says so. After such a line nothing is taken, and
/// the source is read no further. It is read in chunks of up to 16 KiB. Before each read, all samples of
/// earlier events are written. The sink is flushed once, at the end. No clause says that the source is
/// read no further: `tests/program` shows it.
///
/// Requires: neither the source nor the sink has failed; the replay takes lines.
/// Errors: `Read` if and only if the source failed. `Write` if and only if the sink failed.
pub fn replay_trace<P: Placer, R: Source, W: Sink>(
    replay: &mut Replay<P>,
    source: &mut R,
    series: &mut W,
) -> Result<Summary, IoError>
    requires source { (R.state source.old).has_failed ≡ false }
    requires sink { (W.state series.old).has_failed ≡ false }
    requires goes_on { is_over replay.old.progress ≡ false }
    // Each line is taken in order, as `TakesLine` says, and the sink took the header of the series
    // and the samples of the events that have one.
    ensures replays { Pumps (λ state. is_over state.progress) TakesLine TakesRest lines 65536 most_sample replay.old
        (series_header replay.old)
        (R.state source.old).unread (R.state source.new).unread (W.state series.old).taken
        (W.state series.new).taken result replay.new }
    ensures outcome { IsOutcome (R.state source.new) (W.state series.new) result }
{
    let mut page = Pending::new();
    replay.push_header(&mut page);
    pump(&Lines, replay, source, series, &mut page)
}
