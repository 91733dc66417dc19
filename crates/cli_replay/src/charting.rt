//! A replay whose heap is drawn as a chart.
ghost use Rattle.std.specs.Prelude.{◌≡◌, ◌≤◌, length};
ghost use Rattle.cc_replay.specs.Reading.{is_over, ran_out};
ghost use Rattle.cc_replay.specs.declared.reading.Progress.TheVariants.{Running};
ghost use Rattle.cc_replay.specs.Replay.{most_sample};
ghost use Rattle.cli_replay.specs.Charting.{
  ChartsLine,
  ChartsRest,
  begun_chart,
  caption_of,
  charted,
  charted_text,
  levels_of,
};
ghost use Rattle.cli_replay.specs.Replaying.{Charts};
ghost use Rattle.cli_replay.specs.Settings.{IsForHeap};

use crate::replay_values::ReplayRequest;
use crate::takers::{TracePrinter, TraceTaker};
use cc_heap::{Chart, Heap, Levels, Totals, Usage, write_chart};
use cc_io::{Answerer, IoError, Line, Lines, Page, Pending, Sink, Source, Summary, pump};
use cc_placer::Placer;
use cc_replay::{Entry, MOST_SAMPLE, Replay, Settings, push_policy};
use std::alloc::{AllocError, Global};
use std::marker::Model;

/// A replay, and the chart of its heap.
#[derive(Drop)]
pub(crate) struct Charting<P: Placer> {
    replay: Replay<P>,
    chart: Chart,
}

impl<P: Placer> Model for Charting<P> {
    ghost use Rattle.cli_replay.specs.Charting.{Charted};

    ghost Value = { Charted };

    ghost view = { λ c. record { replay = c.replay; chart = c.chart } };
}

/// Returns the caption of the chart of a heap with these settings.
fn caption_of(settings: Settings) -> Line
    ensures value { result ≡ caption_of settings }
    ensures fits { length result ≤ 192 }
{
    let mut caption = Line::new();
    caption.push(b"policy ");
    push_policy(&mut caption, settings.policy);
    caption.push(b", alignment ");
    caption.push_decimal(u128::from(settings.align.bytes()));
    caption
}

/// Adds the levels of a line to the chart, if its entry is an event.
fn add_event<P: Placer>(chart: &mut Chart, entry: Entry, heap: &Heap<P>)
    ensures { chart.new ≡ charted Running entry.event heap.now chart.old }
{
    if let Ok(Some(_)) = entry.event {
        chart.add(levels_of(heap.totals(), heap.usage()));
    }
}

/// Returns the levels of an event, from the numbers of the heap after it.
fn levels_of(totals: Totals, usage: Usage) -> Levels
    ensures { result ≡ levels_of totals usage }
{
    // the peaks come from the event alone, and are 0 if it changed nothing
    Levels {
        live: totals.peak_live.max(usage.live),
        quarantine: totals.peak_quarantine.max(usage.quarantine),
        held: totals
            .peak_held
            .max(usage.live.saturating_add(usage.quarantine)),
        high: totals.high,
    }
}

impl<P: Placer, const N: usize> Answerer<N> for Charting<P> {
    ghost Answered = { ChartsLine };

    ghost Ended = { ChartsRest };

    ghost MOST = { most_sample };

    ghost done = { λ charting. is_over charting.replay.progress };

    #[inline(always)]
    fn is_done(&self) -> bool {
        self.replay.progress().is_over()
    }

    fn most() -> usize {
        MOST_SAMPLE
    }

    fn answer(&mut self, line: &[u8], out: &mut Page<N>) -> bool {
        let entry = self.replay.read(line);
        self.replay.forget_peaks();
        let is_refused = self.replay.take_entry(entry, out);
        add_event(&mut self.chart, entry, self.replay.run().heap());
        is_refused
    }

    fn end(&mut self, rest: &[u8], out: &mut Page<N>) -> bool {
        self.replay.end(rest, out)
    }
}

impl<P: Placer> TraceTaker for Charting<P> {
    ghost IsFor = { IsForHeap };

    ghost begun = { λ request. begun_chart request.settings request.reading };

    ghost Takes = { Charts };

    ghost is_over = { λ charting. is_over charting.replay.progress };

    ghost ran_out = { λ charting. ran_out charting.replay.progress };

    fn begin(alloc: Global, request: &ReplayRequest<'_>) -> Result<Self, AllocError> {
        Ok(Charting {
            replay: Replay::with_settings(alloc, request.settings, request.reading)?,
            chart: Chart::new(),
        })
    }

    fn take<S: Source, W: Sink>(
        &mut self,
        source: &mut S,
        sink: &mut W,
    ) -> Result<Summary, IoError> {
        let mut page = Pending::new();
        pump(&Lines, self, source, sink, &mut page)
    }

    fn has_run_out(&self) -> bool {
        self.replay.progress().is_out_of_memory()
    }
}

impl<P: Placer> TracePrinter for Charting<P> {
    ghost text = { λ request. charted_text request.settings };

    fn write_end<W: Sink>(&self, request: &ReplayRequest<'_>, sink: &mut W) -> Result<(), IoError> {
        let caption = caption_of(request.settings);
        write_chart(&self.chart, caption.bytes(), sink)
    }
}
