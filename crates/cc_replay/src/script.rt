//! A script that is written while the lines of a trace are taken.
ghost use Rattle.std.specs.Prelude.{◌≡◌, ◌≤◌, ◌<◌, ◌+◌, ◌^◌, ◌++◌, [], true, false, length, Err, IfOk, IfSome};
ghost use Rattle.std.specs.Prelude.{OnErr, OnOk};
ghost use Rattle.cc_io.specs.Answers.{AnswersInto};
ghost use Rattle.cc_io.specs.Correct.{Pumps};
ghost use Rattle.cc_io.specs.Devices.{IsOutcome};
ghost use Rattle.cc_io.specs.Frames.{lines};
ghost use Rattle.cc_word.specs.declared.refusal.Refusal.TheVariants.{Unfinished};
ghost use Rattle.cc_heap.specs.declared.reallocation.Reallocation.TheVariants.{Move};
ghost use Rattle.cc_heap.specs.Alignment.{HasAlignment};
ghost use Rattle.cc_replay.specs.Reading.{is_over};
ghost use Rattle.cc_heap.specs.Events.{IsEvent};
ghost use Rattle.cc_replay.specs.Operations.{operation_lines};
ghost use Rattle.cc_replay.specs.Deeds.{DoesDeeds, deed_operations, is_swept_clean, numbers_of, numbers_with};
ghost use Rattle.cc_replay.specs.Script.{ScriptsLine, ScriptsRest, can_have, most_objects, script_begun, scripting};
ghost use Rattle.cc_replay.specs.Taking.{AppendsEntry, AppendsEvent, RefusesEntry};

use crate::deeds::Deeds;
use crate::doing::{asked_entry, asks_for_unit, deeds_of};
use crate::numbering::Numbering;
use crate::script_lines::push_deeds;
use crate::{Entry, Progress, Reading, read_entry};
use cc_heap::{Event, Heap, Outcome, Settings};
use cc_io::{Answerer, IoError, Lines, Page, Pending, Sink, Source, Summary, pump};
use cc_placer::Placer;
use std::alloc::{AllocError, Global};
use std::marker::Model;

/// The maximum number of objects of a script.
const MOST_OBJECTS: u32 = 65533;

/// The number of sweeps after which no event is taken.
const MOST_SWEEPS: u64 = u64::MAX - 3;

/// A writer of a script: of the operations by which a machine follows the heap over a trace.
#[derive(Drop)]
pub struct Script<P: Placer> {
    heap: Heap<P>,
    reading: Reading,
    pending: Option<u64>,
    ids: Numbering,
    progress: Progress,
}

impl<P: Placer> Model for Script<P> {
    ghost use Rattle.cc_replay.specs.Kept.{IsKept};
    ghost use Rattle.cc_replay.specs.Script.{ScriptState};

    ghost Value = { ScriptState };

    ghost view = { λ s. record {
      heap = s.heap;
      reading = s.reading;
      pending = s.pending;
      ids = s.ids;
      progress = s.progress;
    } };

    ghost invariant = { λ s. IsKept s.heap };
}

impl<P: Placer> Script<P> {
    /// Creates a script with a heap that holds nothing, before the first line of a trace.
    ///
    /// Requires: `1 <= settings.limit <= 2^24`; the pool's base is at most its top, and that at
    /// most 2^64; reallocations move objects.
    /// Errors: `AllocError` if an allocation fails.
    #[tactic(auto, using(crate::proofs::ScriptLemmas::kept_empty))]
    pub fn with_settings(
        alloc: Global,
        settings: Settings,
        reading: Reading,
    ) -> Result<Self, AllocError>
        requires some { 1 ≤ settings.limit }
        requires few { settings.limit ≤ 2 ^ 24 }
        requires in_order { settings.pool.base ≤ settings.pool.top }
        requires fits { settings.pool.top ≤ 2 ^ 64 }
        requires moves { settings.realloc ≡ Move }
        ensures { IfOk result (λ script. script ≡ script_begun settings reading) }
    {
        Ok(Script {
            heap: Heap::new(alloc, settings)?,
            reading,
            pending: None,
            ids: Numbering::new(alloc),
            progress: Progress::Running,
        })
    }

    /// Returns whether lines are taken.
    pub fn progress(&self) -> Progress
        ensures { result ≡ self.now.progress }
    {
        self.progress
    }

    /// Takes the entry of a line.
    fn take_entry<const N: usize>(&mut self, entry: Entry, out: &mut Page<N>) -> bool
        requires aligned { IfOk entry.event (λ event. IfSome event HasAlignment) }
        requires room { length out.old + 128 ≤ N }
        ensures { AppendsEntry scripting self.old entry out.old out.new result self.new }
    {
        self.pending = entry.pending;
        match entry.event {
            Ok(None) => false,
            Ok(Some(event)) => self.take_event(event, out),
            Err(_) => self.refuse(),
        }
    }

    /// Refuses a line.
    fn refuse(&mut self) -> bool
        ensures { RefusesEntry (scripting.refused Unfinished self.old) [] result self.new }
    {
        self.progress = self.reading.progress_after(true);
        true
    }

    /// Takes an event, if a script can have it, and appends the lines of its operations.
    fn take_event<const N: usize>(&mut self, event: Event, out: &mut Page<N>) -> bool
        requires aligned { HasAlignment event }
        requires room { length out.old + 128 ≤ N }
        ensures { AppendsEvent scripting self.old event out.old out.new result self.new }
    {
        if !self.can_have(event) {
            self.progress = Progress::Stopped;
            return true;
        }
        self.take_possible(event, out)
    }

    /// Takes an event that a script can have, and appends the lines of its operations.
    fn take_possible<const N: usize>(&mut self, event: Event, out: &mut Page<N>) -> bool
        requires aligned { HasAlignment event }
        requires can { can_have self.old event ≡ true }
        requires room { length out.old + 128 ≤ N }
        ensures { AppendsEvent scripting self.old event out.old out.new result self.new }
    {
        let Ok((outcome, deeds)) = self.happen(event) else {
            self.progress = Progress::OutOfMemory;
            return false;
        };
        if self.write(deeds, out).is_err() {
            self.progress = Progress::OutOfMemory;
            return false;
        }
        let is_refused = outcome.is_refused();
        self.progress = self.reading.progress_after(is_refused);
        is_refused
    }

    /// Has an event happen to the heap, and returns its outcome and what it did.
    #[tactic(auto, using(crate::proofs::ScriptLemmas::failed_kept))]
    fn happen(&mut self, event: Event) -> Result<(Outcome, Deeds), AllocError>
        requires aligned { HasAlignment event }
        requires can { can_have self.old event ≡ true }
        ensures is_event { IfOk result (λ found. IsEvent self.old.heap event found.0 self.new.heap) }
        ensures does { IfOk result (λ found. DoesDeeds self.old.heap found.1 self.new.heap) }
        ensures few { IfOk result (λ found. found.1.sweeps ≤ 2) }
        ensures made { IfOk result (λ found. IfSome found.1.made (λ _. self.old.ids.made < most_objects)) }
        ensures rest { self.new ≡ record self.old { heap = self.new.heap } }
    {
        let sweeps = self.heap.totals().sweeps;
        let outcome = self.heap.event(event)?;
        let more = self.heap.totals().sweeps.saturating_sub(sweeps);
        Ok((
            outcome,
            deeds_of(event, outcome, more, self.is_swept_clean()),
        ))
    }

    /// Appends the lines of deeds, and gives the object that was made its number.
    ///
    /// On `Err` nothing is appended.
    fn write<const N: usize>(&mut self, deeds: Deeds, out: &mut Page<N>) -> Result<(), AllocError>
        requires room { length out.old + 128 ≤ N }
        requires few { deeds.sweeps ≤ 2 }
        requires made { IfSome deeds.made (λ _. self.old.ids.made < most_objects) }
        ensures lines { OnOk result (out.new ≡ out.old ++ operation_lines
            (deed_operations self.old.heap.settings.policy (numbers_of self.old.ids) deeds)) }
        ensures ids { OnOk result (numbers_of self.new.ids ≡ numbers_with (numbers_of self.old.ids) deeds.made) }
        ensures rest { self.new ≡ record self.old { ids = self.new.ids } }
        ensures nothing { OnErr result (out.new ≡ out.old) }
    {
        let cleared = self.ids.number_in(deeds.cleared);
        let freed = self.ids.number_in(deeds.freed);
        self.ids.note(deeds.made)?;
        push_deeds(out, self.heap.settings().policy, cleared, freed, deeds);
        Ok(())
    }

    /// Returns whether a script can have the changes of an event.
    fn can_have(&self, event: Event) -> bool
        ensures { result ≡ can_have self.now event }
    {
        asks_for_unit(self.heap.settings().align, event)
            && (asked_entry(event).is_none() || self.ids.made() < MOST_OBJECTS)
            && self.heap.totals().sweeps < MOST_SWEEPS
    }

    /// Returns whether the quarantine is empty and the policy has one.
    fn is_swept_clean(&self) -> bool
        ensures { result ≡ is_swept_clean self.now.heap }
    {
        !self.heap.settings().policy.is_immediate() && self.heap.usage().quarantine == 0
    }
}

impl<P: Placer, const N: usize> Answerer<N> for Script<P> {
    ghost Answered = { ScriptsLine };

    ghost Ended = { ScriptsRest };

    ghost MOST = { 128 };

    ghost done = { λ script. is_over script.progress };

    #[inline(always)]
    fn is_done(&self) -> bool {
        self.progress.is_over()
    }

    #[inline(always)]
    fn most() -> usize {
        128
    }

    #[tactic(auto, using(crate::proofs::ScriptLemmas::line_scripted))]
    fn answer(&mut self, line: &[u8], out: &mut Page<N>) -> bool {
        let entry = read_entry(self.reading.format, self.pending, line);
        self.take_entry(entry, out)
    }

    #[tactic(auto, using(crate::proofs::ScriptLemmas::rest_scripted))]
    fn end(&mut self, _rest: &[u8], _out: &mut Page<N>) -> bool {
        self.refuse()
    }
}

/// Takes the lines of the trace that the source gives, and writes the script to the sink.
///
/// The script has the operations of all changes of the heap, a line each. It ends before the first event
/// that no script can have: one that requests a larger alignment than the unit of its object, or one
/// object more than 65,533, or that comes after 2^64 - 4 sweeps. That line is refused.
///
/// If an allocation fails, [`Script::progress`] says so. After such a line nothing is taken, and the source
/// is read no further. It is read in chunks of up to 16 KiB. Before each read, the lines of earlier events
/// are written. The sink is flushed once, at the end. No clause says that the source is read no further:
/// `tests/program` shows it.
///
/// Requires: neither the source nor the sink has failed; the script takes lines.
/// Errors: `Read` if and only if the source failed. `Write` if and only if the sink failed.
pub fn script_trace<P: Placer, R: Source, W: Sink>(
    script: &mut Script<P>,
    source: &mut R,
    sink: &mut W,
) -> Result<Summary, IoError>
    requires source { (R.state source.old).has_failed ≡ false }
    requires sink { (W.state sink.old).has_failed ≡ false }
    requires goes_on { is_over script.old.progress ≡ false }
    ensures scripts { Pumps (λ state. is_over state.progress) ScriptsLine ScriptsRest lines 65536 128 script.old []
        (R.state source.old).unread (R.state source.new).unread (W.state sink.old).taken (W.state sink.new).taken
        result script.new }
    ensures outcome { IsOutcome (R.state source.new) (W.state sink.new) result }
{
    let mut page = Pending::new();
    pump(&Lines, script, source, sink, &mut page)
}
