//! `run` and `plan`: the run of a script on a new machine, and its report.
ghost use Rattle.std.specs.Prelude.{◌≡◌, ◌≢◌, ◌≤◌, ◌∷◌, ◌↔◌, [], false, true, Err, IfOk, IsOk, None, OnErr, OnOk};
ghost use Rattle.cc_machine.specs.State.{initial_state};
ghost use Rattle.cc_syntax.specs.Planning.{plan_opening, pool_of};
ghost use Rattle.cli.specs.Devices.{FromInput, IsEnd, OnDevices, console_of, traffic_on};
ghost use Rattle.cli.specs.Input.{IsFile, file_input};
ghost use Rattle.cli_program.specs.Runs.{CompletesRun, PlansFile, ReportsRun, StarvesPlan, StarvesRun};

use crate::memory::RunMemory;
use crate::refusals::refuse;
use crate::report::{Report, write_report};
use cc_bounds::Align;
use cc_io::{Pending, Sink, Source, Summary};
use cc_machine::{Len, Machine, Op};
use cc_script::{Session, run_session};
use cc_syntax::{Tally, plan_numbers, plan_opening};
use cli::{Content, Fault, InputName, Inputs, PoolTexts, file_input};

/// Runs the script that FILE names on a new machine with at most `limit` slots and objects: writes the replies to
/// `sink`, and the report of a run that came to its end to `errors`.
///
/// Requires: `limit` is from 1 to 65,536, and no device has failed.
/// Errors: `Memory` if an allocation fails; `Open` if the input cannot be opened, and nothing was written then; `Read`
/// if a read fails; `Write` if and only if the sink failed. Nothing is reported then.
pub fn run_file<M: RunMemory, I: Inputs, W: Sink, E: Sink>(
    memory: &mut M,
    limit: u32,
    report: Report,
    inputs: &mut I,
    source: &mut I::Opened,
    file: Option<&str>,
    sink: &mut W,
    errors: &mut E,
) -> Result<Summary, Fault>
    requires from_one { 1 ≤ limit }
    requires at_most { limit ≤ 65536 }
    requires memory { M.has_failed memory.old ≡ false }
    requires source { (I.Opened.state source.old).has_failed ≡ false }
    requires inputs { I.has_refused inputs.old ≡ false }
    requires sink { (W.state sink.old).has_failed ≡ false }
    requires errors { (E.state errors.old).has_failed ≡ false }
    ensures executes { OnDevices (FromInput (file_input file.entry)
        (console_of (I.bytes_of inputs.old) (I.Opened.state source.new) (W.state sink.old) (W.state sink.new)
        (E.state errors.old) (E.state errors.new)) (ReportsRun report [] None (initial_state limit))) result }
    ensures open { result ≡ Err Fault.Open → IsFile (file_input file.entry) }
    ensures asked { (before : _) → I.requested inputs.old before ≡ true
        → I.requested inputs.new ((file_input file.entry, Content.Script) ∷ before) ≡ false
        → (inputs.new ≡ inputs.old) × (source.new ≡ source.old) }
    ensures allocates { (result ≡ Err Fault.Memory) ↔ (M.has_failed memory.new ≡ true) }
    ensures starved { result ≡ Err Fault.Memory → StarvesRun report [] (initial_state limit) (file_input file.entry)
        (console_of (I.bytes_of inputs.old) (I.Opened.state source.new) (W.state sink.old) (W.state sink.new)
        (E.state errors.old) (E.state errors.new)) }
    ensures end { IsEnd (I.has_refused inputs.new) (I.Opened.state source.new) (W.state sink.old) (W.state sink.new)
        result }
    ensures unreported { OnErr result ((E.state errors.new).taken ≡ (E.state errors.old).taken) }
{
    let input = file_input(file);
    run(
        memory,
        limit,
        &[],
        None,
        inputs,
        source,
        input,
        report,
        sink,
        errors,
    )
}

/// Runs the script that FILE names as [`run_file`] does, on a new machine with a pool. BASE and LENGTH are read first.
/// If one is refused, the output is that refusal, and nothing is read.
///
/// Requires: `limit` is from 1 to 65,536, and no device has failed.
/// Errors: those of [`run_file`].
pub fn plan_file<M: RunMemory, I: Inputs, W: Sink, E: Sink>(
    memory: &mut M,
    limit: u32,
    pool: PoolTexts<'_>,
    align: Align,
    report: Report,
    inputs: &mut I,
    source: &mut I::Opened,
    file: Option<&str>,
    sink: &mut W,
    errors: &mut E,
) -> Result<Summary, Fault>
    requires from_one { 1 ≤ limit }
    requires at_most { limit ≤ 65536 }
    requires memory { M.has_failed memory.old ≡ false }
    requires source { (I.Opened.state source.old).has_failed ≡ false }
    requires inputs { I.has_refused inputs.old ≡ false }
    requires sink { (W.state sink.old).has_failed ≡ false }
    requires errors { (E.state errors.old).has_failed ≡ false }
    ensures executes { OnDevices (PlansFile report limit pool.entry align file.entry
        (console_of (I.bytes_of inputs.old) (I.Opened.state source.new) (W.state sink.old) (W.state sink.new)
        (E.state errors.old) (E.state errors.new))) result }
    ensures open { result ≡ Err Fault.Open → IsFile (file_input file.entry) }
    ensures asked { (before : _) → I.requested inputs.old before ≡ true
        → I.requested inputs.new ((file_input file.entry, Content.Script) ∷ before) ≡ false
        → (inputs.new ≡ inputs.old) × (source.new ≡ source.old) }
    ensures unused { ¬ IsOk (pool_of pool.entry.base.now pool.entry.length.now) → (inputs.new ≡ inputs.old)
        × (source.new ≡ source.old) }
    ensures allocates { (result ≡ Err Fault.Memory) ↔ (M.has_failed memory.new ≡ true) }
    ensures starved { result ≡ Err Fault.Memory → StarvesPlan report limit pool.entry align file.entry
        (console_of (I.bytes_of inputs.old) (I.Opened.state source.new) (W.state sink.old) (W.state sink.new)
        (E.state errors.old) (E.state errors.new)) }
    ensures end { IsEnd (I.has_refused inputs.new) (I.Opened.state source.new) (W.state sink.old) (W.state sink.new)
        result }
    ensures unreported { OnErr result ((E.state errors.new).taken ≡ (E.state errors.old).taken) }
    ensures silent { ¬ IsOk (pool_of pool.entry.base.now pool.entry.length.now) → errors.new ≡ errors.old }
{
    match plan_numbers(pool.base.as_bytes(), pool.length.as_bytes()) {
        Ok((base, length)) => {
            let opening = plan_opening(base, length, align);
            run(
                memory,
                limit,
                &opening,
                Some(length),
                inputs,
                source,
                file_input(file),
                report,
                sink,
                errors,
            )
        }
        Err(refusal) => refuse(refusal, sink),
    }
}

/// Runs a script on a new machine, and reports the run if it came to its end. `pool` is the length of the pool that the
/// opening requests, for a hint alone.
// not inlined, so that other commands do not touch the pages of its buffers on the stack
#[inline(never)]
fn run<M: RunMemory, I: Inputs, W: Sink, E: Sink>(
    memory: &mut M,
    limit: u32,
    opening: &[Op],
    pool: Option<Len>,
    inputs: &mut I,
    source: &mut I::Opened,
    input: InputName<'_>,
    report: Report,
    sink: &mut W,
    errors: &mut E,
) -> Result<Summary, Fault>
    requires from_one { 1 ≤ limit }
    requires at_most { limit ≤ 65536 }
    requires memory { M.has_failed memory.old ≡ false }
    requires source { (I.Opened.state source.old).has_failed ≡ false }
    requires inputs { I.has_refused inputs.old ≡ false }
    requires sink { (W.state sink.old).has_failed ≡ false }
    requires errors { (E.state errors.old).has_failed ≡ false }
    ensures runs { OnDevices (FromInput input.entry
        (console_of (I.bytes_of inputs.old) (I.Opened.state source.new) (W.state sink.old) (W.state sink.new)
        (E.state errors.old) (E.state errors.new)) (ReportsRun report opening.now pool (initial_state limit)))
        result }
    ensures open { result ≡ Err Fault.Open → IsFile input.entry }
    ensures asked { (before : _) → I.requested inputs.old before ≡ true
        → I.requested inputs.new ((input.entry, Content.Script) ∷ before) ≡ false
        → (inputs.new ≡ inputs.old) × (source.new ≡ source.old) }
    ensures allocates { (result ≡ Err Fault.Memory) ↔ (M.has_failed memory.new ≡ true) }
    ensures starved { result ≡ Err Fault.Memory → StarvesRun report opening.now (initial_state limit) input.entry
        (console_of (I.bytes_of inputs.old) (I.Opened.state source.new) (W.state sink.old) (W.state sink.new)
        (E.state errors.old) (E.state errors.new)) }
    ensures end { IsEnd (I.has_refused inputs.new) (I.Opened.state source.new) (W.state sink.old) (W.state sink.new)
        result }
    ensures unreported { OnErr result ((E.state errors.new).taken ≡ (E.state errors.old).taken) }
{
    let mut machine = memory.machine(limit)?;
    let ran = open_and_run(
        memory,
        opening,
        pool,
        report,
        &mut machine,
        inputs,
        source,
        input,
        sink,
        errors,
    );
    // the compiler would write the drop out here: by a call, it is proved once for all that end with a machine
    drop(machine);
    ran
}

/// Opens an input, runs the script that it has, and reports the run if it came to its end.
fn open_and_run<M: RunMemory, I: Inputs, W: Sink, E: Sink>(
    memory: &mut M,
    opening: &[Op],
    pool: Option<Len>,
    report: Report,
    machine: &mut Machine,
    inputs: &mut I,
    source: &mut I::Opened,
    input: InputName<'_>,
    sink: &mut W,
    errors: &mut E,
) -> Result<Summary, Fault>
    requires memory { M.has_failed memory.old ≡ false }
    requires source { (I.Opened.state source.old).has_failed ≡ false }
    requires inputs { I.has_refused inputs.old ≡ false }
    requires sink { (W.state sink.old).has_failed ≡ false }
    requires errors { (E.state errors.old).has_failed ≡ false }
    ensures runs { OnDevices (FromInput input.entry
        (console_of (I.bytes_of inputs.old) (I.Opened.state source.new) (W.state sink.old) (W.state sink.new)
        (E.state errors.old) (E.state errors.new)) (ReportsRun report opening.now pool machine.old))
        result }
    ensures open { result ≡ Err Fault.Open → IsFile input.entry }
    ensures asked { (before : _) → I.requested inputs.old before ≡ true
        → I.requested inputs.new ((input.entry, Content.Script) ∷ before) ≡ false
        → (inputs.new ≡ inputs.old) × (source.new ≡ source.old) }
    ensures allocates { (result ≡ Err Fault.Memory) ↔ (M.has_failed memory.new ≡ true) }
    ensures starved { result ≡ Err Fault.Memory → StarvesRun report opening.now machine.old input.entry
        (console_of (I.bytes_of inputs.old) (I.Opened.state source.new) (W.state sink.old) (W.state sink.new)
        (E.state errors.old) (E.state errors.new)) }
    ensures end { IsEnd (I.has_refused inputs.new) (I.Opened.state source.new) (W.state sink.old) (W.state sink.new)
        result }
    ensures unreported { OnErr result ((E.state errors.new).taken ≡ (E.state errors.old).taken) }
{
    inputs.open(input, Content::Script, source)?;
    run_and_report(memory, opening, pool, report, machine, source, sink, errors)
}

/// Runs a script, and reports the run if it came to its end.
fn run_and_report<M: RunMemory, S: Source, W: Sink, E: Sink>(
    memory: &mut M,
    opening: &[Op],
    pool: Option<Len>,
    report: Report,
    machine: &mut Machine,
    source: &mut S,
    sink: &mut W,
    errors: &mut E,
) -> Result<Summary, Fault>
    requires memory { M.has_failed memory.old ≡ false }
    requires source { (S.state source.old).has_failed ≡ false }
    requires sink { (W.state sink.old).has_failed ≡ false }
    requires errors { (E.state errors.old).has_failed ≡ false }
    ensures runs { OnDevices (ReportsRun report opening.now pool machine.old
        (traffic_on (S.state source.old) (S.state source.new) (W.state sink.old) (W.state sink.new) (E.state errors.old)
        (E.state errors.new))) result }
    ensures open { result ≢ Err Fault.Open }
    ensures read { (result ≡ Err Fault.Read) ↔ ((S.state source.new).has_failed ≡ true) }
    ensures allocates { (result ≡ Err Fault.Memory) ↔ (M.has_failed memory.new ≡ true) }
    ensures write { (result ≡ Err Fault.Write) ↔ ((W.state sink.new).has_failed ≡ true) }
    ensures starved { result ≡ Err Fault.Memory → (report.stats ≡ true) × CompletesRun opening.now machine.old
        (traffic_on (S.state source.old) (S.state source.new) (W.state sink.old) (W.state sink.new) (E.state errors.old)
        (E.state errors.new)) }
    ensures flushed { OnOk result ((W.state sink.new).is_flushed ≡ true) }
    ensures unreported { OnErr result ((E.state errors.new).taken ≡ (E.state errors.old).taken) }
{
    let mut session = Session {
        machine,
        tally: Tally::new(),
    };
    let mut page = Pending::new();
    let summary = run_session(opening, &mut session, source, sink, &mut page)?;
    write_report(memory, &session, pool, report, errors)?;
    Ok(summary)
}
