//! `map`: the drawing of a pool at the end of a script.
ghost use Rattle.std.specs.Prelude.{◌≡◌, ◌≢◌, ◌≤◌, ◌∷◌, ◌↔◌, ◌⊎◌, false, true, Err, IfErr, IsOk, OnOk};
ghost use Rattle.cc_machine.specs.State.{initial_state};
ghost use Rattle.cc_syntax.specs.Planning.{pool_of};
ghost use Rattle.cc_io.specs.Devices.{OutputState};
ghost use Rattle.cli.specs.Devices.{FromInput, IsEnd, OnDevices, OnOutput, traffic_on};
ghost use Rattle.cli.specs.Input.{IsFile, file_input};
ghost use Rattle.cli_program.specs.Runs.{DrawsPool, DrawsRun, MapsFile};

use crate::memory::RunMemory;
use crate::refusals::refuse;
use cc_bounds::Align;
use cc_draw::{show_drawing, show_map};
use cc_io::{Pending, Sink, Source, Summary};
use cc_machine::{Machine, Op};
use cc_script::{Session, run_session};
use cc_syntax::{Tally, plan_numbers, plan_opening, show_statistics};
use cli::{Content, Discard, Fault, InputName, Inputs, PoolTexts, file_input};

/// Runs the script that FILE names on a new machine with a pool, without writing the replies, and draws the pool: as an
/// SVG document, or as a map with the statistics of the run. BASE and LENGTH are read first. If one is refused, the
/// output is that refusal, and nothing is read.
///
/// Requires: `limit` is from 1 to 65,536, and no device has failed.
/// Errors: `Memory` if an allocation fails; `Open` if the input cannot be opened; `Read` if a read fails; `Write` if
/// and only if the sink failed. Nothing was written if the error is `Memory` or `Open`.
pub fn map_file<M: RunMemory, I: Inputs, W: Sink>(
    memory: &mut M,
    limit: u32,
    pool: PoolTexts<'_>,
    align: Align,
    svg: bool,
    inputs: &mut I,
    source: &mut I::Opened,
    file: Option<&str>,
    sink: &mut W,
) -> Result<Summary, Fault>
    requires from_one { 1 ≤ limit }
    requires at_most { limit ≤ 65536 }
    requires memory { M.has_failed memory.old ≡ false }
    requires source { (I.Opened.state source.old).has_failed ≡ false }
    requires inputs { I.has_refused inputs.old ≡ false }
    requires sink { (W.state sink.old).has_failed ≡ false }
    ensures executes { OnOutput (I.bytes_of inputs.old) (I.Opened.state source.new) (W.state sink.old)
        (W.state sink.new)
        (MapsFile limit pool.entry align svg file.entry) result }
    ensures memory { result ≡ Err Fault.Memory → IsOk (pool_of pool.entry.base.now pool.entry.length.now) }
    ensures open { result ≡ Err Fault.Open → IsFile (file_input file.entry) }
    ensures starved { result ≡ Err Fault.Memory → (W.state sink.new).taken ≡ (W.state sink.old).taken }
    ensures asked { (before : _) → I.requested inputs.old before ≡ true
        → I.requested inputs.new ((file_input file.entry, Content.Pool) ∷ before) ≡ false
        → (inputs.new ≡ inputs.old) × (source.new ≡ source.old) }
    ensures unused { ¬ IsOk (pool_of pool.entry.base.now pool.entry.length.now) → (inputs.new ≡ inputs.old)
        × (source.new ≡ source.old) }
    ensures allocates { (result ≡ Err Fault.Memory) ↔ (M.has_failed memory.new ≡ true) }
    ensures end { IsEnd (I.has_refused inputs.new) (I.Opened.state source.new) (W.state sink.old) (W.state sink.new)
        result }
{
    match plan_numbers(pool.base.as_bytes(), pool.length.as_bytes()) {
        Ok((base, length)) => {
            let opening = plan_opening(base, length, align);
            draw(
                memory,
                limit,
                &opening,
                svg,
                inputs,
                source,
                file_input(file),
                sink,
            )
        }
        Err(refusal) => refuse(refusal, sink),
    }
}

/// Runs a script on a new machine without writing the replies, and draws the pool if the script came to its end.
// not inlined, so that other commands do not touch the pages of its buffers on the stack
#[inline(never)]
fn draw<M: RunMemory, I: Inputs, W: Sink>(
    memory: &mut M,
    limit: u32,
    opening: &[Op],
    svg: bool,
    inputs: &mut I,
    source: &mut I::Opened,
    input: InputName<'_>,
    sink: &mut W,
) -> Result<Summary, Fault>
    requires from_one { 1 ≤ limit }
    requires at_most { limit ≤ 65536 }
    requires memory { M.has_failed memory.old ≡ false }
    requires source { (I.Opened.state source.old).has_failed ≡ false }
    requires inputs { I.has_refused inputs.old ≡ false }
    requires sink { (W.state sink.old).has_failed ≡ false }
    ensures draws { OnOutput (I.bytes_of inputs.old) (I.Opened.state source.new) (W.state sink.old) (W.state sink.new)
        (λ console. FromInput input.entry console (DrawsRun svg opening.now (initial_state limit))) result }
    ensures open { result ≡ Err Fault.Open → IsFile input.entry }
    ensures starved { result ≡ Err Fault.Memory → (W.state sink.new).taken ≡ (W.state sink.old).taken }
    ensures asked { (before : _) → I.requested inputs.old before ≡ true
        → I.requested inputs.new ((input.entry, Content.Pool) ∷ before) ≡ false
        → (inputs.new ≡ inputs.old) × (source.new ≡ source.old) }
    ensures allocates { (result ≡ Err Fault.Memory) ↔ (M.has_failed memory.new ≡ true) }
    ensures end { IsEnd (I.has_refused inputs.new) (I.Opened.state source.new) (W.state sink.old) (W.state sink.new)
        result }
{
    let mut machine = memory.machine(limit)?;
    let drawn = open_and_draw(
        memory,
        opening,
        svg,
        &mut machine,
        inputs,
        source,
        input,
        sink,
    );
    // by a call, as in `runs`
    drop(machine);
    drawn
}

/// Opens an input, runs the script that it has without writing the replies, and draws the pool if the script came to
/// its end.
fn open_and_draw<M: RunMemory, I: Inputs, W: Sink>(
    memory: &mut M,
    opening: &[Op],
    svg: bool,
    machine: &mut Machine,
    inputs: &mut I,
    source: &mut I::Opened,
    input: InputName<'_>,
    sink: &mut W,
) -> Result<Summary, Fault>
    requires memory { M.has_failed memory.old ≡ false }
    requires source { (I.Opened.state source.old).has_failed ≡ false }
    requires inputs { I.has_refused inputs.old ≡ false }
    requires sink { (W.state sink.old).has_failed ≡ false }
    ensures draws { OnOutput (I.bytes_of inputs.old) (I.Opened.state source.new) (W.state sink.old) (W.state sink.new)
        (λ console. FromInput input.entry console (DrawsRun svg opening.now machine.old)) result }
    ensures open { result ≡ Err Fault.Open → IsFile input.entry }
    ensures starved { result ≡ Err Fault.Memory → (W.state sink.new).taken ≡ (W.state sink.old).taken }
    ensures asked { (before : _) → I.requested inputs.old before ≡ true
        → I.requested inputs.new ((input.entry, Content.Pool) ∷ before) ≡ false
        → (inputs.new ≡ inputs.old) × (source.new ≡ source.old) }
    ensures allocates { (result ≡ Err Fault.Memory) ↔ (M.has_failed memory.new ≡ true) }
    ensures end { IsEnd (I.has_refused inputs.new) (I.Opened.state source.new) (W.state sink.old) (W.state sink.new)
        result }
{
    inputs.open(input, Content::Pool, source)?;
    draw_end(memory, opening, svg, machine, source, sink)
}

/// Runs a script without writing the replies, and draws the pool if the script came to its end: an SVG document, or a
/// map and the statistics of the run.
fn draw_end<M: RunMemory, S: Source, W: Sink>(
    memory: &mut M,
    opening: &[Op],
    svg: bool,
    machine: &mut Machine,
    source: &mut S,
    sink: &mut W,
) -> Result<Summary, Fault>
    requires memory { M.has_failed memory.old ≡ false }
    requires source { (S.state source.old).has_failed ≡ false }
    requires sink { (W.state sink.old).has_failed ≡ false }
    ensures draws { (errors errors_now : OutputState) → OnDevices (DrawsRun svg opening.now machine.old
        (traffic_on (S.state source.old) (S.state source.new) (W.state sink.old) (W.state sink.new) errors errors_now))
        result }
    ensures open { result ≢ Err Fault.Open }
    ensures starved { result ≡ Err Fault.Memory → (W.state sink.new).taken ≡ (W.state sink.old).taken }
    ensures read { (result ≡ Err Fault.Read) ↔ ((S.state source.new).has_failed ≡ true) }
    ensures allocates { (result ≡ Err Fault.Memory) ↔ (M.has_failed memory.new ≡ true) }
    ensures write { (result ≡ Err Fault.Write) ↔ ((W.state sink.new).has_failed ≡ true) }
    ensures flushed { OnOk result ((W.state sink.new).is_flushed ≡ true) }
{
    let mut session = Session {
        machine,
        tally: Tally::new(),
    };
    let mut page = Pending::new();
    let summary = run_session(opening, &mut session, source, &mut Discard, &mut page)?;
    draw_pool(memory, svg, &session, sink)?;
    Ok(summary)
}

/// Draws the pool of a session: as an SVG document, or as a map with the statistics of the run.
///
/// Errors: `Memory` if an allocation fails, and nothing was written then; `Write` if and only if the sink failed.
fn draw_pool<M: RunMemory, W: Sink>(
    memory: &mut M,
    svg: bool,
    session: &Session<'_>,
    sink: &mut W,
) -> Result<(), Fault>
    requires memory { M.has_failed memory.old ≡ false }
    requires sink { (W.state sink.old).has_failed ≡ false }
    ensures drawn { OnOk result (DrawsPool svg session.now (W.state sink.old).taken (W.state sink.new).taken) }
    ensures fails { IfErr result (λ fault. (fault ≡ Fault.Memory) ⊎ (fault ≡ Fault.Write)) }
    ensures starved { result ≡ Err Fault.Memory → (W.state sink.new).taken ≡ (W.state sink.old).taken }
    ensures allocates { (result ≡ Err Fault.Memory) ↔ (M.has_failed memory.new ≡ true) }
    ensures write { (result ≡ Err Fault.Write) ↔ ((W.state sink.new).has_failed ≡ true) }
    ensures flushed { OnOk result ((W.state sink.new).is_flushed ≡ true) }
{
    if svg {
        show_drawing(session.machine.planner(), sink)?;
    } else {
        let usage = memory.usage(session.machine)?;
        show_map(session.machine.planner(), sink)?;
        show_statistics(&usage, &session.tally, sink)?;
    }
    Ok(())
}
