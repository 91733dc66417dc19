//! The heap and the reading that the arguments of `replay` request.
ghost use Rattle.std.specs.Prelude.{◌≡◌, ◌≤◌, [], length, Err, IfOk, MatchResult, Ok, Some};
ghost use Rattle.cc_replay.specs.PolicyText.{policy_in};
ghost use Rattle.cc_bounds.specs.Span.{IsSpan};
ghost use Rattle.cli.specs.declared.invocation.ReplayOutput.TheVariants.{Script};
ghost use Rattle.cc_heap.specs.declared.reallocation.Reallocation.TheVariants.{Move};
ghost use Rattle.cli_replay.specs.ReplayValues.{
  each_given,
  first_policy,
  format_in,
  trace_format_named,
  in_output,
  in_summary,
  least_in,
  one_more,
  others_given,
  pieces_of,
  policies_after,
  reading_in,
  realloc_given,
  realloc_named,
  replay_in,
  settings_in,
  span_given,
  span_in,
  sweep_given,
};
ghost use Rattle.cli_replay.specs.Settings.{IsForHeap};

use cc_bounds::Span;
use cc_replay::{Policy, Reading, Reallocation, Settings, Share, TraceFormat, read_policy};
use cc_syntax::read_request;
use cc_values::{both, read_address, split_at_first};
use cc_word::Refusal;
use cli::{ReplayOutput, ReplayValues};
use std::marker::Model;

/// The maximum number of policies after the first.
const MOST_OTHERS: usize = 7;

/// The maximum number of spans that a heap holds.
const MOST_HELD: u32 = 1 << 24;

/// The pool if `--pool` is not given.
const ALL_ABOVE: Span = Span {
    base: 1 << 44,
    top: 1 << 64,
};

/// The request of the values of `replay`.
#[derive(Drop)]
pub struct ReplayRequest<'a> {
    /// The output.
    pub output: ReplayOutput<'a>,
    /// The settings of the heap with the first policy.
    pub settings: Settings,
    /// How the trace is read.
    pub reading: Reading,
    /// The policies of the other heaps.
    pub others: Policies,
}

/// At most seven policies.
#[derive(Drop)]
pub struct Policies {
    policies: [Policy; MOST_OTHERS],
    len: usize,
}

impl Model for Policies {
    ghost use Rattle.std.specs.Prelude.{List, ◌≤◌, take};
    ghost use Rattle.cc_heap.specs.declared.policy.Policy.{Policy};

    ghost Value = { List Policy };

    ghost view = { λ p. take p.len p.policies };

    ghost invariant = { λ p. p.len ≤ 7 };
}

impl Policies {
    /// Creates no policies.
    fn new() -> Self
        ensures { result ≡ [] }
    {
        Policies {
            policies: [Policy::Never; MOST_OTHERS],
            len: 0,
        }
    }

    /// Returns the policies.
    pub fn as_slice(&self) -> &[Policy]
        ensures value { result.now ≡ self.now }
        ensures few { length result.now ≤ 7 }
    {
        &self.policies[..self.len]
    }

    /// Adds a policy that is read, if there are fewer than seven.
    fn add(&mut self, text: &[u8]) -> Result<(), Refusal>
        ensures { MatchResult result (λ _. one_more self.old (policy_in text.now) ≡ Ok self.new)
            (λ refusal. one_more self.old (policy_in text.now) ≡ Err refusal) }
    {
        let policy = read_policy(text)?;
        if self.len >= MOST_OTHERS {
            return Err(Refusal::OutOfRange);
        }
        self.policies[self.len] = policy;
        self.len += 1;
        Ok(())
    }
}

/// Returns the request of the values.
///
/// Errors, in order: `Syntax` if a text is not a number, not a policy, not a pool or not one of the names, if two of
/// `--sizes`, `--svg`, `--script` and `--each` are given, or `--script` with `--realloc keep`, or several policies
/// with another output than the summary; `OutOfRange` if there are more than eight policies, or one after the first
/// has a number that is too large; `OutOfBounds` if the pool ends past 2^64; `OutOfRange` if another number is too
/// large, or that of `--each` is 0.
pub(crate) fn replay_of<'a>(values: ReplayValues<'a>) -> Result<ReplayRequest<'a>, Refusal>
    ensures value { result ≡ replay_in values.entry }
    ensures output { IfOk result (λ request. values.entry.output ≡ Some request.output) }
    ensures settings { IfOk result (λ request. IsForHeap request.settings) }
    ensures moves { values.entry.output ≡ Some Script → IfOk result (λ request. request.settings.realloc ≡ Move) }
{
    let others = others_of(values.output, values.sweep);
    let trace = both(values.output.ok_or(Refusal::Syntax), reading_of(values));
    // `both` joins values that can be copied, and `Policies` cannot
    match both(trace, settings_of(values)) {
        Ok(((output, reading), settings)) => match others {
            Ok(others) => Ok(ReplayRequest {
                output,
                settings,
                reading,
                others,
            }),
            Err(refusal) => Err(refusal),
        },
        Err(Refusal::Syntax) => Err(Refusal::Syntax),
        Err(refusal) => match others {
            Ok(_) => Err(refusal),
            Err(other) => Err(other),
        },
    }
}

/// Returns the settings of the heap with the first policy.
fn settings_of(values: ReplayValues<'_>) -> Result<Settings, Refusal>
    ensures value { result ≡ settings_in values.entry }
    ensures settings { IfOk result IsForHeap }
    ensures moves { values.entry.output ≡ Some Script → IfOk result (λ settings. settings.realloc ≡ Move) }
{
    let placing = both(
        pool_of(values.pool),
        realloc_of(values.output, values.realloc),
    );
    let sweeping = both(policy_of(values.sweep), least_of(values.least));
    match both(sweeping, placing) {
        Ok(((policy, least_quarantine), (pool, realloc))) => Ok(Settings {
            limit: MOST_HELD,
            pool,
            align: values.align,
            policy,
            least_quarantine,
            realloc,
        }),
        Err(refusal) => Err(refusal),
    }
}

/// Returns how the trace is read.
fn reading_of(values: ReplayValues<'_>) -> Result<Reading, Refusal>
    ensures { result ≡ reading_in values.entry }
{
    match both(format_of(values.format), each_of(values.output)) {
        Ok((format, each)) => Ok(Reading {
            format,
            is_strict: values.strict,
            each,
        }),
        Err(refusal) => Err(refusal),
    }
}

/// Returns the policies that `--sweep` names after the first.
pub(crate) fn others_of(
    output: Option<ReplayOutput<'_>>,
    text: Option<&str>,
) -> Result<Policies, Refusal>
    ensures { result ≡ others_given output.entry text.entry }
{
    let Some(text) = text else {
        return Ok(Policies::new());
    };
    let Some((_, names)) = split_at_first(text.as_bytes(), b',') else {
        return Ok(Policies::new());
    };
    in_summary(output, read_policies(names))
}

/// Returns policies, unless the output cannot have them.
fn in_summary(
    output: Option<ReplayOutput<'_>>,
    found: Result<Policies, Refusal>,
) -> Result<Policies, Refusal>
    ensures { result ≡ in_summary output.entry found }
{
    match output {
        Some(ReplayOutput::Summary(_)) => found,
        _ => Err(Refusal::Syntax),
    }
}

/// Parses policies with commas between.
fn read_policies(text: &[u8]) -> Result<Policies, Refusal>
    ensures { result ≡ policies_after (Ok []) (pieces_of text.now) }
{
    let mut policies = Policies::new();
    let mut rest = text;
    'names: while let Some((name, after)) = split_at_first(rest, b',') {
        policies.add(name)?;
        rest = after;
    }
    policies.add(rest)?;
    Ok(policies)
}

/// Returns the policy that `--sweep` names first, or 25 percent of the held bytes.
pub(crate) fn policy_of(text: Option<&str>) -> Result<Policy, Refusal>
    ensures { result ≡ sweep_given text.entry }
{
    match text {
        Some(text) => read_policy(first_name(text.as_bytes())),
        None => Ok(Policy::Percent {
            percent: 25,
            of: Share::Held,
        }),
    }
}

/// Returns the bytes before the first comma, or all if there is none.
fn first_name(text: &[u8]) -> &[u8]
    ensures { first_policy (pieces_of text.now) ≡ policy_in result.now }
{
    match split_at_first(text, b',') {
        Some((name, _)) => name,
        None => text,
    }
}

/// Returns the number of quarantined bytes that `--min` gives, or 0.
pub(crate) fn least_of(text: Option<&str>) -> Result<u64, Refusal>
    ensures { result ≡ least_in text.entry }
{
    match text {
        Some(text) => read_address(text.as_bytes()),
        None => Ok(0),
    }
}

/// Returns the number of events from one sample of a series to the next, if the output is a series.
pub(crate) fn each_of(output: Option<ReplayOutput<'_>>) -> Result<Option<u64>, Refusal>
    ensures { result ≡ each_given output.entry }
{
    match output {
        Some(ReplayOutput::Series(text)) => match read_address(text.as_bytes()) {
            Ok(0) => Err(Refusal::OutOfRange),
            Ok(each) => Ok(Some(each)),
            Err(refusal) => Err(refusal),
        },
        _ => Ok(None),
    }
}

/// Returns the format of the trace that `--format` names, or the crate's own.
pub(crate) fn format_of(text: Option<&str>) -> Result<TraceFormat, Refusal>
    ensures { result ≡ format_in text.entry }
{
    match text {
        Some(text) => read_format(text.as_bytes()),
        None => Ok(TraceFormat::Own),
    }
}

/// Parses the name of a format.
fn read_format(name: &[u8]) -> Result<TraceFormat, Refusal>
    ensures { result ≡ trace_format_named name.now }
{
    if name == b"own".as_slice() {
        Ok(TraceFormat::Own)
    } else if name == b"mtrace".as_slice() {
        Ok(TraceFormat::Mtrace)
    } else if name == b"heaptrack".as_slice() {
        Ok(TraceFormat::Heaptrack)
    } else if name == b"ltrace".as_slice() {
        Ok(TraceFormat::Ltrace)
    } else {
        Err(Refusal::Syntax)
    }
}

/// Returns the effect of a reallocation that `--realloc` names, or that it moves the object. `--script` excludes
/// `keep`.
pub(crate) fn realloc_of(
    output: Option<ReplayOutput<'_>>,
    text: Option<&str>,
) -> Result<Reallocation, Refusal>
    ensures value { result ≡ realloc_given output.entry text.entry }
    ensures moves { output.entry ≡ Some Script → IfOk result (λ realloc. realloc ≡ Move) }
{
    match text {
        Some(text) => in_output(output, read_realloc(text.as_bytes())),
        None => Ok(Reallocation::Move),
    }
}

/// Returns an effect, unless the output cannot have it.
fn in_output(
    output: Option<ReplayOutput<'_>>,
    found: Result<Reallocation, Refusal>,
) -> Result<Reallocation, Refusal>
    ensures value { result ≡ in_output output.entry found }
    ensures moves { output.entry ≡ Some Script → IfOk result (λ realloc. realloc ≡ Move) }
{
    match (output, found) {
        (Some(ReplayOutput::Script), Ok(Reallocation::Keep)) => Err(Refusal::Syntax),
        (_, found) => found,
    }
}

/// Parses the name of the effect of a reallocation.
fn read_realloc(name: &[u8]) -> Result<Reallocation, Refusal>
    ensures { result ≡ realloc_named name.now }
{
    if name == b"move".as_slice() {
        Ok(Reallocation::Move)
    } else if name == b"keep".as_slice() {
        Ok(Reallocation::Keep)
    } else {
        Err(Refusal::Syntax)
    }
}

/// Returns the pool that `--pool` gives, or all bytes at or above 2^44.
pub(crate) fn pool_of(text: Option<&str>) -> Result<Span, Refusal>
    ensures value { result ≡ span_given text.entry }
    ensures pool { IfOk result IsSpan }
{
    match text {
        Some(text) => read_pool(text),
        None => Ok(ALL_ABOVE),
    }
}

/// Parses a base and a length with a colon between.
fn read_pool(text: &str) -> Result<Span, Refusal>
    ensures value { result ≡ span_in text.now }
    ensures pool { IfOk result IsSpan }
{
    match text.split_once(':') {
        Some((base, length)) => read_request(base, length),
        None => Err(Refusal::Syntax),
    }
}
