//! The errors of values of `replay` that are refused, as errors of clap's.
ghost use Rattle.std.specs.Prelude.{◌≡◌, IfOk, is_ok};
ghost use Rattle.clap.specs.Words.{FailsBy, kind_of};
ghost use Rattle.cli.specs.Invocation.{kinds_in, value_mistake};
ghost use Rattle.cli_replay.specs.ReplayValues.{replay_in};

use crate::replay_values::{
    each_of, format_of, least_of, others_of, policy_of, pool_of, realloc_of, replay_of,
};
use clap::Error;
use clap::error::ErrorKind;
use cli::{ReplayOutput, ReplayValues, SummaryFormat, error_with_usage};
use std::alloc::{AllocError, Global};

const USAGE: &str = "cheri-cap replay [OPTIONS] [FILE]";

/// A value that is not of its form.
#[derive(Clone, Copy)]
struct WrongValue<'a> {
    value: &'a str,
    option: &'a str,
    form: &'a str,
}

/// Checks that each text is of its form, and that they go together.
///
/// Errors: they are not, or an allocation fails.
pub(crate) fn check_values(alloc: Global, values: ReplayValues<'_>) -> Result<(), Error>
    ensures { FailsBy (kinds_in (value_mistake (is_ok (replay_in values.entry)))) result }
{
    match replay_of(values) {
        Ok(_) => Ok(()),
        Err(_) => Err(mistake(alloc, values)?),
    }
}

/// Returns the error that names the first option whose text is refused, and its forms.
fn mistake(alloc: Global, values: ReplayValues<'_>) -> Result<Error, AllocError>
    ensures { IfOk result (λ error. kind_of error ≡ ErrorKind.ValueValidation) }
{
    let message = message_of(alloc, values)?;
    error_with_usage(alloc, USAGE, ErrorKind::ValueValidation, message.as_str())
}

fn message_of(alloc: Global, values: ReplayValues<'_>) -> Result<String, AllocError> {
    match wrong_value(values) {
        Some(wrong) => {
            let (value, option, form) = (wrong.value, wrong.option, wrong.form);
            format!(in alloc; "invalid value '{value}' for '--{option}': {form}")
        }
        None => String::from_str(alloc, wrong_choice(values)),
    }
}

/// Returns the first value that is not of its form.
fn wrong_value<'a>(values: ReplayValues<'a>) -> Option<WrongValue<'a>> {
    let summary = Some(ReplayOutput::Summary(SummaryFormat::Text));
    let each = match values.output {
        Some(ReplayOutput::Series(each)) => Some(each),
        _ => None,
    };
    if format_of(values.format).is_err() {
        wrong(
            values.format,
            "format <FORMAT>",
            "want own, mtrace, heaptrack or ltrace",
        )
    } else if realloc_of(summary, values.realloc).is_err() {
        wrong(values.realloc, "realloc <MODE>", "want move or keep")
    } else if policy_of(values.sweep).is_err() || others_of(summary, values.sweep).is_err() {
        wrong(
            values.sweep,
            "sweep <POLICY>",
            "want none, never, trace, N%, N%:live, N%:high, bytes:N or frees:N, or up to 8 of these \
             with commas between",
        )
    } else if least_of(values.least).is_err() {
        wrong(
            values.least,
            "min <BYTES>",
            "want a number below 2^64: decimal digits, or 0x and hexadecimal digits",
        )
    } else if pool_of(values.pool).is_err() {
        wrong(
            values.pool,
            "pool <BASE:LENGTH>",
            "want an address, a colon and a length, which together are at most 2^64",
        )
    } else if each_of(values.output).is_err() {
        wrong(
            each,
            "each <N>",
            "want a number from 1 to 2^64 - 1: decimal digits, or 0x and hexadecimal digits",
        )
    } else {
        None
    }
}

fn wrong<'a>(value: Option<&'a str>, option: &'a str, form: &'a str) -> Option<WrongValue<'a>> {
    match value {
        Some(value) => Some(WrongValue {
            value,
            option,
            form,
        }),
        None => None,
    }
}

/// Returns the message for values that do not go together.
fn wrong_choice<'a>(values: ReplayValues<'_>) -> &'a str {
    if values.output.is_none() {
        "give at most one of `--sizes`, `--svg`, `--script` and `--each N`"
    } else if others_of(values.output, values.sweep).is_err() {
        "give one policy to `--sweep` with `--sizes`, `--svg`, `--script` or `--each N`"
    } else {
        "`--script` cannot be used with `--realloc keep`"
    }
}
