//! The errors of values that clap accepts, as errors of clap's.
ghost use Rattle.std.specs.Prelude.{◌≡◌, IfOk};
ghost use Rattle.clap.specs.Words.{kind_of};

use crate::help::{
    ADDRESS_FORM, DECODE_USAGE, ELF_CHOICE, EXPLAIN_CHOICE, EXPLAIN_USAGE, PERMISSIONS_FORM,
    ROUND_CHOICE, ROUND_USAGE, SHOW_CHOICE, SHOW_USAGE, TAGS_CHOICE,
};
use crate::table::{Kind, Row, rows_named};
use crate::values::{are_permissions, is_address, value_of};
use clap::error::ErrorKind;
use clap::{ArgMatches, Command, Error};
use std::alloc::{AllocError, Global};

/// Returns the error that says which values a command accepts together, or which value is not of its form.
pub(crate) fn mistake(
    alloc: Global,
    matches: &ArgMatches<'_>,
    kind: ErrorKind,
) -> Result<Error, AllocError>
    ensures { IfOk result (λ error. kind_of error ≡ kind) }
{
    match matches.subcommand() {
        Some((name, values)) => mistake_of(alloc, name, values, kind),
        None => error_with_usage(alloc, ROUND_USAGE, kind, ROUND_CHOICE),
    }
}

/// Returns the error for the command of this name.
fn mistake_of<'a>(
    alloc: Global,
    name: &'a str,
    values: &ArgMatches<'a>,
    kind: ErrorKind,
) -> Result<Error, AllocError>
    ensures { IfOk result (λ error. kind_of error ≡ kind) }
{
    match kind {
        ErrorKind::ValueValidation => {
            let message = value_message(alloc, values, rows_named(name))?;
            error_with_usage(alloc, usage(name), kind, message.as_str())
        }
        _ => error_with_usage(alloc, usage(name), kind, choice_message(name, kind)),
    }
}

/// Returns the error of this kind with this message, and the usage of a command.
///
/// Errors: `AllocError` if an allocation fails.
pub fn error_with_usage<'a>(
    alloc: Global,
    usage: &'a str,
    kind: ErrorKind,
    message: &str,
) -> Result<Error, AllocError>
    ensures { IfOk result (λ error. kind_of error ≡ kind) }
{
    let mut command = Command::new(alloc, "cheri-cap").override_usage(usage);
    command.error(kind, message)
}

fn usage<'a>(name: &'a str) -> &'a str {
    match name {
        "explain" => EXPLAIN_USAGE,
        "show" => SHOW_USAGE,
        "round" => ROUND_USAGE,
        _ => DECODE_USAGE,
    }
}

fn choice_message<'a>(name: &str, kind: ErrorKind) -> &'a str {
    match name {
        "decode" if matches!(kind, ErrorKind::ArgumentConflict) => ELF_CHOICE,
        "explain" => EXPLAIN_CHOICE,
        "show" => SHOW_CHOICE,
        "decode" => TAGS_CHOICE,
        _ => ROUND_CHOICE,
    }
}

/// Returns the message that names the first option whose value is not of its form.
fn value_message(
    alloc: Global,
    values: &ArgMatches<'_>,
    rows: &[Row<'_>],
) -> Result<String, AllocError> {
    for row in rows {
        if let (Some(value), Some(form)) = (value_of(values, row.name), missed_form(values, row)) {
            let (name, placeholder) = (row.name, row.placeholder);
            return format!(in alloc;
                "invalid value '{value}' for '--{name} <{placeholder}>': {form}"
            );
        }
    }
    Ok(String::new(alloc))
}

/// Returns the description of the form of an option, if its value is not of this form.
fn missed_form<'a>(values: &ArgMatches<'_>, row: &Row<'_>) -> Option<&'a str> {
    match row.kind {
        Kind::Address if !is_address(values, row.name) => Some(ADDRESS_FORM),
        Kind::Permissions if !are_permissions(values, row.name) => Some(PERMISSIONS_FORM),
        _ => None,
    }
}
