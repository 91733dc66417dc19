//! Parses the arguments of the command line, and reads them as an `Invocation`, or returns an error of clap's.
ghost use Rattle.std.specs.Prelude.{◌≡◌, IfErr, IfOk, None, codes, is_some, true};
ghost use Rattle.clap.specs.Walk.{texts};
ghost use Rattle.clap.specs.Words.{App, FailsBy, first_of, found_of, kind_of, rows_of, subcommand_of};
ghost use Rattle.clap.specs.Words.{subcommand_rows_of};
ghost use Rattle.cli.specs.Invocation.{HasChoice, HasItsTexts, HasLimit, HasPoolTexts, HasText, HasValues, HasWanted};
ghost use Rattle.cli.specs.Invocation.{IsInvocation, IsProgram, align_named, choice_mistake_in, choice_mistake_of};
ghost use Rattle.cli.specs.Invocation.{command_name_of, format_named, has_other_input};
ghost use Rattle.cli.specs.Invocation.{input_named, is_taken, kinds_in, list_mistake_of, mistakes_of, named_mistake};
ghost use Rattle.cli.specs.Invocation.{search_mistake_of, show_mistake_of, summary_named, value_mistake};

use crate::commands::program;
use crate::invocation::Invocation;
use crate::mistakes::mistake;
use crate::question::Question;
use crate::values::{
    align_of, are_permissions, base_of, base_or_zero, choices, decode_values, format_of, input_of,
    is_address, is_on, limit_of, pool_texts, replay_values, search_values, shown_format, value_of,
    wanted_text,
};
use clap::error::ErrorKind;
use clap::{ArgMatches, Error};
use std::alloc::Global;

/// Reads the program's arguments, its own name first, as a command and its values. They are the words of a command
/// line; elsewhere a capability is a word.
///
/// Errors: a mistake in the arguments, a request for help or for the version, or an allocation that fails. The kind of
/// the error says which.
pub fn read_words<'a>(alloc: Global, words: &'a [&'a str]) -> Result<Invocation<'a>, Error>
    ensures read { IfOk result (λ invocation. (app : App) × IsProgram app
        × IsInvocation (subcommand_of app (texts words.now)) invocation) }
    ensures refused { IfErr result (λ error.
        (app : App) × IsProgram app × (is_taken app (texts words.now) ≡ true → kind_of error ≡ ErrorKind.OutOfMemory)) }
    ensures kinds { (app : App) × IsProgram app × FailsBy (mistakes_of app (texts words.now)) result }
{
    // by `match`, since clauses speak of the error too, and `?` would convert it
    match parse_words(alloc, words) {
        Ok(matches) => Ok(invocation_of(&matches)),
        Err(error) => Err(error),
    }
}

/// Parses the program's arguments as one of its commands with the values that it needs.
fn parse_words<'a>(alloc: Global, words: &'a [&'a str]) -> Result<ArgMatches<'a>, Error>
    ensures read { IfOk result (λ matches.
        (app : App) × IsProgram app × (subcommand_rows_of matches ≡ subcommand_of app (texts words.now))
        × HasItsTexts (subcommand_rows_of matches)) }
    ensures refused { IfErr result (λ error.
        (app : App) × IsProgram app × (is_taken app (texts words.now) ≡ true → kind_of error ≡ ErrorKind.OutOfMemory)) }
    ensures kinds { (app : App) × IsProgram app × FailsBy (mistakes_of app (texts words.now)) result }
{
    let command = program(alloc, choices())?;
    match command.try_get_matches_from(words) {
        Ok(matches) => chosen(alloc, matches),
        Err(error) => Err(error),
    }
}

/// Returns what clap found, or the error of values that exclude each other, are missing, or are not of their form. The
/// values are read by [`invocation_of`], once none of them can be refused.
fn chosen<'a>(alloc: Global, matches: ArgMatches<'a>) -> Result<ArgMatches<'a>, Error>
    ensures read { IfOk result (λ chosen. (chosen ≡ matches.entry)
        × (choice_mistake_in (subcommand_rows_of matches.entry) ≡ None)) }
    ensures kinds { FailsBy (kinds_in (choice_mistake_in (subcommand_rows_of matches.entry))) result }
{
    match choice_mistake(&matches) {
        None => Ok(matches),
        Some(kind) => Err(mistake(alloc, &matches, kind)?),
    }
}

/// Returns the kind of error of the values of `explain`, `round`, `decode` or `show`, if there is one.
fn choice_mistake(matches: &ArgMatches<'_>) -> Option<ErrorKind>
    ensures { result ≡ choice_mistake_in (subcommand_rows_of matches.now) }
{
    match matches.subcommand() {
        Some((name, values)) => named_mistake(name, values),
        None => None,
    }
}

/// Returns the kind of error of the values of the command of this name, if there is one.
fn named_mistake(name: &str, values: &ArgMatches<'_>) -> Option<ErrorKind>
    ensures { result ≡ named_mistake name.now (rows_of (found_of values.now)) }
{
    match name {
        "explain" => word_mistake(values),
        "round" => list_mistake(values),
        "decode" => search_mistake(values),
        "show" => show_mistake(values),
        _ => None,
    }
}

/// Returns the kind of error of the values of `show`, if there is one: `--line` excludes `--format`.
fn show_mistake(show: &ArgMatches<'_>) -> Option<ErrorKind>
    ensures { result ≡ show_mistake_of (rows_of (found_of show.now)) }
{
    if is_on(show, "line") && has_value(show, "format") {
        Some(ErrorKind::ArgumentConflict)
    } else {
        None
    }
}

/// Returns the kind of error of the values of `decode`, if there is one: `--elf` excludes the options of other inputs,
/// `--tags` requires `--bytes`, and numbers and permissions are of their form.
fn search_mistake(decode: &ArgMatches<'_>) -> Option<ErrorKind>
    ensures { result ≡ search_mistake_of (rows_of (found_of decode.now)) }
{
    if is_on(decode, "elf") && has_other_input(decode) {
        return Some(ErrorKind::ArgumentConflict);
    }
    if has_value(decode, "tags") && !has_value(decode, "bytes") {
        return Some(ErrorKind::MissingRequiredArgument);
    }
    value_mistake(
        is_address(decode, "skip")
            && is_address(decode, "count")
            && is_address(decode, "at")
            && is_address(decode, "holds")
            && are_permissions(decode, "perms"),
    )
}

/// Returns whether an option of other inputs is given.
fn has_other_input(decode: &ArgMatches<'_>) -> bool
    ensures { result ≡ has_other_input (rows_of (found_of decode.now)) }
{
    has_value(decode, "bytes")
        || has_value(decode, "skip")
        || has_value(decode, "count")
        || has_value(decode, "at")
        || has_value(decode, "tags")
}

/// Returns the kind of error of a value that is not of its form.
fn value_mistake(is_read: bool) -> Option<ErrorKind>
    ensures { result ≡ value_mistake is_read }
{
    if is_read {
        None
    } else {
        Some(ErrorKind::ValueValidation)
    }
}

/// Returns the kind of error of the values of `round`, if there is one: one of N and `--list` is required, each
/// excludes the other, and the base is an address.
fn list_mistake(round: &ArgMatches<'_>) -> Option<ErrorKind>
    ensures { result ≡ list_mistake_of (rows_of (found_of round.now)) }
{
    match (has_value(round, "list"), has_value(round, "length")) {
        (true, true) => Some(ErrorKind::ArgumentConflict),
        (false, false) => Some(ErrorKind::MissingRequiredArgument),
        _ => value_mistake(is_address(round, "base")),
    }
}

/// Returns the kind of error of the values of `explain`, if there is one: WORD excludes `--length` and `--base`, and
/// without WORD `--length` is required, which excludes `--svg`, and the base is an address.
fn word_mistake(explain: &ArgMatches<'_>) -> Option<ErrorKind>
    ensures { result ≡ choice_mistake_of (rows_of (found_of explain.now)) }
{
    let has_length = has_value(explain, "length");
    if has_value(explain, "word") {
        if has_length || has_value(explain, "base") {
            Some(ErrorKind::ArgumentConflict)
        } else {
            None
        }
    } else if !has_length {
        Some(ErrorKind::MissingRequiredArgument)
    } else if is_on(explain, "svg") {
        Some(ErrorKind::ArgumentConflict)
    } else {
        value_mistake(is_address(explain, "base"))
    }
}

/// Returns whether an argument has a value.
fn has_value(matches: &ArgMatches<'_>, name: &str) -> bool
    ensures { result ≡ is_some (first_of name.now (rows_of (found_of matches.now))) }
{
    value_of(matches, name).is_some()
}

/// Returns the invocation of the command that clap found, by its name.
fn invocation_of<'a>(matches: &ArgMatches<'a>) -> Invocation<'a>
    requires { HasItsTexts (subcommand_rows_of matches.now) }
    ensures { IsInvocation (subcommand_rows_of matches.now) result }
{
    match matches.subcommand() {
        Some((name, values)) => read_command(name, values),
        None => unreachable!(),
    }
}

/// Returns the invocation of the command of this name with these values.
fn read_command<'a>(name: &str, matches: &ArgMatches<'a>) -> Invocation<'a>
    requires { HasWanted name.now (rows_of (found_of matches.now)) }
    ensures command { command_name_of result ≡ name.now }
    ensures values { HasValues (rows_of (found_of matches.now)) result }
{
    match name {
        "show" => read_show(matches),
        "round" => read_round(matches),
        "run" => read_run(matches),
        "plan" => read_plan(matches),
        "map" => read_map(matches),
        "replay" => read_replay(matches),
        "decode" => read_decode(matches),
        "annotate" => read_annotate(matches),
        "explain" => read_explain(matches),
        _ => unreachable!(),
    }
}

fn read_show<'a>(matches: &ArgMatches<'a>) -> Invocation<'a>
    requires word { HasText (codes "word") (rows_of (found_of matches.now)) }
    requires format { HasChoice format_named (codes "format") (rows_of (found_of matches.now)) }
    ensures command { command_name_of result ≡ codes "show" }
    ensures values { HasValues (rows_of (found_of matches.now)) result }
{
    Invocation::Ask(Question::Show {
        word: wanted_text(matches, "word"),
        format: shown_format(matches),
    })
}

fn read_round<'a>(matches: &ArgMatches<'a>) -> Invocation<'a>
    requires { list_mistake_of (rows_of (found_of matches.now)) ≡ None }
    ensures command { command_name_of result ≡ codes "round" }
    ensures values { HasValues (rows_of (found_of matches.now)) result }
{
    match value_of(matches, "list") {
        Some(file) => Invocation::RoundList {
            base: base_of(matches),
            file,
        },
        None => Invocation::Ask(Question::Round {
            base: base_of(matches),
            length: wanted_text(matches, "length"),
        }),
    }
}

fn read_run<'a>(matches: &ArgMatches<'a>) -> Invocation<'a>
    requires { HasLimit (rows_of (found_of matches.now)) }
    ensures command { command_name_of result ≡ codes "run" }
    ensures values { HasValues (rows_of (found_of matches.now)) result }
{
    Invocation::Run {
        limit: limit_of(matches),
        stats: is_on(matches, "stats"),
        file: value_of(matches, "file"),
    }
}

fn read_plan<'a>(matches: &ArgMatches<'a>) -> Invocation<'a>
    requires pool { HasPoolTexts (rows_of (found_of matches.now)) }
    requires limit { HasLimit (rows_of (found_of matches.now)) }
    requires align { HasChoice align_named (codes "align") (rows_of (found_of matches.now)) }
    ensures command { command_name_of result ≡ codes "plan" }
    ensures values { HasValues (rows_of (found_of matches.now)) result }
{
    Invocation::Plan {
        limit: limit_of(matches),
        pool: pool_texts(matches),
        align: align_of(matches),
        stats: is_on(matches, "stats"),
        file: value_of(matches, "file"),
    }
}

fn read_map<'a>(matches: &ArgMatches<'a>) -> Invocation<'a>
    requires pool { HasPoolTexts (rows_of (found_of matches.now)) }
    requires limit { HasLimit (rows_of (found_of matches.now)) }
    requires align { HasChoice align_named (codes "align") (rows_of (found_of matches.now)) }
    ensures command { command_name_of result ≡ codes "map" }
    ensures values { HasValues (rows_of (found_of matches.now)) result }
{
    Invocation::Map {
        limit: limit_of(matches),
        pool: pool_texts(matches),
        align: align_of(matches),
        svg: is_on(matches, "svg"),
        file: value_of(matches, "file"),
    }
}

fn read_replay<'a>(matches: &ArgMatches<'a>) -> Invocation<'a>
    requires align { HasChoice align_named (codes "align") (rows_of (found_of matches.now)) }
    requires summary { HasChoice summary_named (codes "summary") (rows_of (found_of matches.now)) }
    ensures command { command_name_of result ≡ codes "replay" }
    ensures values { HasValues (rows_of (found_of matches.now)) result }
{
    Invocation::Replay {
        values: replay_values(matches),
        file: value_of(matches, "file"),
    }
}

fn read_decode<'a>(matches: &ArgMatches<'a>) -> Invocation<'a>
    requires format { HasChoice format_named (codes "format") (rows_of (found_of matches.now)) }
    requires order { HasChoice input_named (codes "bytes") (rows_of (found_of matches.now)) }
    requires search { search_mistake_of (rows_of (found_of matches.now)) ≡ None }
    ensures command { command_name_of result ≡ codes "decode" }
    ensures values { HasValues (rows_of (found_of matches.now)) result }
{
    let format = format_of(matches);
    let file = value_of(matches, "file");
    if is_on(matches, "elf") {
        let search = search_values(matches);
        return Invocation::DecodeCore {
            format,
            search,
            file,
        };
    }
    Invocation::Decode {
        input: input_of(matches),
        format,
        values: decode_values(matches),
        file,
    }
}

fn read_annotate<'a>(matches: &ArgMatches<'a>) -> Invocation<'a>
    ensures command { command_name_of result ≡ codes "annotate" }
    ensures values { HasValues (rows_of (found_of matches.now)) result }
{
    Invocation::Annotate {
        file: value_of(matches, "file"),
    }
}

fn read_explain<'a>(matches: &ArgMatches<'a>) -> Invocation<'a>
    requires { choice_mistake_of (rows_of (found_of matches.now)) ≡ None }
    ensures command { command_name_of result ≡ codes "explain" }
    ensures values { HasValues (rows_of (found_of matches.now)) result }
{
    match value_of(matches, "word") {
        Some(word) if is_on(matches, "svg") => Invocation::Ask(Question::DrawWindow { word }),
        Some(word) => Invocation::Ask(Question::Explain { word }),
        None => Invocation::Ask(Question::ExplainLength {
            base: base_or_zero(matches),
            length: wanted_text(matches, "length"),
        }),
    }
}
