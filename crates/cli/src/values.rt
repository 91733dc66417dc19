//! The values that clap found for arguments and options.
ghost use Rattle.std.specs.Prelude.{◌≡◌, ◌∷◌, [], IsSome, None, Some, codes, true, option_map, unwrap_or};
ghost use Rattle.clap.specs.Walk.{texts};
ghost use Rattle.clap.specs.Words.{first_of, found_of, rows_of};
ghost use Rattle.cc_values.specs.Values.{address_in, permissions_in};
ghost use Rattle.cli.specs.Invocation.{HasBase, HasChoice, HasDecodeValues, HasLimit, HasOutput, HasPool};
ghost use Rattle.cli.specs.Invocation.{HasPoolTexts, HasReplayValues, HasSearch, HasText, IsBase, IsChosen, IsLimit};
ghost use Rattle.cli.specs.Invocation.{IsRead, align_named, format_named, format_names, input_named, is_on, is_read};
ghost use Rattle.cli.specs.Invocation.{order_names, replay_output, search_mistake_of, shown_format, summary_named};
ghost use Rattle.cli.specs.Invocation.{summary_names};

use crate::invocation::{
    DecodeValues, PoolTexts, ReplayOutput, ReplayValues, SearchValues, SummaryFormat,
};
use crate::question::Base;
use crate::table::Choices;
use cc_bounds::Align;
use cc_io::{ByteOrder, Format, InputForm};
use cc_values::{read_address, read_permissions};
use cc_word::Perms;
use clap::ArgMatches;

/// The value of `--slots` if it is not given.
const DEFAULT_LIMIT: u32 = 4096;

/// Returns the values that `--align`, `--format`, `--bytes` and `--summary` accept.
pub(crate) fn choices<'a>() -> Choices<'a>
    ensures aligns { texts result.aligns.now ≡ codes "1" ∷ codes "16" ∷ [] }
    ensures formats { texts result.formats.now ≡ format_names }
    ensures orders { texts result.orders.now ≡ order_names }
    ensures summaries { texts result.summaries.now ≡ summary_names }
{
    Choices {
        aligns: &["1", "16"],
        formats: &["columns", "text", "fixed", "csv", "json"],
        orders: &["little", "big"],
        summaries: &["text", "csv", "json"],
    }
}

/// Returns the value of an argument or of an option, if it has one.
pub(crate) fn value_of<'a>(matches: &ArgMatches<'a>, name: &str) -> Option<&'a str>
    ensures { first_of name.now (rows_of (found_of matches.now)) ≡ option_map (λ text. text.now) result }
{
    matches.get_str(name)
}

/// Returns whether the value of an option is an address, or the option is not given.
pub(crate) fn is_address(matches: &ArgMatches<'_>, name: &str) -> bool
    ensures { result ≡ is_read address_in (first_of name.now (rows_of (found_of matches.now))) }
{
    match value_of(matches, name) {
        Some(text) => read_address(text.as_bytes()).is_ok(),
        None => true,
    }
}

/// Returns whether the value of an option names permissions, or the option is not given.
pub(crate) fn are_permissions(matches: &ArgMatches<'_>, name: &str) -> bool
    ensures { result ≡ is_read permissions_in (first_of name.now (rows_of (found_of matches.now))) }
{
    match value_of(matches, name) {
        Some(text) => read_permissions(text.as_bytes()).is_ok(),
        None => true,
    }
}

/// Returns the address that is the value of an option, if the option is given.
fn address_of(matches: &ArgMatches<'_>, name: &str) -> Option<u64>
    requires { is_read address_in (first_of name.now (rows_of (found_of matches.now))) ≡ true }
    ensures { IsRead address_in (first_of name.now (rows_of (found_of matches.now))) result }
{
    match value_of(matches, name) {
        Some(text) => read_address(text.as_bytes()).ok(),
        None => None,
    }
}

/// Returns the permissions that are the value of an option, if the option is given.
fn permissions_of(matches: &ArgMatches<'_>, name: &str) -> Option<Perms>
    requires { is_read permissions_in (first_of name.now (rows_of (found_of matches.now))) ≡ true }
    ensures { IsRead permissions_in (first_of name.now (rows_of (found_of matches.now))) result }
{
    match value_of(matches, name) {
        Some(text) => read_permissions(text.as_bytes()).ok(),
        None => None,
    }
}

/// Returns the value of `--base`, if it is given.
pub(crate) fn base_of<'a>(matches: &ArgMatches<'a>) -> Option<Base<'a>>
    requires { is_read address_in (first_of (codes "base") (rows_of (found_of matches.now))) ≡ true }
    ensures { HasBase (rows_of (found_of matches.now)) result }
{
    match value_of(matches, "base") {
        Some(text) => match read_address(text.as_bytes()) {
            Ok(address) => Some(Base { text, address }),
            Err(_) => unreachable!(),
        },
        None => None,
    }
}

/// Returns the value of `--base`, or 0.
pub(crate) fn base_or_zero<'a>(matches: &ArgMatches<'a>) -> Base<'a>
    requires { is_read address_in (first_of (codes "base") (rows_of (found_of matches.now))) ≡ true }
    ensures { IsBase (unwrap_or (first_of (codes "base") (rows_of (found_of matches.now))) (codes "0")) result }
{
    match base_of(matches) {
        Some(base) => base,
        None => Base {
            text: "0",
            address: 0,
        },
    }
}

/// Returns the value of an argument that has one.
pub(crate) fn wanted_text<'a>(matches: &ArgMatches<'a>, name: &str) -> &'a str
    requires { HasText name.now (rows_of (found_of matches.now)) }
    ensures { first_of name.now (rows_of (found_of matches.now)) ≡ Some result.now }
{
    match value_of(matches, name) {
        Some(text) => text,
        None => unreachable!(),
    }
}

/// Returns the values of BASE and LENGTH.
pub(crate) fn pool_texts<'a>(matches: &ArgMatches<'a>) -> PoolTexts<'a>
    requires { HasPoolTexts (rows_of (found_of matches.now)) }
    ensures { HasPool (rows_of (found_of matches.now)) result }
{
    PoolTexts {
        base: wanted_text(matches, "base"),
        length: wanted_text(matches, "length"),
    }
}

/// Returns the part of an input of `decode`, its tags, and the search.
pub(crate) fn decode_values<'a>(matches: &ArgMatches<'a>) -> DecodeValues<'a>
    requires { search_mistake_of (rows_of (found_of matches.now)) ≡ None }
    ensures { HasDecodeValues (rows_of (found_of matches.now)) result }
{
    DecodeValues {
        skip: address_of(matches, "skip"),
        count: address_of(matches, "count"),
        at: address_of(matches, "at"),
        tags: value_of(matches, "tags"),
        search: search_values(matches),
    }
}

/// Returns the values of `--holds`, `--perms` and `--unsealed`.
pub(crate) fn search_values(matches: &ArgMatches<'_>) -> SearchValues
    requires { search_mistake_of (rows_of (found_of matches.now)) ≡ None }
    ensures { HasSearch (rows_of (found_of matches.now)) result }
{
    SearchValues {
        holds: address_of(matches, "holds"),
        perms: permissions_of(matches, "perms"),
        unsealed: is_on(matches, "unsealed"),
    }
}

/// Returns the values of the options of `replay`, and its output.
pub(crate) fn replay_values<'a>(matches: &ArgMatches<'a>) -> ReplayValues<'a>
    requires align { HasChoice align_named (codes "align") (rows_of (found_of matches.now)) }
    requires summary { HasChoice summary_named (codes "summary") (rows_of (found_of matches.now)) }
    ensures { HasReplayValues (rows_of (found_of matches.now)) result }
{
    ReplayValues {
        align: align_of(matches),
        strict: is_on(matches, "strict"),
        realloc: value_of(matches, "realloc"),
        sweep: value_of(matches, "sweep"),
        least: value_of(matches, "min"),
        pool: value_of(matches, "pool"),
        format: value_of(matches, "format"),
        output: output_of(matches),
    }
}

/// Returns the output of `replay`, or `None` if two of `--sizes`, `--svg`, `--script` and `--each` are given.
fn output_of<'a>(matches: &ArgMatches<'a>) -> Option<ReplayOutput<'a>>
    requires { HasChoice summary_named (codes "summary") (rows_of (found_of matches.now)) }
    ensures { HasOutput (rows_of (found_of matches.now)) result }
{
    let sizes = is_on(matches, "sizes");
    let svg = is_on(matches, "svg");
    let script = is_on(matches, "script");
    let each = value_of(matches, "each");
    replay_output(summary_of(matches), sizes, svg, script, each)
}

/// Returns the output of `replay` by the format of tables and the options that are given, or `None` if two are.
fn replay_output<'a>(
    format: SummaryFormat,
    sizes: bool,
    svg: bool,
    script: bool,
    each: Option<&'a str>,
) -> Option<ReplayOutput<'a>>
    ensures { result ≡ replay_output format sizes svg script each.entry }
{
    match (sizes, svg, script, each) {
        (false, false, false, None) => Some(ReplayOutput::Summary(format)),
        (true, false, false, None) => Some(ReplayOutput::Sizes(format)),
        (false, true, false, None) => Some(ReplayOutput::Chart),
        (false, false, true, None) => Some(ReplayOutput::Script),
        (false, false, false, Some(each)) => Some(ReplayOutput::Series(each)),
        _ => None,
    }
}

/// Returns whether an option without a value was given.
pub(crate) fn is_on(matches: &ArgMatches<'_>, name: &str) -> bool
    ensures { result ≡ is_on (first_of name.now (rows_of (found_of matches.now))) }
{
    match value_of(matches, name) {
        Some("true") => true,
        _ => false,
    }
}

/// Returns the value of `--slots`, or 4,096.
pub(crate) fn limit_of(matches: &ArgMatches<'_>) -> u32
    requires { HasLimit (rows_of (found_of matches.now)) }
    ensures { IsLimit (first_of (codes "slots") (rows_of (found_of matches.now))) result }
{
    matches.get_one("slots").unwrap_or(DEFAULT_LIMIT)
}

/// Returns the value of `--align`, or 1.
pub(crate) fn align_of(matches: &ArgMatches<'_>) -> Align
    requires { HasChoice align_named (codes "align") (rows_of (found_of matches.now)) }
    ensures { IsChosen align_named Align.One (first_of (codes "align") (rows_of (found_of matches.now))) result }
{
    match value_of(matches, "align") {
        Some(text) => align_named(text),
        None => Align::One,
    }
}

/// Returns the alignment that a text names.
fn align_named(text: &str) -> Align
    requires { IsSome (align_named text.now) }
    ensures { align_named text.now ≡ Some result }
{
    match text {
        "16" => Align::Sixteen,
        _ => Align::One,
    }
}

/// Returns the value of `--format`, or columns.
pub(crate) fn format_of(matches: &ArgMatches<'_>) -> Format
    requires { HasChoice format_named (codes "format") (rows_of (found_of matches.now)) }
    ensures { IsChosen format_named Format.Columns (first_of (codes "format") (rows_of (found_of matches.now))) result }
{
    match value_of(matches, "format") {
        Some(text) => format_named(text),
        None => Format::Columns,
    }
}

/// Returns the format that a text names.
fn format_named(text: &str) -> Format
    requires { IsSome (format_named text.now) }
    ensures { format_named text.now ≡ Some result }
{
    match text {
        "text" => Format::Text,
        "fixed" => Format::Fixed,
        "csv" => Format::Csv,
        "json" => Format::Json,
        _ => Format::Columns,
    }
}

/// Returns the format of `show`: the value of `--format`, the line with `--line`, or none without both.
pub(crate) fn shown_format(matches: &ArgMatches<'_>) -> Option<Format>
    requires { HasChoice format_named (codes "format") (rows_of (found_of matches.now)) }
    ensures { result ≡ shown_format (is_on (first_of (codes "line") (rows_of (found_of matches.now))))
        (first_of (codes "format") (rows_of (found_of matches.now))) }
{
    match value_of(matches, "format") {
        Some(_) => Some(format_of(matches)),
        None if is_on(matches, "line") => Some(Format::Text),
        None => None,
    }
}

/// Returns the value of `--summary`, or text.
pub(crate) fn summary_of(matches: &ArgMatches<'_>) -> SummaryFormat
    requires { HasChoice summary_named (codes "summary") (rows_of (found_of matches.now)) }
    ensures { IsChosen summary_named SummaryFormat.Text
        (first_of (codes "summary") (rows_of (found_of matches.now))) result }
{
    match value_of(matches, "summary") {
        Some(text) => summary_named(text),
        None => SummaryFormat::Text,
    }
}

/// Returns the format of a summary that a text names.
fn summary_named(text: &str) -> SummaryFormat
    requires { IsSome (summary_named text.now) }
    ensures { summary_named text.now ≡ Some result }
{
    match text {
        "csv" => SummaryFormat::Csv,
        "json" => SummaryFormat::Json,
        _ => SummaryFormat::Text,
    }
}

/// Returns raw bytes in the order that `--bytes` names, or lines of digits if it is not given.
pub(crate) fn input_of(matches: &ArgMatches<'_>) -> InputForm
    requires { HasChoice input_named (codes "bytes") (rows_of (found_of matches.now)) }
    ensures { IsChosen input_named InputForm.Lines (first_of (codes "bytes") (rows_of (found_of matches.now))) result }
{
    match value_of(matches, "bytes") {
        Some(text) => input_named(text),
        None => InputForm::Lines,
    }
}

/// Returns raw bytes in the order that a text names.
fn input_named(text: &str) -> InputForm
    requires { IsSome (input_named text.now) }
    ensures { input_named text.now ≡ Some result }
{
    match text {
        "big" => InputForm::Bytes(ByteOrder::Big),
        _ => InputForm::Bytes(ByteOrder::Little),
    }
}
