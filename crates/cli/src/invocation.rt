//! The command that a command line requests.
use crate::question::{Base, Question};
use cc_bounds::Align;
use cc_io::{Format, InputForm};
use cc_word::Perms;

/// The bounds of a pool, as they were typed.
#[derive(Clone, Copy)]
pub struct PoolTexts<'a> {
    /// The base.
    pub base: &'a str,
    /// The length.
    pub length: &'a str,
}

/// The values of `--holds`, `--perms` and `--unsealed` of `decode`.
#[derive(Clone, Copy)]
pub struct SearchValues {
    /// The address that bounds contain.
    pub holds: Option<u64>,
    /// The permissions that a word has.
    pub perms: Option<Perms>,
    /// Whether only unsealed words are listed.
    pub unsealed: bool,
}

/// The part of an input of `decode`, its tags, and the search.
#[derive(Clone, Copy)]
pub struct DecodeValues<'a> {
    /// The number of bytes to skip.
    pub skip: Option<u64>,
    /// The maximum number of words to decode.
    pub count: Option<u64>,
    /// The address of the first word.
    pub at: Option<u64>,
    /// The name of the file of the tags.
    pub tags: Option<&'a str>,
    /// The search.
    pub search: SearchValues,
}

/// The format of the summary of `replay`.
#[derive(Clone, Copy)]
pub enum SummaryFormat {
    /// One line a number: its name and its value.
    Text,
    /// A line of the names and one of the values, with commas between.
    Csv,
    /// One object of JSON.
    Json,
}

/// The output of `replay`.
#[derive(Clone, Copy)]
pub enum ReplayOutput<'a> {
    /// The summary, in this format.
    Summary(SummaryFormat),
    /// `--sizes`: the table of sizes, in this format.
    Sizes(SummaryFormat),
    /// `--svg`: the chart.
    Chart,
    /// `--script`: the script.
    Script,
    /// `--each`: the series, with the number of events from one sample to the next, as it was typed.
    Series(&'a str),
}

/// The values of the options of `replay`, and its output. Texts are as they were typed.
#[derive(Clone, Copy)]
pub struct ReplayValues<'a> {
    /// The alignment of each object.
    pub align: Align,
    /// Whether no line is taken after one that is refused.
    pub strict: bool,
    /// The effect of a realloc.
    pub realloc: Option<&'a str>,
    /// The policy.
    pub sweep: Option<&'a str>,
    /// The number of quarantined bytes below which the policy does not sweep.
    pub least: Option<&'a str>,
    /// The base and the length of the pool.
    pub pool: Option<&'a str>,
    /// The name of the trace's format.
    pub format: Option<&'a str>,
    /// The output; `None` if two of `--sizes`, `--svg`, `--script` and `--each` are given, which cli_replay refuses
    /// with the other values of `replay`.
    pub output: Option<ReplayOutput<'a>>,
}

/// A command and its values.
#[derive(Clone, Copy)]
pub enum Invocation<'a> {
    /// A question about one word or one length, which reads no input.
    Ask(Question<'a>),
    /// `run [--slots N] [--stats] [FILE]`: runs a script on a new machine.
    Run {
        /// The maximum number of slots, and of objects, from 1 to 65,536.
        limit: u32,
        /// Whether a summary of the run is written on standard error.
        stats: bool,
        /// The script's file; `None` and `-` are standard input.
        file: Option<&'a str>,
    },
    /// `plan [--slots N] [--align ALIGN] [--stats] BASE LENGTH [FILE]`: runs a script on a new machine that has a pool.
    Plan {
        /// The maximum number of slots, and of objects, from 1 to 65,536.
        limit: u32,
        /// The pool's bounds, as they were typed.
        pool: PoolTexts<'a>,
        /// The pool's alignment.
        align: Align,
        /// Whether a summary of the run is written on standard error.
        stats: bool,
        /// The script's file; `None` and `-` are standard input.
        file: Option<&'a str>,
    },
    /// `map [--slots N] [--align ALIGN] [--svg] BASE LENGTH [FILE]`: runs a script as `plan` does, and draws the pool.
    Map {
        /// The maximum number of slots, and of objects, from 1 to 65,536.
        limit: u32,
        /// The pool's bounds, as they were typed.
        pool: PoolTexts<'a>,
        /// The pool's alignment.
        align: Align,
        /// Whether the pool is drawn as an SVG document.
        svg: bool,
        /// The script's file; `None` and `-` are standard input.
        file: Option<&'a str>,
    },
    /// `replay [--format FORMAT] [--align ALIGN] [--realloc MODE] [--sweep POLICY] [--min BYTES] [--pool BASE:LENGTH]
    /// [--strict] [--summary FORMAT] [--each N] [--sizes] [--svg] [--script] [FILE]`: replays the trace of an
    /// allocator.
    Replay {
        /// The values of the options.
        values: ReplayValues<'a>,
        /// The trace's file; `None` and `-` are standard input.
        file: Option<&'a str>,
    },
    /// `decode [--format FORMAT] [--bytes ORDER] [--skip N] [--count N] [--at START] [--holds ADDRESS] [--perms NAMES]
    /// [--unsealed] [--tags FILE] [FILE]`: lists the content of each word of a text or of raw bytes, or of those that a
    /// search finds or that are tagged.
    Decode {
        /// The form of the words in the input.
        input: InputForm,
        /// The format of the output.
        format: Format,
        /// The values of the other options.
        values: DecodeValues<'a>,
        /// The words' file; `None` and `-` are standard input.
        file: Option<&'a str>,
    },
    /// `decode --elf [--format FORMAT] [--holds ADDRESS] [--perms NAMES] [--unsealed] [FILE]`: lists the content of
    /// each word of a core file, or of those that a search finds.
    DecodeCore {
        /// The format of the output.
        format: Format,
        /// The search.
        search: SearchValues,
        /// The core file; `None` and `-` are standard input.
        file: Option<&'a str>,
    },
    /// `round [--base B] --list FILE`: rounds each length of a list.
    RoundList {
        /// The base of each request.
        base: Option<Base<'a>>,
        /// The list's file; `-` is standard input.
        file: &'a str,
    },
    /// `annotate [FILE]`: copies a text, with the line of each word after the word.
    Annotate {
        /// The text's file; `None` and `-` are standard input.
        file: Option<&'a str>,
    },
}
