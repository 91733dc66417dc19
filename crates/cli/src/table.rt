//! The commands and their arguments as rows of a table.
ghost use Rattle.std.specs.Prelude.{◌≡◌};
ghost use Rattle.cli.specs.Usage.{bare_program, program, with_commands};

use crate::help::{HelpPage, Topic};

/// The kind of an argument.
#[derive(Clone, Copy)]
pub(crate) enum Kind {
    /// A required argument.
    Wanted,
    /// An optional argument.
    Free,
    /// An option with a value.
    Valued,
    /// An option whose value is an address.
    Address,
    /// An option whose value names permissions.
    Permissions,
    /// An option without a value.
    Flag,
    /// The option `--slots N`.
    Slots,
    /// An option whose value is an alignment.
    Align,
    /// An option whose value is a format.
    Format,
    /// An option whose value is an order of bytes.
    Order,
    /// An option whose value is the format of a summary.
    Summary,
}

/// An argument of a command.
#[derive(Clone, Copy)]
pub(crate) struct Row<'a> {
    pub(crate) kind: Kind,
    pub(crate) name: &'a str,
    pub(crate) placeholder: &'a str,
    pub(crate) topic: Topic,
}

/// The strings that `--align`, `--format`, `--bytes` and `--summary` accept.
#[derive(Clone, Copy)]
pub(crate) struct Choices<'a> {
    pub(crate) aligns: &'a [&'a str],
    pub(crate) formats: &'a [&'a str],
    pub(crate) orders: &'a [&'a str],
    pub(crate) summaries: &'a [&'a str],
}

/// A command.
#[derive(Clone, Copy)]
pub(crate) struct CommandRow<'a> {
    pub(crate) name: &'a str,
    pub(crate) page: HelpPage,
    pub(crate) rows: &'a [Row<'a>],
}

/// The commands.
const COMMANDS: &[CommandRow] = &[
    CommandRow {
        name: "show",
        page: HelpPage::Show,
        rows: &[
            Row {
                kind: Kind::Flag,
                name: "line",
                placeholder: "",
                topic: Topic::Line,
            },
            Row {
                kind: Kind::Format,
                name: "format",
                placeholder: "FORMAT",
                topic: Topic::ShownFormat,
            },
            Row {
                kind: Kind::Wanted,
                name: "word",
                placeholder: "WORD",
                topic: Topic::Word,
            },
        ],
    },
    CommandRow {
        name: "round",
        page: HelpPage::Round,
        rows: &[
            Row {
                kind: Kind::Address,
                name: "base",
                placeholder: "B",
                topic: Topic::RoundBase,
            },
            Row {
                kind: Kind::Valued,
                name: "list",
                placeholder: "FILE",
                topic: Topic::List,
            },
            Row {
                kind: Kind::Free,
                name: "length",
                placeholder: "N",
                topic: Topic::Length,
            },
        ],
    },
    CommandRow {
        name: "run",
        page: HelpPage::Run,
        rows: &[
            Row {
                kind: Kind::Slots,
                name: "slots",
                placeholder: "N",
                topic: Topic::Slots,
            },
            Row {
                kind: Kind::Flag,
                name: "stats",
                placeholder: "",
                topic: Topic::Stats,
            },
            Row {
                kind: Kind::Free,
                name: "file",
                placeholder: "FILE",
                topic: Topic::File,
            },
        ],
    },
    CommandRow {
        name: "plan",
        page: HelpPage::Plan,
        rows: &[
            Row {
                kind: Kind::Slots,
                name: "slots",
                placeholder: "N",
                topic: Topic::Slots,
            },
            Row {
                kind: Kind::Align,
                name: "align",
                placeholder: "ALIGN",
                topic: Topic::Align,
            },
            Row {
                kind: Kind::Flag,
                name: "stats",
                placeholder: "",
                topic: Topic::Stats,
            },
            Row {
                kind: Kind::Wanted,
                name: "base",
                placeholder: "BASE",
                topic: Topic::Base,
            },
            Row {
                kind: Kind::Wanted,
                name: "length",
                placeholder: "LENGTH",
                topic: Topic::PoolLength,
            },
            Row {
                kind: Kind::Free,
                name: "file",
                placeholder: "FILE",
                topic: Topic::File,
            },
        ],
    },
    CommandRow {
        name: "map",
        page: HelpPage::Map,
        rows: &[
            Row {
                kind: Kind::Slots,
                name: "slots",
                placeholder: "N",
                topic: Topic::Slots,
            },
            Row {
                kind: Kind::Align,
                name: "align",
                placeholder: "ALIGN",
                topic: Topic::Align,
            },
            Row {
                kind: Kind::Flag,
                name: "svg",
                placeholder: "",
                topic: Topic::Svg,
            },
            Row {
                kind: Kind::Wanted,
                name: "base",
                placeholder: "BASE",
                topic: Topic::Base,
            },
            Row {
                kind: Kind::Wanted,
                name: "length",
                placeholder: "LENGTH",
                topic: Topic::PoolLength,
            },
            Row {
                kind: Kind::Free,
                name: "file",
                placeholder: "FILE",
                topic: Topic::File,
            },
        ],
    },
    CommandRow {
        name: "replay",
        page: HelpPage::Replay,
        rows: &[
            Row {
                kind: Kind::Valued,
                name: "format",
                placeholder: "FORMAT",
                topic: Topic::TraceFormat,
            },
            Row {
                kind: Kind::Align,
                name: "align",
                placeholder: "ALIGN",
                topic: Topic::Align,
            },
            Row {
                kind: Kind::Valued,
                name: "realloc",
                placeholder: "MODE",
                topic: Topic::Realloc,
            },
            Row {
                kind: Kind::Valued,
                name: "sweep",
                placeholder: "POLICY",
                topic: Topic::Sweep,
            },
            Row {
                kind: Kind::Valued,
                name: "min",
                placeholder: "BYTES",
                topic: Topic::Least,
            },
            Row {
                kind: Kind::Valued,
                name: "pool",
                placeholder: "BASE:LENGTH",
                topic: Topic::Pool,
            },
            Row {
                kind: Kind::Flag,
                name: "strict",
                placeholder: "",
                topic: Topic::Strict,
            },
            Row {
                kind: Kind::Summary,
                name: "summary",
                placeholder: "FORMAT",
                topic: Topic::Summary,
            },
            Row {
                kind: Kind::Valued,
                name: "each",
                placeholder: "N",
                topic: Topic::Each,
            },
            Row {
                kind: Kind::Flag,
                name: "sizes",
                placeholder: "",
                topic: Topic::Sizes,
            },
            Row {
                kind: Kind::Flag,
                name: "svg",
                placeholder: "",
                topic: Topic::Chart,
            },
            Row {
                kind: Kind::Flag,
                name: "script",
                placeholder: "",
                topic: Topic::Script,
            },
            Row {
                kind: Kind::Free,
                name: "file",
                placeholder: "FILE",
                topic: Topic::TraceFile,
            },
        ],
    },
    CommandRow {
        name: "decode",
        page: HelpPage::Decode,
        rows: &[
            Row {
                kind: Kind::Format,
                name: "format",
                placeholder: "FORMAT",
                topic: Topic::Format,
            },
            Row {
                kind: Kind::Order,
                name: "bytes",
                placeholder: "ORDER",
                topic: Topic::Bytes,
            },
            Row {
                kind: Kind::Flag,
                name: "elf",
                placeholder: "",
                topic: Topic::Elf,
            },
            Row {
                kind: Kind::Address,
                name: "skip",
                placeholder: "N",
                topic: Topic::Skip,
            },
            Row {
                kind: Kind::Address,
                name: "count",
                placeholder: "N",
                topic: Topic::Count,
            },
            Row {
                kind: Kind::Address,
                name: "at",
                placeholder: "START",
                topic: Topic::At,
            },
            Row {
                kind: Kind::Address,
                name: "holds",
                placeholder: "ADDRESS",
                topic: Topic::Holds,
            },
            Row {
                kind: Kind::Permissions,
                name: "perms",
                placeholder: "NAMES",
                topic: Topic::Permissions,
            },
            Row {
                kind: Kind::Flag,
                name: "unsealed",
                placeholder: "",
                topic: Topic::Unsealed,
            },
            Row {
                kind: Kind::Valued,
                name: "tags",
                placeholder: "FILE",
                topic: Topic::Tags,
            },
            Row {
                kind: Kind::Free,
                name: "file",
                placeholder: "FILE",
                topic: Topic::WordsFile,
            },
        ],
    },
    CommandRow {
        name: "annotate",
        page: HelpPage::Annotate,
        rows: &[Row {
            kind: Kind::Free,
            name: "file",
            placeholder: "FILE",
            topic: Topic::TextFile,
        }],
    },
    CommandRow {
        name: "explain",
        page: HelpPage::Explain,
        rows: &[
            Row {
                kind: Kind::Flag,
                name: "svg",
                placeholder: "",
                topic: Topic::WindowSvg,
            },
            Row {
                kind: Kind::Valued,
                name: "length",
                placeholder: "N",
                topic: Topic::RequestLength,
            },
            Row {
                kind: Kind::Address,
                name: "base",
                placeholder: "B",
                topic: Topic::RequestBase,
            },
            Row {
                kind: Kind::Free,
                name: "word",
                placeholder: "WORD",
                topic: Topic::Word,
            },
        ],
    },
];

/// Returns the commands.
pub(crate) fn commands<'a>() -> &'a [CommandRow<'a>]
    ensures { (choices : Choices) → with_commands choices bare_program result.now ≡ program choices.aligns
        choices.formats choices.orders choices.summaries }
{
    COMMANDS
}

/// Returns the arguments of the command of this name.
pub(crate) fn rows_named<'a>(name: &'a str) -> &'a [Row<'a>] {
    for command in commands() {
        if command.name == name {
            return command.rows;
        }
    }
    &[]
}
