//! The arguments and options of the commands, as clap reads them.
ghost use Rattle.std.specs.Prelude.{◌≡◌, codes, false};
ghost use Rattle.clap.specs.Words.{rule_of};
ghost use Rattle.cli.specs.Usage.{argument_of, choice_option, flag_option, optional_argument, slots_option};
ghost use Rattle.cli.specs.Usage.{valued_option, wanted_argument};

use crate::help::help;
use crate::table::{Choices, Kind, Row};
use clap::builder::ValueParser;
use clap::{Arg, ArgAction};
use std::alloc::Global;

/// Returns the argument that a row describes.
pub(crate) fn argument<'a>(alloc: Global, row: &Row<'a>, choices: Choices<'a>) -> Arg<'a>
    ensures rule { rule_of result ≡ argument_of choices.entry row.now }
    ensures local { result.global ≡ false }
{
    let bare = Arg::new(alloc, row.name).help(help(row.topic));
    if let Kind::Flag = row.kind {
        return bare.long(row.name).action(ArgAction::SetTrue);
    }
    let taken = bare.value_name(row.placeholder).action(ArgAction::Set);
    let parser = match row.kind {
        Kind::Wanted => return taken.required(true),
        Kind::Free | Kind::Flag => return taken,
        Kind::Valued | Kind::Address | Kind::Permissions => return taken.long(row.name),
        Kind::Slots => ValueParser::Signed(1, 65_536),
        Kind::Align => ValueParser::Names(choices.aligns),
        Kind::Format => ValueParser::Names(choices.formats),
        Kind::Order => ValueParser::Names(choices.orders),
        Kind::Summary => ValueParser::Names(choices.summaries),
    };
    taken.long(row.name).value_parser(parser)
}
