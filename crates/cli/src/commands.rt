//! The program and its commands, as clap reads them.
ghost use Rattle.std.specs.Prelude.{◌≡◌, IfOk, false};
ghost use Rattle.clap.specs.Words.{app_of, new_app};
ghost use Rattle.clap.specs.declared.builder.command.Command.TheViews.{out-Command};
ghost use Rattle.cli.specs.Usage.{bare_program, command_of, program};

use crate::arguments::argument;
use crate::help::{ABOUT, AFTER_HELP, HelpPage, VERSION, about, after_help, usage};
use crate::table::{Choices, CommandRow, commands};
use clap::Command;
use std::alloc::{AllocError, Global};

/// Returns the program with all its commands. `--align`, `--format`, `--bytes` and `--summary` accept the strings of
/// `choices`, which is a parameter, so that the contract can name them.
///
/// Errors: `AllocError` if an allocation fails.
pub(crate) fn program<'a>(alloc: Global, choices: Choices<'a>) -> Result<Command<'a>, AllocError>
    ensures { IfOk result (λ command. app_of command ≡ program choices.entry.aligns choices.entry.formats
        choices.entry.orders choices.entry.summaries) }
{
    let mut program = bare_program(alloc)?;
    for row in commands() {
        program = program.subcommand(command(alloc, row, choices)?)?;
    }
    Ok(program)
}

/// Returns the command that a row describes.
fn command<'a>(
    alloc: Global,
    row: &CommandRow<'a>,
    choices: Choices<'a>,
) -> Result<Command<'a>, AllocError>
    ensures shape { IfOk result (λ command. app_of command ≡ command_of choices.entry row.now) }
    ensures local { IfOk result (λ command. (out-Command command).has_globals ≡ false) }
{
    let mut command = bare_command(alloc, row.name, row.page);
    for it in row.rows {
        command = command.arg(argument(alloc, it, choices))?;
    }
    Ok(command)
}

/// Returns the program before its commands are added.
fn bare_program<'a>(alloc: Global) -> Result<Command<'a>, AllocError>
    ensures { IfOk result (λ command. app_of command ≡ bare_program) }
{
    Command::new(alloc, "cheri-cap")
        .version(VERSION)
        .about(ABOUT)
        .after_long_help(AFTER_HELP)
        .arg_required_else_help(true)
        .subcommand_required(true)
        .disable_help_subcommand(true)
        .bin_name("cheri-cap")
}

/// Returns a command before its arguments are added.
fn bare_command<'a>(alloc: Global, name: &'a str, page: HelpPage) -> Command<'a>
    ensures shape { app_of result ≡ new_app name.now }
    ensures local { (out-Command result).has_globals ≡ false }
{
    let bare = Command::new(alloc, name)
        .about(about(page))
        .after_long_help(after_help(page));
    match usage(page) {
        Some(usage) => bare.override_usage(usage),
        None => bare,
    }
}
