//! The parsers of the commands, which are built of tables of options, or an allocation failure. So
//! failures are checked for once, when all is built.
ghost use Rattle.std.specs.Prelude.{map};
ghost use Rattle.clap.specs.Words.{App, new_app, with_subcommand};
ghost use Rattle.ddcmp_args.specs.Inside.Making.{IsMade, Makes, rule_of_option, with_rules};

use crate::options::{CommandOption, CommandText, argument};
use clap::Command;
use std::alloc::{AllocError, Global};

/// A command of `clap`, unless an allocation failed.
pub(crate) type Made<'a> = Result<Command<'a>, AllocError>;

/// Begins a command without options.
pub(crate) fn begun<'a>(alloc: Global, named: &CommandText) -> Command<'a>
    ensures { IsMade result (new_app named.now.name.now) }
{
    let CommandText { name, about, help } = *named;
    Command::new(alloc, name).about(about).after_help(help)
}

/// Adds the options of a table to a command.
pub(crate) fn with_options<'a>(alloc: Global, made: Made<'a>, options: &[CommandOption]) -> Made<'a>
    ensures { (app : App) → Makes made.entry app
        → Makes result (with_rules app (map rule_of_option options.now)) }
{
    let mut command = made?;
    for option in options {
        command = command.arg(argument(alloc, option))?;
    }
    Ok(command)
}

/// Adds a subcommand to a command.
pub(crate) fn with_command<'a>(made: Made<'a>, other: Made<'a>) -> Made<'a>
    ensures { (app under : App) → Makes made.entry app → Makes other.entry under
        → Makes result (with_subcommand app under.top) }
{
    let command = made?;
    let subcommand = other?;
    command.subcommand(subcommand)
}
