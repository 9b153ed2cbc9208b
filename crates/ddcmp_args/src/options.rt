//! The options of the commands, in tables and for `clap`.
ghost use Rattle.std.specs.Prelude.{◌≡◌, false};
ghost use Rattle.clap.specs.Words.{rule_of};
ghost use Rattle.ddcmp_args.specs.Inside.Making.{rule_of_option};
ghost use Rattle.ddcmp_args.specs.Args.{flag_rule, number_rule, place_rule, text_rule};

use clap::{Arg, ArgAction};
use std::alloc::Global;

/// The name of a command, its description, and the help after its options.
#[derive(Clone, Copy)]
pub(crate) struct CommandText {
    pub(crate) name: &'static str,
    pub(crate) about: &'static str,
    pub(crate) help: &'static str,
}

/// An option of a command.
#[derive(Clone, Copy)]
pub(crate) struct CommandOption {
    pub(crate) name: &'static str,
    pub(crate) takes: Takes,
    pub(crate) is_required: bool,
    pub(crate) help: &'static str,
}

/// The value of an option.
#[derive(Clone, Copy)]
pub(crate) enum Takes {
    /// None: it is a flag.
    Nothing,
    /// A number from the first to the second.
    Number(u32, u32),
    /// A text, with its name in the help.
    Text(&'static str),
    /// It is a positional argument, with its name in the help.
    Place(&'static str),
}

/// Returns whether an option is required, by the word after its name in a table.
macro_rules! is_required {
    () => {
        false
    };
    (required) => {
        true
    };
}

pub(crate) use is_required;

/// Makes a table of options of rows `NAME: TAKES, HELP;`, with `required` after some names.
macro_rules! table {
    ($($name:literal $($required:ident)?: $takes:expr, $help:literal;)*) => {
        [$(CommandOption {
            name: $name,
            takes: $takes,
            is_required: $crate::options::is_required!($($required)?),
            help: $help,
        }),*]
    };
}

pub(crate) use table;

/// Converts an option for `clap`.
pub(crate) fn argument<'a>(alloc: Global, option: &CommandOption) -> Arg<'a>
    ensures rule { rule_of result ≡ rule_of_option option.now }
    ensures local { result.global ≡ false }
{
    let CommandOption {
        name,
        takes,
        is_required,
        help,
    } = *option;
    let made = match takes {
        Takes::Nothing => flag(alloc, name, help),
        Takes::Number(low, high) => number(alloc, name, low, high, help),
        Takes::Text(value) => text(alloc, name, value, help),
        Takes::Place(value) => place(alloc, name, value, help),
    };
    made.required(is_required)
}

/// Returns a flag.
fn flag<'a>(alloc: Global, name: &'a str, help: &'a str) -> Arg<'a>
    ensures rule { rule_of result ≡ flag_rule name.entry.now }
    ensures local { result.global ≡ false }
{
    Arg::new(alloc, name)
        .long(name)
        .action(ArgAction::SetTrue)
        .help(help)
}

/// Returns an option whose value is a number from `low` to `high`.
fn number<'a>(alloc: Global, name: &'a str, low: u32, high: u32, help: &'a str) -> Arg<'a>
    ensures rule { rule_of result ≡ number_rule name.entry.now low high }
    ensures local { result.global ≡ false }
{
    Arg::new(alloc, name)
        .long(name)
        .value_name("N")
        .value_parser(clap::value_parser!(u32).range(low as i64..=high as i64))
        .help(help)
}

/// Returns an option whose value is a text.
fn text<'a>(alloc: Global, name: &'a str, value: &'a str, help: &'a str) -> Arg<'a>
    ensures rule { rule_of result ≡ text_rule name.entry.now }
    ensures local { result.global ≡ false }
{
    Arg::new(alloc, name)
        .long(name)
        .value_name(value)
        .help(help)
}

/// Returns a positional argument, which is optional.
fn place<'a>(alloc: Global, name: &'a str, value: &'a str, help: &'a str) -> Arg<'a>
    ensures rule { rule_of result ≡ place_rule name.entry.now }
    ensures local { result.global ≡ false }
{
    Arg::new(alloc, name).value_name(value).help(help)
}
