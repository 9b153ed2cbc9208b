//! The values of options, as parsed.
ghost use Rattle.std.specs.Prelude.{◌≡◌, ◌↔◌, ◌≤◌, IsTrue, codes, unwrap_or, []};
ghost use Rattle.std.specs.Option.{option_map};
ghost use Rattle.clap.specs.Words.{first_value, found_of, one_text};
ghost use Rattle.ddcmp_args.specs.Args.{HasFlag, HasNotation, HasNumber, file_of};

use clap::ArgMatches;
use ddcmp_explain::Notation;

/// Returns whether a flag is given.
pub(crate) fn flag_given(options: &ArgMatches<'_>, name: &str) -> bool
    ensures { HasFlag (one_text (found_of options.now) name.now) result }
{
    options.get_flag(name)
}

/// Returns a number that is given, or the default. The parser has checked its range.
pub(crate) fn number_given(
    options: &ArgMatches<'_>,
    name: &str,
    low: u32,
    high: u32,
    otherwise: u32,
) -> u32
    requires otherwise { (low ≤ otherwise) × (otherwise ≤ high) }
    requires most { high ≤ 4294967295 }
    ensures { HasNumber low high otherwise (one_text (found_of options.now) name.now) result }
{
    match options.get_one::<u32>(name) {
        Some(number) => {
            if is_within(low, number, high) {
                number
            } else {
                otherwise
            }
        }
        None => otherwise,
    }
}

fn is_within(low: u32, number: u32, high: u32) -> bool
    ensures { IsTrue result ↔ (low ≤ number) × (number ≤ high) }
{
    low <= number && number <= high
}

/// Returns a text that is given; the empty one if none is.
pub(crate) fn text_given<'a>(options: &ArgMatches<'a>, name: &str) -> &'a str
    ensures { result.now ≡ unwrap_or (first_value (found_of options.now) name.now) [] }
{
    options.get_str(name).unwrap_or("")
}

/// Returns the name of the file to read; none for standard input.
pub(crate) fn file_given<'a>(options: &ArgMatches<'a>, place: &str) -> Option<&'a str>
    ensures { option_map (λ name. name.now) result
        ≡ file_of (first_value (found_of options.now) place.now) }
{
    match options.get_str(place) {
        Some(word) => { if word == "-" { None } else { Some(word) } }
        None => None,
    }
}

/// Returns the notation: JSON if `--json` is given, else plain text.
pub(crate) fn notation_given(options: &ArgMatches<'_>) -> Notation
    ensures { HasNotation (one_text (found_of options.now) (codes "json")) result }
{
    if options.get_flag("json") {
        Notation::Json
    } else {
        Notation::Plain
    }
}
