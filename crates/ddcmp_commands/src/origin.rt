//! How an input is written, by the value of `--from`.
ghost use Rattle.std.specs.Prelude.{◌≡◌};
ghost use Rattle.ddcmp_commands.specs.Origins.{origin_of as origin_of_word};
ghost use Rattle.ddcmp_commands.specs.Origins.{written as written_of};

use ddcmp_args::ExplainArgs;
use ddcmp_explain::{Form, InputForm};

/// Returns what a value of `--from` stands for.
pub(crate) fn origin_of(word: &str) -> Option<InputForm>
    ensures { result ≡ origin_of_word word.now }
{
    if word == "hexdump" || word == "xxd" || word == "od" {
        Some(InputForm::As(Form::Dump))
    } else if word == "text" {
        Some(InputForm::As(Form::Text))
    } else if word == "auto" {
        Some(InputForm::Detected)
    } else {
        None
    }
}

/// Returns how the input is written: by `--from` if it is given, else in its form.
pub(crate) fn written(args: &ExplainArgs<'_>) -> InputForm
    ensures { result ≡ written_of args.now }
{
    let named = match args.from {
        Some(word) => origin_of(word),
        None => None,
    };
    named.unwrap_or(InputForm::As(args.form))
}
