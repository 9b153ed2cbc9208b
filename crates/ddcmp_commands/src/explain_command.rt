//! `explain`: explains standard input, or a file; or draws two files as a ladder.
ghost use Rattle.std.specs.Prelude.{◌≡◌, ◌≢◌, ◌⊎◌, ◌↔◌, ◌≤◌, false, IsTrue, List, ℕ, None};
ghost use Rattle.std.specs.Prelude.{Some, is_some};
ghost use Rattle.ddcmp_core.specs.Limits.{MAX_COUNT};
ghost use Rattle.ddcmp_io.specs.Change.{source_change};
ghost use Rattle.ddcmp_io.specs.Input.{GaveMost};
ghost use Rattle.ddcmp_commands.specs.Explaining.{ExplainsAsked, ExplainsFrom, ExplainsInput};
ghost use Rattle.ddcmp_commands.specs.Explaining.{is_ladder_misused, is_misused as is_misused_by};
ghost use Rattle.ddcmp_commands.specs.Endings.{ReadsFile, TellsDevices, streams};
ghost use Rattle.std.specs.Option.{option_map};

use crate::ending::Ending;
use crate::fault::Fault;
use crate::inputs::{Inputs, unopened};
use crate::ladder_command::draw_files;
use crate::origin::{origin_of, written};
use crate::tap_command::{TWO_NOTATIONS, is_json};
use crate::usage::usage;
use ddcmp_args::ExplainArgs;
use ddcmp_explain::{Form, InputForm, explain_with};
use ddcmp_io::{Sink, Source, Worst};
use std::alloc::Global;

/// The usage error for `--raw` with `--from`.
const TWO_FORMS: &str = "'--raw' and '--from' can't be used together";

/// The usage error for another value of `--from`.
const NO_ORIGIN: &str = "'--from' is hexdump, xxd, od, text or auto";

/// The usage error for `--ladder` without two files.
const NO_PAIR: &str = "'--ladder' draws two files, FILE and SECOND";

/// The usage error for two files without `--ladder`.
const NO_LADDER: &str = "SECOND is for '--ladder'";

/// Returns what is to be typed, for a terminal.
fn expected_input(args: &ExplainArgs<'_>) -> &'static str {
    match written(args) {
        InputForm::As(Form::Dump) => "a dump",
        InputForm::Detected => "hexadecimal digits, a dump or bytes",
        InputForm::As(Form::Hex | Form::Text) => "hexadecimal digits",
        InputForm::As(Form::Raw) => "bytes",
    }
}

/// Explains a source, in the form in which it is written.
fn explain_source<R: Source, W: Sink>(
    alloc: Global,
    args: &ExplainArgs<'_>,
    reader: &mut R,
    writer: &mut W,
) -> Ending
    requires fine { R.state reader.old ≡ Worst.Fine }
    requires whole { W.broken writer.old ≡ false }
    requires max { (1 ≤ args.now.max) × (args.now.max ≤ MAX_COUNT) }
    ensures explains { (input : List ℕ) → R.left reader.old ≡ Some input
        → ExplainsInput args.now (streams input (R.left reader.new) (W.contents writer.old)
        (W.contents writer.new)) result }
    ensures devices { TellsDevices (source_change (R.left reader.old) (R.left reader.new)
        (R.state reader.new)) (W.broken writer.new) result }
{
    let ExplainArgs { style, max, .. } = *args;
    match explain_with(alloc, reader, writer, written(args), style, max) {
        Ok(()) => Ending::Done,
        Err(fault) => Ending::Fault(Fault::from(fault)),
    }
}

/// Opens and explains a file.
fn explain_file<I: Inputs, W: Sink>(
    inputs: &I,
    alloc: Global,
    name: &str,
    args: &ExplainArgs<'_>,
    writer: &mut W,
) -> Ending
    requires whole { W.broken writer.old ≡ false }
    requires max { (1 ≤ args.now.max) × (args.now.max ≤ MAX_COUNT) }
    ensures explains { ReadsFile name.now (I.held inputs.now name.now)
        (ExplainsInput args.now) (W.contents writer.old) (W.contents writer.new) result }
    ensures write { (result ≡ Ending.Fault Fault.Write) ↔ IsTrue (W.broken writer.new) }
{
    match inputs.open(name) {
        Ok(mut opened) => explain_source(alloc, args, &mut opened, writer),
        Err(why) => unopened(alloc, name, why),
    }
}

/// Explains a file, or standard input if none is named. If that is a terminal, prints on standard
/// error what is read.
fn explain_one<I: Inputs, R: Source, W: Sink>(
    inputs: &I,
    alloc: Global,
    args: &ExplainArgs<'_>,
    reader: &mut R,
    writer: &mut W,
) -> Ending
    requires fine { R.state reader.old ≡ Worst.Fine }
    requires whole { W.broken writer.old ≡ false }
    requires max { (1 ≤ args.now.max) × (args.now.max ≤ MAX_COUNT) }
    ensures explains { (input : List ℕ) → R.left reader.old ≡ Some input
        → ExplainsFrom (I.held inputs.now) args.now.file args.now (streams input
        (R.left reader.new) (W.contents writer.old) (W.contents writer.new)) result }
    ensures read { R.state reader.new ≢ Worst.Fine → result ≡ Ending.Fault Fault.Read }
    ensures read_only { option_map (λ name. name.now) args.now.file ≡ None
        → result ≡ Ending.Fault Fault.Read → (R.state reader.new ≢ Worst.Fine)
        ⊎ GaveMost (R.left reader.old) (R.left reader.new) }
    ensures write { (result ≡ Ending.Fault Fault.Write) ↔ IsTrue (W.broken writer.new) }
    ensures untouched { option_map (λ name. name.now) args.now.file ≢ None
        → reader.new ≡ reader.old }
{
    match args.file {
        None => {
            inputs.await_typing(expected_input(args));
            explain_source(alloc, args, reader, writer)
        }
        Some(name) => explain_file(inputs, alloc, name, args, writer),
    }
}

/// Returns whether `--from` is unknown, or used with `--raw`.
fn is_misused(form: Form, from: Option<&str>) -> bool
    ensures { result ≡ is_misused_by form from.entry }
{
    match from {
        None => false,
        Some(word) => match form {
            Form::Raw => true,
            Form::Hex | Form::Text | Form::Dump => origin_of(word).is_none(),
        },
    }
}

/// Returns the usage error for such a value.
fn misuse(form: Form) -> &'static str {
    match form {
        Form::Raw => TWO_FORMS,
        Form::Hex | Form::Text | Form::Dump => NO_ORIGIN,
    }
}

/// Returns the usage error for a ladder without two files or with JSON, and for a second file
/// without a ladder.
fn ladder_misuse(args: &ExplainArgs<'_>) -> Option<&'static str>
    ensures { is_some result ≡ is_ladder_misused args.now }
{
    match (args.ladder, args.file, args.second) {
        (true, Some(_), Some(_)) => match is_json(args.style.notation) {
            true => Some(TWO_NOTATIONS),
            false => None,
        },
        (true, None, _) | (true, _, None) => Some(NO_PAIR),
        (false, _, Some(_)) => Some(NO_LADDER),
        (false, _, None) => None,
    }
}

/// Runs `explain`: of a file, or standard input if none is named, or of two files as a ladder.
pub fn explain_asked<I: Inputs, R: Source, W: Sink>(
    inputs: &I,
    alloc: Global,
    args: &ExplainArgs<'_>,
    reader: &mut R,
    writer: &mut W,
) -> Ending
    requires fine { R.state reader.old ≡ Worst.Fine }
    requires whole { W.broken writer.old ≡ false }
    requires max { (1 ≤ args.now.max) × (args.now.max ≤ MAX_COUNT) }
    ensures explains { (input : List ℕ) → R.left reader.old ≡ Some input
        → ExplainsAsked (I.held inputs.now) args.now (streams input (R.left reader.new)
        (W.contents writer.old) (W.contents writer.new)) result }
    ensures read { R.state reader.new ≢ Worst.Fine → result ≡ Ending.Fault Fault.Read }
    ensures read_only { option_map (λ name. name.now) args.now.file ≡ None
        → result ≡ Ending.Fault Fault.Read → (R.state reader.new ≢ Worst.Fine)
        ⊎ GaveMost (R.left reader.old) (R.left reader.new) }
    ensures write { (result ≡ Ending.Fault Fault.Write) ↔ IsTrue (W.broken writer.new) }
    ensures untouched { option_map (λ name. name.now) args.now.file ≢ None
        → reader.new ≡ reader.old }
{
    if is_misused(args.form, args.from) {
        return usage(alloc, misuse(args.form));
    }
    match ladder_misuse(args) {
        Some(what) => usage(alloc, what),
        None => match args.second {
            None => explain_one(inputs, alloc, args, reader, writer),
            Some(second) => match args.file {
                None => explain_one(inputs, alloc, args, reader, writer),
                Some(first) => draw_files(inputs, alloc, first, second, args, writer),
            },
        },
    }
}
