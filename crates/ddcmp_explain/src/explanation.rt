//! Explains an input, line by line.
ghost use Rattle.std.specs.Prelude.{◌≡◌, ◌<◌, ◌≤◌, [], false};
ghost use Rattle.ddcmp_frame.specs.Reader.{StandsFor};
ghost use Rattle.ddcmp_frame.specs.Limits.{MAX_COUNT};
ghost use Rattle.ddcmp_explain.specs.Discarded.{items_in};
ghost use Rattle.ddcmp_explain.specs.Explains.{IsExplained};
ghost use Rattle.ddcmp_explain.specs.Inside.Progress.{answer_of};
ghost use Rattle.ddcmp_io.specs.Change.{sink_change, source_change};

use crate::explain_fault::ExplainFault;
use crate::form::{Form, InputForm};
use crate::input_bytes::{InputBytes, PIECE};
use crate::lines::Lines;
use crate::notation::Notation;
use crate::style::Style;
use ddcmp_frame::Reader;
use ddcmp_io::{Sink, Source, Worst, WriteFailed};
use std::alloc::Global;

/// Writes the line of each item that an input in a form encodes, and a last line of totals, as
/// plain text.
pub fn explain<R: Source, W: Sink>(
    alloc: Global,
    reader: &mut R,
    writer: &mut W,
    form: Form,
    max: u16,
) -> Result<(), ExplainFault>
    requires fine { R.state reader.old ≡ Worst.Fine }
    requires whole { W.broken writer.old ≡ false }
    requires max { (0 < max) × (max ≤ MAX_COUNT) }
    ensures { IsExplained (InputForm.As form) (items_in Notation.Plain) max
        (source_change (R.left reader.old) (R.left reader.new) (R.state reader.new))
        (sink_change (W.contents writer.old) (W.contents writer.new) (W.broken writer.new)) result }
{
    let style = Style::items(Notation::Plain);
    explain_with(alloc, reader, writer, InputForm::As(form), style, max)
}

/// Writes the line of each item that an input encodes, and a last line of totals, in a style: with
/// or without lines for bytes that belong to no item. If the form is to be detected, nothing is
/// written before the first 64 bytes or the end of the input were read. A line that isn't one of a
/// dump is reported by its number, after the items of the lines before it were written.
pub fn explain_with<R: Source, W: Sink>(
    alloc: Global,
    reader: &mut R,
    writer: &mut W,
    written: InputForm,
    style: Style,
    max: u16,
) -> Result<(), ExplainFault>
    requires fine { R.state reader.old ≡ Worst.Fine }
    requires whole { W.broken writer.old ≡ false }
    requires max { (0 < max) × (max ≤ MAX_COUNT) }
    ensures { IsExplained written style max
        (source_change (R.left reader.old) (R.left reader.new) (R.state reader.new))
        (sink_change (W.contents writer.old) (W.contents writer.new) (W.broken writer.new)) result }
{
    match Reader::new(alloc, max) {
        Ok(frames) => explain_input(frames, reader, writer, written, style),
        Err(_refused) => Err(ExplainFault::Memory),
    }
}

/// Returns the result of `explain` for that of its last write.
fn answer(by: Result<(), WriteFailed>) -> Result<(), ExplainFault>
    ensures { result ≡ answer_of by }
{
    match by {
        Ok(()) => Ok(()),
        Err(_failed) => Err(ExplainFault::Write),
    }
}

/// Explains an input by a reader of frames that has read nothing.
fn explain_input<R: Source, W: Sink>(
    frames: Reader,
    reader: &mut R,
    writer: &mut W,
    written: InputForm,
    style: Style,
) -> Result<(), ExplainFault>
    requires stands { StandsFor frames [] }
    requires fine { R.state reader.old ≡ Worst.Fine }
    requires whole { W.broken writer.old ≡ false }
    ensures { IsExplained written style frames.max
        (source_change (R.left reader.old) (R.left reader.new) (R.state reader.new))
        (sink_change (W.contents writer.old) (W.contents writer.new) (W.broken writer.new)) result }
{
    let mut input = InputBytes::new(written);
    let mut lines = Lines::new(frames, style);
    let mut piece = [0; PIECE];
    let mut bytes = [0; PIECE];
    loop {
        match input.next(reader, &mut piece, &mut bytes) {
            Ok(Some(count)) => {
                lines.push_all(writer, &bytes[..count]);
                match lines.flush(writer) {
                    Ok(()) => {}
                    Err(_failed) => return Err(ExplainFault::Write),
                }
            }
            Ok(None) => return answer(lines.finish(writer)),
            Err(fault) => return Err(fault),
        }
    }
}
