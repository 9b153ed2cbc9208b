//! Plays a script, and draws it.
ghost use Rattle.std.specs.Prelude.{◌≡◌, ◌≢◌, ◌⊎◌, ◌↔◌, List, ℕ, false, Some, Err, IsTrue};
ghost use Rattle.ddcmp_io.specs.Input.{GaveMost};
ghost use Rattle.ddcmp_line.specs.ScriptEnds.{Around, around};
ghost use Rattle.ddcmp_picture.specs.Drawn.{DrawsScript};
ghost use Rattle.ddcmp_pair.specs.InOrder.{IsInOrder};

use crate::canvas::{Canvas, Picture};
use crate::drawing::Drawing;
use ddcmp_io::{Sink, Source, Worst};
use ddcmp_line::{ScriptFault, script_viewed};
use ddcmp_pair::{Carrier, Pair};
use std::alloc::Global;

/// What is drawn of a script.
#[derive(Clone, Copy)]
pub struct DrawOptions {
    pub picture: Picture,
    /// Whether the counters of both stations are below it.
    pub counted: bool,
}

/// Returns the result for a picture of a script with the result `done`, unless the picture is
/// incomplete or the writer failed.
fn answer_of(
    done: Result<(), ScriptFault>,
    is_whole: bool,
    is_broken: bool,
) -> Result<(), ScriptFault>
    requires written { done ≢ Err ScriptFault.Write }
    requires read { done ≢ Err ScriptFault.Read }
    ensures read { result ≢ Err ScriptFault.Read }
    ensures write { (result ≡ Err ScriptFault.Write) ↔ IsTrue is_broken }
    ensures carried { result ≡ Err ScriptFault.Carrier → done ≡ Err ScriptFault.Carrier }
    ensures draws { (input : List ℕ) (x : Around) → DrawsScript input x done
        → DrawsScript input x result }
{
    if is_broken {
        return Err(ScriptFault::Write);
    }
    match done {
        Ok(()) if !is_whole => Err(ScriptFault::Memory),
        done => done,
    }
}

/// Runs a script, as `ddcmp_line::script` does, and draws the effect of each line, with the last
/// lines of `script` below the picture. If a line isn't a command or an allocation fails, what was
/// drawn is kept, and a document is ended. A document is written at the end of the script, since it
/// begins with its height; it isn't written if the script can't be read.
pub fn draw<R: Source, W: Sink, C: Carrier>(
    alloc: Global,
    pair: &mut Pair,
    reader: &mut R,
    writer: &mut W,
    carrier: &mut C,
    options: DrawOptions,
) -> Result<(), ScriptFault>
    requires fine { R.state reader.old ≡ Worst.Fine }
    requires whole { W.broken writer.old ≡ false }
    requires carrier { C.broken carrier.old ≡ false }
    // The run that is drawn is that of the script.
    ensures draws { (input : List ℕ) → R.left reader.old ≡ Some input
        → DrawsScript input (around pair.old pair.new (C.direct carrier.old)
        (C.told carrier.old) (C.told carrier.new)) result }
    ensures read { R.state reader.new ≢ Worst.Fine → result ≡ Err ScriptFault.Read }
    ensures read_only { result ≡ Err ScriptFault.Read
        → (R.state reader.new ≢ Worst.Fine) ⊎ GaveMost (R.left reader.old) (R.left reader.new) }
    ensures write { (result ≡ Err ScriptFault.Write) ↔ IsTrue (W.broken writer.new) }
    ensures carried { result ≡ Err ScriptFault.Carrier → IsTrue (C.broken carrier.new) }
    // Whatever the result, messages are in order.
    ensures order { IsInOrder pair.new }
{
    let mut drawing = Drawing::new(alloc, Canvas::new(alloc, options.picture), pair);
    let done = script_viewed(alloc, pair, &mut drawing, reader, writer, carrier);
    if done == Err(ScriptFault::Read) {
        return Err(ScriptFault::Read);
    }
    let closing = if done.is_ok() { Some(&*pair) } else { None };
    let is_whole = drawing.end(alloc, writer, closing, options.counted);
    answer_of(done, is_whole, writer.failed())
}
