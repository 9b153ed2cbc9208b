//! `explain --ladder`: two captured directions of one line.
ghost use Rattle.std.specs.Prelude.{◌≡◌, ◌⊎◌, ◌↔◌, ◌≤◌, false, IsTrue};
ghost use Rattle.ddcmp_core.specs.Limits.{MAX_COUNT};
ghost use Rattle.ddcmp_commands.specs.Explaining.{DrawsFiles, IsUnread};

use crate::ending::Ending;
use crate::fault::Fault;
use crate::file_pair::{FilePair, HalfPair};
use crate::inputs::{Inputs, unopened};
use crate::origin::written;
use ddcmp_args::ExplainArgs;
use ddcmp_explain::ExplainFault;
use ddcmp_io::{Sink, Source};
use ddcmp_log::{NoMemory, Side};
use ddcmp_tap::{Capture, DrawFault, draw_captures};
use std::alloc::Global;
use std::cell::RefCell;

/// Makes the capture of a side.
fn capture<'a, R: Source + Drop>(
    alloc: Global,
    pair: &'a RefCell<FilePair<R>>,
    side: Side,
    args: &ExplainArgs<'_>,
) -> Result<Capture<HalfPair<'a, R>>, NoMemory>
    requires max { (1 ≤ args.now.max) × (args.now.max ≤ MAX_COUNT) }
{
    Capture::new(
        alloc,
        HalfPair::new(pair, side),
        written(args),
        side,
        args.style.discarded,
        args.max,
    )
}

/// Returns whether there was no memory for what was read early of two files.
fn is_refused<R: Source>(pair: &RefCell<FilePair<R>>) -> bool {
    match pair.try_borrow() {
        Ok(pair) => pair.is_refused(),
        Err(_in_use) => false,
    }
}

/// Returns the ending if the file of this name had a fault.
fn unread(alloc: Global, name: &str, fault: ExplainFault) -> Ending
    ensures { IsUnread name.now result ⊎ (result ≡ Ending.Fault Fault.Memory) }
{
    match String::from_str(alloc, name) {
        Ok(name) => Ending::Unread(name, Fault::from(fault)),
        Err(_refused) => Ending::Fault(Fault::Memory),
    }
}

/// Draws two files; the first has the bytes that are drawn to the right.
pub(crate) fn draw_files<I: Inputs, W: Sink>(
    inputs: &I,
    alloc: Global,
    first: &str,
    second: &str,
    args: &ExplainArgs<'_>,
    writer: &mut W,
) -> Ending
    requires whole { W.broken writer.old ≡ false }
    requires max { (1 ≤ args.now.max) × (args.now.max ≤ MAX_COUNT) }
    ensures draws { DrawsFiles first.now second.now (W.contents writer.old) (W.contents writer.new)
        result }
    ensures write { (result ≡ Ending.Fault Fault.Write) ↔ IsTrue (W.broken writer.new) }
{
    let pair = match inputs.open_pair(alloc, first, second) {
        Ok(opened) => RefCell::new(opened),
        Err((Side::Caller, why)) => return unopened(alloc, first, why),
        Err((Side::Called, why)) => return unopened(alloc, second, why),
    };
    let Ok(mut one) = capture(alloc, &pair, Side::Caller, args) else {
        return Ending::Fault(Fault::Memory);
    };
    let Ok(mut two) = capture(alloc, &pair, Side::Called, args) else {
        return Ending::Fault(Fault::Memory);
    };
    match draw_captures(&mut one, &mut two, writer) {
        Ok(()) => Ending::Done,
        Err(DrawFault::Write) => Ending::Fault(Fault::Write),
        Err(DrawFault::Capture(_, _)) if is_refused(&pair) => Ending::Fault(Fault::Memory),
        Err(DrawFault::Capture(Side::Caller, fault)) => unread(alloc, first, fault),
        Err(DrawFault::Capture(Side::Called, fault)) => unread(alloc, second, fault),
    }
}
