//! A view, which shows a script.
ghost use Rattle.std.specs.Prelude.{◌≡◌, ◌↔◌, false, IsTrue};

use crate::command::ScriptCommand;
use ddcmp_io::Sink;
use ddcmp_pair::{Pair, Recovered, Settled, Unwatched, Watch};

/// Shows what the lines of a script do. It watches the pair, and is called before and after each
/// line's effect.
pub trait View: Watch {
    /// Is called before a command has any effect. If the command names a line between the ends that
    /// has a frame, `front` is how many bytes of the first frame haven't arrived.
    fn begins(&mut self, pair: &Pair, command: &ScriptCommand, front: Option<usize>);

    /// Is called after both ends settled.
    fn settled(&mut self, settled: &Settled);

    /// Is called after the line recovered; `done` is whether the pair is then done.
    fn recovered(&mut self, recovered: &Recovered, done: bool);

    /// Writes what it has to show; returns whether it continues.
    fn show<W: Sink>(&mut self, writer: &mut W) -> bool
        requires whole { W.broken writer.old ≡ false }
        ensures whole { IsTrue result → W.broken writer.new ≡ false };
}

impl View for Unwatched {
    fn begins(&mut self, _pair: &Pair, _command: &ScriptCommand, _front: Option<usize>) {}

    fn settled(&mut self, _settled: &Settled) {}

    fn recovered(&mut self, _recovered: &Recovered, _done: bool) {}

    fn show<W: Sink>(&mut self, _writer: &mut W) -> bool {
        true
    }
}
