//! The receiver of marks.
use crate::mark::Mark;
use ddcmp_io::Sink;

/// Receives marks one after another: a picture, or anything else that is made of them.
pub trait Paper {
    ghost use Rattle.std.specs.Prelude.{◌≡◌, ℕ, Option, List, None, [], ◌∷◌, false, IsTrue};
    ghost use Rattle.ddcmp_io.specs.Device.{Logs};
    ghost use Rattle.ddcmp_picture.specs.declared.mark.Mark.{Mark as MarkValue};

    // The marks that were put on it so far, if known.
    ghost drawn: { Self → Option (List MarkValue) } = { λ _. None };

    // The row of the next mark.
    ghost next_row: { Self → ℕ };

    /// Returns the row of the next mark.
    fn row(&self) -> u64
        ensures { result ≡ next_row self.now };

    /// Adds a mark.
    fn put(&mut self, mark: &Mark)
        ensures { Logs (drawn self.old) (drawn self.new) (mark.now ∷ []) };

    /// Writes what it has to show; returns whether it continues.
    fn show<W: Sink>(&mut self, writer: &mut W) -> bool
        requires whole { W.broken writer.old ≡ false }
        ensures whole { IsTrue result → W.broken writer.new ≡ false }
        ensures drawn { Logs (drawn self.old) (drawn self.new) [] };
}
