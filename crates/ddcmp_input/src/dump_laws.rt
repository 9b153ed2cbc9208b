//! What holds of dumps: functions without an effect, whose contracts are the laws.
ghost use Rattle.std.specs.Prelude.{◌≡◌, List, ℕ, ◌++◌};
ghost use Rattle.ddcmp_input.specs.Dump.{DumpView, dump_after, shown_from};
ghost use Rattle.ddcmp_input.specs.Grammar.{Line, LineEnd, Reads};

use crate::place::Place;

/// A text that is read in chunks becomes what it would become as a whole.
pub fn pieces()
    ensures shown { (v : DumpView) (text more : List ℕ)
        → shown_from v.place (text ++ more)
        ≡ shown_from v.place text ++ shown_from (dump_after v text).place more }
    ensures state { (v : DumpView) (text more : List ℕ)
        → dump_after v (text ++ more) ≡ dump_after (dump_after v text) more }
{}

/// Of a line of a dump, by its grammar, just the digits of its data are kept, and the next line
/// begins after it.
pub fn lines_are_read()
    ensures { (line digits end : List ℕ) → Line line digits → LineEnd end
        → Reads Place.Start (line ++ end) digits }
{}
