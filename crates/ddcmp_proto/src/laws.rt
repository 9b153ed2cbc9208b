//! Laws of a station over bytes: functions without an effect.
ghost use Rattle.std.specs.Prelude.{◌≡◌, ℕ, List, [], ◌++◌};
ghost use Rattle.ddcmp_core.specs.Core.{CoreView};
ghost use Rattle.ddcmp_proto.specs.Bytes.{after_piece, notices_of_piece};

use ddcmp_frame::laws::items_of_longer;

/// A piece of the line does the same as its parts, one after another: chunk sizes don't matter.
pub fn pieces()
    ensures limits { (text u : List ℕ) (k : CoreView) → (after_piece text u k).limits ≡ k.limits }
    ensures none { (text : List ℕ) (k : CoreView) → (after_piece text [] k ≡ k)
        × (notices_of_piece text [] k ≡ []) }
    ensures state { (text u v : List ℕ) (k : CoreView) → after_piece text (u ++ v) k
        ≡ after_piece (text ++ u) v (after_piece text u k) }
    ensures told { (text u v : List ℕ) (k : CoreView)
        → notices_of_piece text (u ++ v) k ≡ notices_of_piece text u k
        ++ notices_of_piece (text ++ u) v (after_piece text u k) }
{
    items_of_longer();
}
