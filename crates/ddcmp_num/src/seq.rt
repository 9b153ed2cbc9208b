//! Sequence numbers, which count modulo 256.
ghost use Rattle.std.specs.Prelude.{◌≡◌, ◌↔◌, ◌+◌, ◌%◌, IsTrue};
ghost use Rattle.ddcmp_num.specs.Sequence.{distance as distance_of, Within};

/// The number of a data message, counted modulo 256: 0 follows 255.
#[derive(Clone, Copy, Debug, PartialEq, Eq)]
pub struct Seq(pub u8);

impl Seq {
    /// Returns the number that follows.
    pub fn next(self) -> Seq
        ensures { result.0 ≡ (self.0 + 1) % 256 }
    {
        Seq(self.0.wrapping_add(1))
    }

    /// Returns how many steps of `next` lead from `from` to `to`.
    pub fn distance(from: Seq, to: Seq) -> u8
        ensures { result ≡ distance_of from.0 to.0 }
    {
        to.0.wrapping_sub(from.0)
    }

    /// Returns whether counting up from `low` reaches `x` no later than `high`. All windows up to
    /// 255 are compared in this way and never by the sign of a difference.
    pub fn within(low: Seq, x: Seq, high: Seq) -> bool
        ensures { IsTrue result ↔ Within low.0 x.0 high.0 }
    {
        Seq::distance(low, x) <= Seq::distance(low, high)
    }
}
