//! Pseudorandom numbers from a seed.
ghost use Rattle.std.specs.Prelude.{◌≤◌, ◌<◌, length};

/// A sequence of pseudorandom numbers, the same for the same seed (splitmix64).
#[derive(Drop)]
pub struct Draws {
    pub state: u64,
}

impl Draws {
    pub fn next(&mut self) -> u64 {
        self.state = self.state.wrapping_add(0x9E37_79B9_7F4A_7C15);
        let mut mixed = self.state;
        mixed = (mixed ^ (mixed >> 30)).wrapping_mul(0xBF58_476D_1CE4_E5B9);
        mixed = (mixed ^ (mixed >> 27)).wrapping_mul(0x94D0_49BB_1331_11EB);
        mixed ^ (mixed >> 31)
    }

    /// Returns a number below `bound`.
    pub fn below(&mut self, bound: usize) -> usize
        requires { 0 < bound }
        ensures { result < bound }
    {
        (self.next() % bound as u64) as usize
    }

    /// Returns a number up to `most`.
    pub fn up_to(&mut self, most: u8) -> u8
        ensures { result ≤ most }
    {
        (self.next() % (most as u64 + 1)) as u8
    }

    pub fn byte(&mut self) -> u8 {
        (self.next() & 0xFF) as u8
    }

    /// Returns true once in `times` times.
    pub fn once_in(&mut self, times: u64) -> bool
        requires { 0 < times }
    {
        self.next() % times == 0
    }

    /// Returns one of these values.
    pub fn among<T: Copy>(&mut self, choices: &[T]) -> T
        requires { 0 < length choices.now }
    {
        choices[self.below(choices.len())]
    }
}
