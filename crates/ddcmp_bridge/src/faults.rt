//! The faults that a bridge makes, to test the stations at its ends.
ghost use Rattle.std.specs.Prelude.{◌≡◌, ◌<◌, ◌≤◌, length, slice_set, take};
ghost use Rattle.ddcmp_bridge.specs.Faults.{IsWithin, altered, after_fate, fate_drawn, next_draws};
ghost use Rattle.ddcmp_bridge.specs.Faults.{start_of};

use rand_core::utils::NextWord;
use rand_pcg::Pcg32;

/// The faults that a bridge makes: percentages of its good frames, and the seed for drawing them.
#[derive(Clone, Copy, Debug)]
pub struct Faults {
    /// The percentage of frames that are lost.
    pub lose: u32,
    /// The percentage of the others in which a byte is changed.
    pub damage: u32,
    pub seed: u32,
}

/// The fate of a good frame.
#[derive(Clone, Copy)]
pub enum Fate {
    Passed,
    Lost,
    /// The byte at this index is changed, by exclusive or.
    Altered { at: usize, by: u8 },
}

/// Returns the random generator of one direction of a bridge.
pub(crate) fn start_draws(seed: u32, direction: u64) -> Pcg32
    ensures { result ≡ start_of seed direction }
{
    Pcg32::new(u64::from(seed), direction)
}

/// Draws the fate of a frame of `length` bytes. Two words are drawn for each frame, so that its
/// fate doesn't depend on the frames before it.
pub(crate) fn draw_fate(faults: &Faults, draws: &mut Pcg32, length: usize) -> Fate
    requires { 1 < length }
    ensures fate { result ≡ fate_drawn faults.now draws.old length }
    ensures draws { draws.new ≡ next_draws draws.old }
    ensures within { IsWithin length result }
{
    let first = draws.next_word();
    let second = draws.next_word();
    if first % 100 < faults.lose {
        return Fate::Lost;
    }
    if first / 100 % 100 < faults.damage {
        return Fate::Altered {
            at: 1 + second as usize % (length - 1),
            by: 1 + (second / 65536 % 255) as u8,
        };
    }
    Fate::Passed
}

/// Applies a fate to the frame in the first `end` bytes of `space`; returns how many bytes are
/// left.
pub(crate) fn apply_fault(space: &mut [u8], end: usize, fate: Fate) -> usize
    requires end { end ≤ length space.old }
    requires within { IsWithin end fate }
    ensures left { take result space.new ≡ after_fate fate (take end space.old) }
    ensures most { result ≤ end }
    ensures room { length space.new ≡ length space.old }
{
    match fate {
        Fate::Passed => end,
        Fate::Lost => 0,
        Fate::Altered { at, by } => {
            space[at] ^= by;
            end
        }
    }
}
