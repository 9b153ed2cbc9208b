//! A carrier that fails, or returns fewer or other bytes than it was passed.
ghost use Rattle.std.specs.Prelude.{◌≡◌, false};

use ddcmp_line::{Carrier, End, LineFault};

/// Returns at most this many bytes, the first changed by exclusive or, and fails at one carry.
pub struct Bad {
    most: usize,
    by: u8,
    fails_at: usize,
    carries: usize,
    broken: bool,
}

// Manual, since a derived `Drop` would be expanded wherever a value is dropped.
impl Drop for Bad {
    fn drop(self) {
        let Bad {
            most: _,
            by: _,
            fails_at: _,
            carries: _,
            broken: _,
        } = self;
    }
}

impl Bad {
    /// Makes a carrier. Carries are counted from 1; 0 stands for none.
    pub fn new(most: usize, by: u8, fails_at: usize) -> Self
        ensures { result.broken ≡ false }
    {
        Bad {
            most,
            by,
            fails_at,
            carries: 0,
            broken: false,
        }
    }
}

impl Carrier for Bad {
    ghost broken = { λ c. c.broken };

    fn carry(&mut self, _from: End, bytes: &[u8], out: &mut [u8]) -> Result<usize, LineFault> {
        self.carries = self.carries.saturating_add(1);
        if self.carries == self.fails_at {
            self.broken = true;
            return Err(LineFault::Write);
        }
        let given = bytes.len().min(self.most);
        out[..given].copy_from_slice(&bytes[..given]);
        if let Some(first) = out.first_mut() {
            *first ^= self.by;
        }
        Ok(given)
    }

    fn failed(&self) -> bool {
        self.broken
    }
}
