//! Where frames end in a datagram.
use ddcmp_frame::{Reader, ReaderRefusal};
use std::alloc::Global;

/// Finds the incomplete frame at the end of a datagram.
pub struct Framing {
    frames: Reader,
}

// Manual, since a derived `Drop` would be expanded wherever a value is dropped.
impl Drop for Framing {
    fn drop(self) {
        let Framing { frames: _frames } = self;
    }
}

impl Framing {
    /// Makes a value for messages of at most `max` bytes.
    pub fn new(alloc: Global, max: u16) -> Result<Framing, ReaderRefusal> {
        Ok(Framing {
            frames: Reader::new(alloc, max)?,
        })
    }

    /// Returns how many bytes at the end of a datagram belong to an incomplete frame.
    pub fn unfinished(&mut self, datagram: &[u8]) -> usize {
        let mut at = 0;
        for _item in 0..u64::MAX {
            let rest = datagram.get(at..).unwrap_or(&[]);
            // Offsets count from the datagram's beginning, so they don't overflow.
            let countable = u64::MAX - self.frames.offset();
            if rest.is_empty() || countable <= rest.len() as u64 {
                break;
            }
            at = at.saturating_add(self.frames.push_all(rest).used);
        }
        let unfinished = self.frames.open();
        self.frames.reset();
        unfinished
    }
}
