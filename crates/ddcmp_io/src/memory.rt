//! A sink in memory.
ghost use Rattle.std.specs.Prelude.{◌≡◌, ◌<◌, [], false, Some};

use crate::device::Sink;
use std::alloc::Global;

/// Keeps what is written. It has failed once an allocation failed.
#[derive(Drop)]
pub struct MemorySink {
    pub bytes: Vec<u8>,
    pub refused: bool,
}

impl MemorySink {
    /// Makes an empty sink. It doesn't allocate yet.
    pub fn new(alloc: Global) -> Self
        ensures empty { result.bytes.items ≡ [] }
        ensures whole { result.refused ≡ false }
    {
        MemorySink {
            bytes: Vec::new(alloc),
            refused: false,
        }
    }

    /// Removes all bytes, and keeps the memory.
    pub fn clear(&mut self)
        ensures empty { self.new.bytes.items ≡ [] }
        ensures whole { self.new.refused ≡ false }
    {
        self.bytes.clear();
        self.refused = false;
    }
}

impl Sink for MemorySink {
    ghost contents = { λ kept. Some kept.bytes.items };

    ghost broken = { λ kept. kept.refused };

    fn write(&mut self, bytes: &[u8]) -> Option<usize> {
        match self.bytes.extend_from_slice(bytes) {
            Ok(()) => Some(bytes.len()),
            Err(_refused) => {
                self.refused = true;
                None
            }
        }
    }

    fn failed(&self) -> bool {
        self.refused
    }
}
