//! A sink that discards everything.
ghost use Rattle.std.specs.Prelude.{None, false};

use ddcmp_io::Sink;

/// Discards all bytes.
#[derive(Clone, Copy, Drop)]
pub(crate) struct Nowhere;

impl Sink for Nowhere {
    ghost contents = { λ _. None };

    ghost broken = { λ _. false };

    fn write(&mut self, bytes: &[u8]) -> Option<usize> {
        Some(bytes.len())
    }

    fn failed(&self) -> bool {
        false
    }
}
