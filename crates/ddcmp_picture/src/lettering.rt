//! The texts of a document over its arrows, and their positions.
use ddcmp_io::{MemorySink, Page};
use std::alloc::Global;

/// The height of a text.
const HEIGHT: u64 = 13;

/// The width of ten characters.
const TEN_CHARACTERS: u64 = 66;

/// How many texts are remembered; arrows that are further apart don't meet.
const KEPT: usize = 32;

/// The position of a text: its left end and its right end on its base line.
#[derive(Clone, Copy, Drop)]
pub(crate) struct Spot {
    pub(crate) left: u64,
    pub(crate) right: u64,
    pub(crate) left_base: u64,
    pub(crate) right_base: u64,
}

/// Returns the width of a text.
pub(crate) fn width_of(text: &[u8]) -> u64 {
    (text.len() as u64).saturating_mul(TEN_CHARACTERS) / 10
}

impl Spot {
    /// Returns the position of a level text.
    pub(crate) fn level(left: u64, right: u64, base: u64) -> Self {
        Spot {
            left,
            right,
            left_base: base,
            right_base: base,
        }
    }

    fn base_at(&self, x: u64) -> u64 {
        let across = self.right.saturating_sub(self.left).max(1);
        let part = x.saturating_sub(self.left);
        let down = self.right_base.saturating_sub(self.left_base);
        let up = self.left_base.saturating_sub(self.right_base);
        self.left_base
            .saturating_add(down.saturating_mul(part) / across)
            .saturating_sub(up.saturating_mul(part) / across)
    }

    /// Returns whether it is above another one, between two x positions.
    fn is_above(&self, other: &Spot, left: u64, right: u64) -> bool {
        self.base_at(left).saturating_add(HEIGHT) <= other.base_at(left)
            && self.base_at(right).saturating_add(HEIGHT) <= other.base_at(right)
    }

    /// Returns whether the two texts overlap.
    fn meets(&self, other: &Spot) -> bool {
        let left = self.left.max(other.left);
        let right = self.right.min(other.right);
        left < right && !self.is_above(other, left, right) && !other.is_above(self, left, right)
    }
}

/// The texts over the arrows of a document.
pub(crate) struct Lettering {
    pub(crate) draft: Page,
    pub(crate) sheet: MemorySink,
    /// The positions of the last of them.
    spots: [Spot; KEPT],
    next: usize,
}

// Manual, since a derived `Drop` would be expanded wherever a value is dropped.
impl Drop for Lettering {
    fn drop(self) {
        let Lettering {
            draft: _draft,
            sheet: _sheet,
            spots: _,
            next: _,
        } = self;
    }
}

impl Lettering {
    pub(crate) fn new(alloc: Global) -> Self {
        Lettering {
            draft: Page::new(),
            sheet: MemorySink::new(alloc),
            spots: [Spot::level(0, 0, 0); KEPT],
            next: 0,
        }
    }

    /// Ends the texts; returns whether no allocation failed.
    pub(crate) fn end(&mut self) -> bool {
        self.draft.flush(&mut self.sheet).is_ok()
    }

    /// Remembers the position of a text.
    pub(crate) fn keep(&mut self, spot: Spot) {
        self.spots[self.next % KEPT] = spot;
        self.next = (self.next % KEPT).saturating_add(1);
    }

    /// Returns whether a text at this position would overlap no other.
    pub(crate) fn is_free(&self, spot: &Spot) -> bool {
        for kept in &self.spots {
            if kept.meets(spot) {
                return false;
            }
        }
        true
    }
}
