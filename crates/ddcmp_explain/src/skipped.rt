//! The bytes between items.
ghost use Rattle.std.specs.Prelude.{◌≡◌, ◌+◌, ◌++◌, List, ℕ};
ghost use Rattle.ddcmp_frame.specs.declared.header.Header.{Header};
ghost use Rattle.ddcmp_frame.specs.Reading.{good_frame_of};
ghost use Rattle.ddcmp_frame.specs.Step.{item_offset};
ghost use Rattle.ddcmp_explain.specs.Discarded.{has_frame, passed, skipped_parts, taken_by};

use ddcmp_frame::Item;

/// Where an item is: its offset, and how many bytes it takes.
#[derive(Clone, Copy)]
pub struct Reached {
    pub offset: u64,
    pub taken: u64,
}

/// Returns the offset of an item, and how many bytes it takes: none for a damaged header, since
/// only its start byte is skipped.
pub fn reached_by(item: &Item) -> Reached
    ensures offset { result.offset ≡ item_offset item.now }
    ensures taken { result.taken ≡ taken_by item.now }
{
    let (offset, taken) = match item {
        Item::Good(offset, header)
        | Item::DataCheck(offset, header)
        | Item::TooLong(offset, header) => (*offset, header.frame_length() as u64),
        Item::HeaderCheck(offset) => (*offset, 0),
        Item::Format(offset, _) => (*offset, 8),
    };
    Reached { offset, taken }
}

/// Returns whether a good frame was found, this item included.
pub(crate) fn finds_good(is_found: bool, item: &Item) -> bool
    ensures { (frames : List (Header × List ℕ)) (lent : List ℕ) → is_found ≡ has_frame frames
        → result ≡ has_frame (frames ++ good_frame_of (item.now, lent)) }
{
    match item {
        Item::Good(_, _) => true,
        Item::HeaderCheck(_) | Item::DataCheck(_, _) | Item::TooLong(_, _) | Item::Format(_, _) =>
            is_found,
    }
}

/// Skipped bytes: the offset of the first, and how many.
#[derive(Clone, Copy)]
pub struct Skipped {
    pub from: u64,
    pub count: u64,
}

impl Reached {
    /// Returns the value for an offset, with no bytes.
    pub fn at(offset: u64) -> Reached
        ensures { result ≡ record { offset = offset; taken = 0 } }
    {
        Reached { offset, taken: 0 }
    }

    /// Returns the bytes skipped after the item, up to an offset.
    pub fn skipped_to(&self, to: u64) -> Option<Skipped>
        ensures { skipped_parts result ≡ passed (self.now.offset + self.now.taken) to }
    {
        if self.offset < to && self.taken < to - self.offset {
            let from = self.offset + self.taken;
            return Some(Skipped {
                from,
                count: to - from,
            });
        }
        None
    }
}
