//! Frames that are stored: their headers, and their data one after another.
ghost use Rattle.std.specs.Prelude.{◌≡◌, ◌↔◌, ◌<◌, ◌≤◌, ◌++◌, ◌∷◌, [], IsOk, IsTrue, get_or};
ghost use Rattle.std.specs.Prelude.{length};
ghost use Rattle.ddcmp_pair.specs.Place.{WholeFrame};

use crate::messages::Messages;
use ddcmp_frame::Header;
use std::alloc::{AllocError, Global};
use std::marker::Model;

/// Frames in their order.
#[derive(Drop)]
pub(crate) struct Frames {
    headers: Vec<Header>,
    data: Messages,
}

impl Model for Frames {
    ghost use Rattle.std.specs.Prelude.{◌≡◌, ◌-◌, length, min, vec_capacity, vec_len, zip};
    ghost use Rattle.ddcmp_pair.specs.Inside.Kept.{FramesView};

    ghost Value = { FramesView };

    ghost view = { λ f. record {
      all = zip f.headers.items f.data.all;
      spare_bytes = f.data.spare_bytes;
      spare = min (vec_capacity f.headers - vec_len f.headers) f.data.spare;
    } };

    ghost invariant = { λ f. length f.headers.items ≡ length f.data.all };
}

impl Frames {
    /// Makes an empty list.
    pub(crate) fn new(alloc: Global) -> Frames
        ensures { result.all ≡ [] }
    {
        Frames {
            headers: Vec::new(alloc),
            data: Messages::new(alloc),
        }
    }

    /// Drops all frames.
    pub(crate) fn clear(&mut self)
        ensures { self.new.all ≡ [] }
    {
        self.headers.clear();
        self.data.clear();
    }

    /// Returns how many frames there are.
    pub(crate) fn len(&self) -> usize
        ensures { result ≡ length self.now.all }
    {
        self.headers.len()
    }

    /// Returns whether frame `i`, counted from 0, equals this one.
    pub(crate) fn is_at(&self, i: usize, header: &Header, data: &[u8]) -> bool
        requires { i < length self.now.all }
        ensures { (d : WholeFrame)
            → IsTrue result ↔ ((header.now ≡ (get_or self.now.all i d).0)
            × («data».now ≡ (get_or self.now.all i d).1)) }
    {
        is_same(&self.headers[i], self.data.at(i), header, data)
    }

    /// Reserves room for one more frame with data of this length.
    pub(crate) fn reserve(&mut self, length: usize) -> Result<(), AllocError>
        ensures all { self.new.all ≡ self.old.all }
        ensures bytes { IsOk result → length ≤ self.new.spare_bytes }
        ensures one { IsOk result → 0 < self.new.spare }
    {
        self.headers.reserve(1)?;
        self.data.reserve(length)
    }

    /// Appends a frame for which there is room.
    pub(crate) fn push_reserved(&mut self, header: Header, data: &[u8])
        requires bytes { length «data».now ≤ self.old.spare_bytes }
        requires one { 0 < self.old.spare }
        ensures { self.new.all ≡ self.old.all ++ (header, «data».now) ∷ [] }
    {
        self.headers.push_reserved(header);
        self.data.push_reserved(data);
    }
}

/// Returns whether a frame that was sent equals this one.
fn is_same(sent: &Header, sent_data: &[u8], header: &Header, data: &[u8]) -> bool
    ensures { IsTrue result ↔ ((header.now ≡ sent.now) × («data».now ≡ sent_data.now)) }
{
    *sent == *header && sent_data == data
}
