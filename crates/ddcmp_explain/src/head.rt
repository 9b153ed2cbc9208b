//! The first bytes of the incomplete frame.
ghost use Rattle.std.specs.Prelude.{◌≡◌, ◌+◌, ◌-◌, ◌<◌, ◌≤◌, ◌++◌, ◌∷◌, [], List, ℕ, drop, length};
ghost use Rattle.std.specs.Prelude.{take};
ghost use Rattle.ddcmp_explain.specs.Inside.Heads.{Heads, Follows};
ghost use Rattle.ddcmp_explain.specs.Discarded.{open_header};

use ddcmp_frame::Header;

/// The number of bytes of the incomplete frame, and the first eight of them.
#[derive(Clone, Copy)]
pub(crate) struct Head {
    pub(crate) count: usize,
    pub(crate) bytes: [u8; 8],
}

impl Head {
    /// Returns the value if no frame is incomplete.
    pub(crate) fn new() -> Self
        ensures { Heads result [] }
    {
        Head {
            count: 0,
            bytes: [0; 8],
        }
    }

    /// Takes a byte; `left_open` is the number of bytes of the incomplete frame after it.
    pub(crate) fn follow(&mut self, byte: u8, left_open: usize)
        ensures { (rest more : List ℕ) → Heads self.old rest → Follows rest byte more
            → left_open ≡ length more → Heads self.new more }
    {
        if self.count < left_open {
            if self.count < 8 {
                self.append(byte);
            }
        } else if self.count < 8 {
            self.shift(byte, left_open);
        }
        self.count = left_open;
    }

    /// Appends a byte.
    fn append(&mut self, byte: u8)
        requires few { self.old.count < 8 }
        ensures count { self.new.count ≡ self.old.count }
        ensures long { length self.new.bytes ≡ 8 }
        ensures bytes { take (self.old.count + 1) self.new.bytes
            ≡ take self.old.count self.old.bytes ++ byte ∷ [] }
    {
        self.bytes[self.count] = byte;
    }

    /// Keeps the last `left_open` bytes, this one included.
    fn shift(&mut self, byte: u8, left_open: usize)
        requires few { self.old.count < 8 }
        requires fewer { left_open ≤ self.old.count }
        ensures { take left_open self.new.bytes ≡ drop (self.old.count + 1 - left_open)
            (take self.old.count self.old.bytes ++ byte ∷ []) }
    {
        self.append(byte);
        let held = self.bytes;
        let end = self.count + 1;
        self.bytes[..left_open].copy_from_slice(&held[end - left_open..end]);
    }

    /// Returns the header, if it is complete.
    pub(crate) fn header(&self) -> Option<Header>
        ensures { (rest : List ℕ) → Heads self.now rest → result ≡ open_header rest }
    {
        if self.count < 8 {
            None
        } else {
            Header::parse(&self.bytes).ok()
        }
    }
}
