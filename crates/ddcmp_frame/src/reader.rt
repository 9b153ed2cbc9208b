//! A reader of frames that is fed the bytes of a line in chunks of any size.
ghost use Rattle.std.specs.Prelude.{◌≡◌, ◌+◌, ◌<◌, ◌≤◌, ◌^◌, ℕ, List, [], length, Some, None};
ghost use Rattle.std.specs.Prelude.{IsSome, IfSome};
ghost use Rattle.ddcmp_frame.specs.Fields.{CountedFields};
ghost use Rattle.ddcmp_frame.specs.Reading.{open_at_end, kept_at_end};
ghost use Rattle.ddcmp_frame.specs.Reader.{StandsFor, MakesReader, Pushes, PushesAll, open_of};
ghost use Rattle.ddcmp_frame.specs.Reader.{kept_of, BeginsWith, PushesFrame};

use crate::header::Counted;
use crate::held::frame_buffer;
use crate::item::{Item, Pushed};
use crate::scan::{Phase, Scan};
use std::alloc::Global;
use std::marker::Model;

/// The reason why no reader was made.
#[derive(Clone, Copy, Debug, PartialEq, Eq)]
pub enum ReaderRefusal {
    /// No frame has data of no bytes.
    MaxZero,
    /// COUNT is at most 16383.
    MaxAbove16383,
    /// The allocation for the bytes of one frame failed.
    Memory,
}

/// A reader of frames that is fed a byte stream in chunks of any size. After `new` it doesn't
/// allocate.
///
/// Pass a chunk to `push_all`, and what it didn't use again; `data` lends the data of the item that
/// it returned until the next push.
#[derive(Drop)]
pub struct Reader {
    scan: Scan,
}

impl Model for Reader {
    ghost use Rattle.ddcmp_frame.specs.Reader.{ReaderView};
    ghost use Rattle.ddcmp_frame.specs.Inside.Scan.{IsSoundScan, view_of};

    ghost Value = { ReaderView };

    ghost view = { λ r. view_of r.scan };

    ghost invariant = { λ r. IsSoundScan r.scan };
}

impl Reader {
    /// Makes a reader of frames with at most `max` bytes of data. Allocates memory for one frame.
    pub fn new(alloc: Global, max: u16) -> Result<Reader, ReaderRefusal>
        ensures { MakesReader max result }
    {
        match frame_buffer(alloc, max) {
            Ok(buffer) => Ok(Reader {
                scan: Scan {
                    max,
                    offset: 0,
                    lost: false,
                    buffer,
                    phase: Phase::Seeking,
                    lent: 0,
                },
            }),
            Err(refusal) => Err(refusal),
        }
    }

    /// Handles one byte; returns the item that it completes.
    pub fn push(&mut self, byte: u8) -> Option<Item>
        requires { self.old.offset + 1 < 2 ^ 64 }
        ensures { Pushes self.old byte result self.new }
    {
        self.scan.lent = 0;
        let taken = self.scan.take(&[byte]);
        taken.item
    }

    /// Handles the bytes of a chunk, up to and with the first that completes an item.
    #[inline(always)]
    pub fn push_all(&mut self, piece: &[u8]) -> Pushed
        requires { self.old.offset + length piece.now < 2 ^ 64 }
        ensures { PushesAll self.old piece.now result self.new }
    {
        self.scan.lent = 0;
        self.scan.take_all(piece)
    }

    /// Handles the data frame at the front of a chunk, if none is unfinished and this one is whole
    /// and right; returns its fields. It does what `push_all` does, but the data stay in the chunk,
    /// after the eight bytes of the header.
    #[inline(always)]
    pub fn push_frame(&mut self, piece: &[u8]) -> Option<Counted>
        requires { self.old.offset + length piece.now < 2 ^ 64 }
        ensures none { result ≡ None → self.new ≡ self.old }
        ensures unlent { IsSome result → self.new.lent ≡ [] }
        ensures pushes { IfSome result (λ h. PushesFrame self.old piece.now h self.new) }
        ensures found { (h : CountedFields) (message rest : List ℕ) → self.old.bytes ≡ []
            → self.old.left ≡ 0 → BeginsWith self.old.max piece.now h message rest
            → result ≡ Some h }
    {
        self.scan.take_frame(piece)
    }

    /// Returns the data of the good item that the last push completed, otherwise none.
    #[inline(always)]
    pub fn data(&self) -> &[u8]
        ensures { result.now ≡ self.now.lent }
    {
        if self.scan.lent == 0 {
            return &[];
        }
        &self.scan.buffer[8..8 + self.scan.lent]
    }

    /// Returns the most data that a frame may have, in bytes.
    pub fn max(&self) -> u16
        ensures { result ≡ self.now.max }
    {
        self.scan.max
    }

    /// Returns the number of bytes so far.
    pub fn offset(&self) -> u64
        ensures value { result ≡ self.now.offset }
        ensures text { (text : List ℕ) → StandsFor self.now text → result ≡ length text }
    {
        self.scan.offset
    }

    /// Returns the number of bytes from the start byte of the unfinished frame on.
    pub fn open(&self) -> usize
        ensures value { result ≡ open_of self.now }
        ensures text { (text : List ℕ) → StandsFor self.now text → result
            ≡ open_at_end self.now.max text }
    {
        self.scan.open()
    }

    /// Returns the number of buffered bytes of the unfinished frame.
    pub fn kept(&self) -> usize
        ensures value { result ≡ kept_of self.now }
        ensures text { (text : List ℕ) → StandsFor self.now text → result
            ≡ kept_at_end self.now.max text }
        ensures within { result ≤ self.now.max + 10 }
    {
        self.scan.kept()
    }

    /// Restarts.
    pub fn reset(&mut self)
        ensures stands { StandsFor self.new [] }
        ensures max { self.new.max ≡ self.old.max }
        ensures lent { self.new.lent ≡ [] }
    {
        self.scan.offset = 0;
        self.scan.lost = false;
        self.scan.phase = Phase::Seeking;
        self.scan.lent = 0;
    }
}
