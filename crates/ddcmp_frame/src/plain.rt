//! The plain reader, which buffers the bytes of the unfinished frame and parses them again from the
//! front with each byte: a reference for `Reader`, with the same contract.
ghost use Rattle.std.specs.Prelude.{◌≡◌, ◌+◌, ◌-◌, ◌<◌, ◌≤◌, ◌^◌, ℕ, Bool, true, false, List, []};
ghost use Rattle.std.specs.Prelude.{◌∷◌, ◌++◌, length, take, drop, Some, None, vec_len};
ghost use Rattle.std.specs.Prelude.{vec_capacity, if◌then◌else◌};
ghost use Rattle.ddcmp_frame.specs.Spelling.{parsed};
ghost use Rattle.ddcmp_frame.specs.Reading.{row as row_at, count_of as count_in, by_count};
ghost use Rattle.ddcmp_frame.specs.Reading.{open_at_end, kept_at_end};
ghost use Rattle.ddcmp_frame.specs.Reader.{StandsFor, Grows, LentBeside, MakesReader, Pushes};
ghost use Rattle.ddcmp_frame.specs.Reader.{open_of, kept_of};
ghost use Rattle.ddcmp_frame.specs.Step.{place_untold, row_of_step, Found};

use crate::header::{Header, HeaderFault, is_start};
use crate::held::{count_of, data_right, frame_buffer, loss, resume};
use crate::item::Item;
use crate::reader::ReaderRefusal;
use std::alloc::Global;
use std::marker::Model;

/// A reader of frames that is fed one byte at a time. After `new` it doesn't allocate.
#[derive(Drop)]
pub struct PlainReader {
    max: u16,
    offset: u64,
    lost: bool,
    // The bytes from the start byte of the last frame on, and whether that was read whole.
    buffer: Vec<u8>,
    finished: bool,
    // The number of bytes of a frame that is too long: received, and still to come.
    skipped: usize,
    left: usize,
    // How many bytes of data after the header are lent.
    lent: usize,
}

impl Model for PlainReader {
    ghost use Rattle.std.specs.Prelude.{◌≡◌, ◌+◌, ◌<◌, ◌≤◌, take, drop, [], if◌then◌else◌, vec_len};
    ghost use Rattle.std.specs.Prelude.{vec_capacity, false};
    ghost use Rattle.ddcmp_frame.specs.Reader.{ReaderView};

    ghost Value = { ReaderView };

    ghost view = { λ r. record {
      max = r.max;
      offset = r.offset;
      lost = r.lost;
      bytes = (if r.finished then []
          else r.buffer.items);
      skipped = r.skipped;
      left = r.left;
      lent = take r.lent (drop 8 r.buffer.items);
    } };

    ghost use Rattle.ddcmp_frame.specs.Inside.PlainRoom.{HasPlainRoom};

    ghost invariant = { HasPlainRoom };
}

/// One row of the table, as it applies at the front of the bytes held.
#[derive(Clone, Copy)]
enum Step {
    /// The frame that begins here is unfinished.
    Unfinished,
    /// No header begins with the first byte.
    Skips,
    /// The CRC of the header is wrong.
    Fails,
    /// A header with more data than the reader accepts, this many bytes.
    Announces(Header, usize),
    /// An item, and how many bytes of data are lent beside it.
    Gives(Item, usize),
}

impl PlainReader {
    /// Makes a reader of frames with at most `max` bytes of data. Allocates memory for one frame.
    pub fn new(alloc: Global, max: u16) -> Result<PlainReader, ReaderRefusal>
        ensures { MakesReader max result }
    {
        match frame_buffer(alloc, max) {
            Ok(buffer) => Ok(PlainReader {
                max,
                offset: 0,
                lost: false,
                buffer,
                finished: true,
                skipped: 0,
                left: 0,
                lent: 0,
            }),
            Err(refusal) => Err(refusal),
        }
    }

    /// Handles one byte; returns the item that it completes.
    pub fn push(&mut self, byte: u8) -> Option<Item>
        requires { self.old.offset + 1 < 2 ^ 64 }
        ensures { Pushes self.old byte result self.new }
    {
        self.take(byte)
    }

    fn take(&mut self, byte: u8) -> Option<Item>
        requires { self.old.offset + 1 < 2 ^ 64 }
        ensures counted { self.new.offset ≡ self.old.offset + 1 }
        ensures max { self.new.max ≡ self.old.max }
        ensures lent { LentBeside result self.new.lent }
        ensures within { length self.new.lent ≤ self.old.max }
        ensures grows { (text : List ℕ) → StandsFor self.old text
            → Grows self.old byte result self.new text }
    {
        self.offset += 1;
        self.lent = 0;
        if self.left > 1 {
            self.left -= 1;
            self.skipped += 1;
            return None;
        }
        if self.left == 1 {
            self.left = 0;
            self.skipped = 0;
            self.lost = false;
            return None;
        }
        store(&mut self.buffer, self.finished, byte);
        self.finished = false;
        let at = self.offset - self.buffer.len() as u64;
        match row(&self.buffer, self.max, at) {
            Step::Unfinished => None,
            Step::Skips => {
                self.finished = true;
                None
            }
            Step::Fails => {
                let item = loss(self.lost, at);
                resume(&mut self.buffer);
                self.lost = true;
                item
            }
            Step::Announces(header, count) => {
                self.finished = true;
                self.skipped = 8;
                self.left = count + 2;
                Some(Item::TooLong(at, header))
            }
            Step::Gives(item, lent) => {
                self.finished = true;
                self.lost = false;
                self.lent = lent;
                Some(item)
            }
        }
    }

    /// Returns the data of the good item that the last push completed, otherwise none.
    pub fn data(&self) -> &[u8]
        ensures { result.now ≡ self.now.lent }
    {
        if self.lent == 0 {
            return &[];
        }
        &self.buffer[8..8 + self.lent]
    }

    /// Returns the number of bytes so far.
    pub fn offset(&self) -> u64
        ensures value { result ≡ self.now.offset }
        ensures text { (text : List ℕ) → StandsFor self.now text → result ≡ length text }
    {
        self.offset
    }

    /// Returns the number of bytes from the start byte of the unfinished frame on.
    pub fn open(&self) -> usize
        ensures value { result ≡ open_of self.now }
        ensures text { (text : List ℕ) → StandsFor self.now text → result
            ≡ open_at_end self.now.max text }
    {
        self.kept() + self.skipped
    }

    /// Returns the number of buffered bytes of the unfinished frame.
    pub fn kept(&self) -> usize
        ensures value { result ≡ kept_of self.now }
        ensures text { (text : List ℕ) → StandsFor self.now text → result
            ≡ kept_at_end self.now.max text }
        ensures within { result ≤ self.now.max + 10 }
    {
        if self.finished { 0 } else { self.buffer.len() }
    }

    /// Restarts.
    pub fn reset(&mut self)
        ensures stands { StandsFor self.new [] }
        ensures max { self.new.max ≡ self.old.max }
        ensures lent { self.new.lent ≡ [] }
    {
        self.offset = 0;
        self.lost = false;
        self.finished = true;
        self.skipped = 0;
        self.left = 0;
        self.lent = 0;
    }
}

/// Appends a byte to the bytes held, or replaces them if they are a frame that was read whole.
fn store(buffer: &mut Vec<u8>, finished: bool, byte: u8)
    requires some { 0 < vec_capacity buffer.old }
    requires room { finished ≡ false → vec_len buffer.old < vec_capacity buffer.old }
    ensures items { buffer.new.items ≡ (if finished then [] else buffer.old.items) ++ byte ∷ [] }
    ensures room { vec_capacity buffer.old ≤ vec_capacity buffer.new }
{
    if finished {
        buffer.clear();
    }
    match buffer.push(byte) {
        Ok(()) => {}
        Err(_) => unreachable!(),
    }
}

/// Returns the row that applies at the front of the bytes, which begin at the offset `at`.
fn row(bytes: &[u8], max: u16, at: u64) -> Step
    ensures row { (lost : Bool) → row_at max (place_untold at lost bytes.now)
        ≡ row_of_step result (place_untold at lost bytes.now) }
    ensures found { Found max at bytes.now result }
{
    if bytes.is_empty() {
        return Step::Unfinished;
    }
    if !is_start(bytes[0]) {
        return Step::Skips;
    }
    let Some(front) = bytes.first_chunk::<8>() else {
        return Step::Unfinished;
    };
    match Header::parse(front) {
        Ok(header) => row_after_header(bytes, max, at, header),
        Err(HeaderFault::NotAStart) => Step::Skips,
        Err(HeaderFault::Check) => Step::Fails,
        Err(HeaderFault::BadType(code)) => {
            Step::Gives(Item::Format(at, HeaderFault::BadType(code)), 0)
        }
        Err(HeaderFault::CountZero) => Step::Gives(Item::Format(at, HeaderFault::CountZero), 0),
    }
}

/// Returns the row that applies after a right header.
fn row_after_header(bytes: &[u8], max: u16, at: u64, header: Header) -> Step
    requires front { 8 ≤ length bytes.now }
    requires header { parsed (take 8 bytes.now) ≡ Ok header }
    ensures row { (lost : Bool)
        → by_count max (place_untold at lost bytes.now) header (count_in header)
        ≡ row_of_step result (place_untold at lost bytes.now) }
    ensures found { Found max at bytes.now result }
{
    let Some(count) = count_of(&header) else {
        return Step::Gives(Item::Good(at, header), 0);
    };
    if count > max as usize {
        return Step::Announces(header, count);
    }
    if bytes.len() < count + 10 {
        return Step::Unfinished;
    }
    if data_right(bytes, count) {
        Step::Gives(Item::Good(at, header), count)
    } else {
        Step::Gives(Item::DataCheck(at, header), 0)
    }
}
